//! Columns: the place of the next byte in its line. The first column is 0.

ghost use Rattle.std.specs.Prelude.{◌≡◌};
ghost use Rattle.std.specs.List.{fold};
ghost use Rattle.terminal_line.specs.Columns.{column_behind};

/// The largest column. A line may be longer, but its column stays there.
pub const MOST_COLUMN: u32 = 32767;

/// The number of columns of a print zone.
pub const ZONE_WIDTH: u32 = 14;

/// The first column of the last zone of a line.
pub const LAST_ZONE: u32 = 56;

/// The byte DEL, which like the control bytes does not change the column.
const DEL: u8 = 127;

/// Returns the column after one more byte.
fn column_behind(column: u32, byte: u8) -> u32
    ensures { result ≡ column_behind column byte }
{
    if byte == b'\r' {
        0
    } else if byte < b' ' || byte == DEL || column >= MOST_COLUMN {
        column
    } else {
        column + 1
    }
}

/// Returns the column after these bytes, if the first of them is at `column`.
pub fn column_from(column: u32, bytes: &[u8]) -> u32
    ensures { result ≡ fold column_behind column bytes.now }
{
    let mut behind = column;
    for byte in bytes {
        behind = column_behind(behind, *byte);
    }
    behind
}
