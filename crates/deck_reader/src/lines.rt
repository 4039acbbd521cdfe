//! Bytes cut into lines.

ghost use Rattle.std.specs.Prelude.{◌≡◌, ◌<◌, length, IfSome};
ghost use Rattle.std.specs.Str.Lines.{strip_carriage_return};
ghost use Rattle.deck_reader.specs.Seen.{CutsLine};

use basic_values::cut;

/// Returns the first line that ends with LF, without the LF and one CR before it, and the bytes
/// after it.
pub fn next_line(bytes: &[u8]) -> Option<(&[u8], &[u8])>
    ensures line { CutsLine (λ x. (x.0.now, x.1.now)) bytes.now result }
    ensures shorter { IfSome result (λ x. length x.1.now < length bytes.now) }
{
    let (line, rest) = cut(b'\n', bytes)?;
    Some((without_return(line), rest))
}

fn without_return(line: &[u8]) -> &[u8]
    ensures { result.now ≡ strip_carriage_return line.now }
{
    match line {
        [front @ .., b'\r'] => front,
        _ => line,
    }
}
