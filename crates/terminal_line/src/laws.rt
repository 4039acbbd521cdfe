//! Laws about the definitions of this crate. Each is the contract of a function with an empty body.

ghost use Rattle.terminal_line.specs.Laws.{ColumnCounts, TabsReach, ZonesReach};

/// States that the column is the number of printed bytes after the last CR, up to the largest
/// column.
pub fn column_counts()
    ensures { ColumnCounts }
{}

/// States that after TAB the column is the given one if it was less, and otherwise as it was.
pub fn tabs_reach()
    ensures { TabsReach }
{}

/// States that after a comma the column is the next one at which a zone begins.
pub fn zones_reach()
    ensures { ZonesReach }
{}
