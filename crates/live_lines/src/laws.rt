//! Laws over the definitions. They compute nothing.

ghost use Rattle.live_lines.specs.Dealing.{OwnLines};

/// Promises that each terminal gets its own lines, in order, and no others.
pub fn own_lines()
    ensures { OwnLines }
{}
