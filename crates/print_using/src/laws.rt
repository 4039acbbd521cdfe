//! A law about the definitions of this crate: the contract of a function with an empty body.

ghost use Rattle.print_using.specs.Laws.{FormatIsReadOneWay};

/// States that the parts of a format, fields and bytes, are those that reading it from the left
/// finds, and no others.
#[tactic(auto, using(crate::proofs::FormatLaws::format_is_read_one_way))]
pub fn format_is_read_one_way()
    ensures { FormatIsReadOneWay }
{}
