//! Laws about the definitions of this crate. Each is the contract of a function with an empty body.

ghost use Rattle.file_names.specs.Laws.{SpecIsOne, PrintedIsRead, SpecsAreRead};

/// States that a text is at most one specification.
#[tactic(auto, using(crate::proofs::SpecLaws::spec_is_one))]
pub fn spec_is_one()
    ensures { SpecIsOne }
{}

/// States that the text printed for a name that a specification can have is read as that name.
#[tactic(auto, using(crate::proofs::SpecLaws::printed_is_read))]
pub fn printed_is_read()
    ensures { PrintedIsRead }
{}

/// States that a text is read as the specification that it spells; one that spells none is
/// rejected.
#[tactic(auto, using(crate::proofs::SpecLaws::specs_are_read))]
pub fn specs_are_read()
    ensures { SpecsAreRead }
{}
