//! Laws about the definitions of this crate. Each is the contract of a function with an empty body.

ghost use Rattle.record_fields.specs.Laws.{ElementsAreApart, OthersStay, WrittenIsRead};

/// States that what was written to a part is read from it.
pub fn written_is_read()
    ensures { WrittenIsRead }
{}

/// States that a write to a part does not change a part that is apart from it.
pub fn others_stay()
    ensures { OthersStay }
{}

/// States that no two elements of an array are at one place.
pub fn elements_are_apart()
    ensures { ElementsAreApart }
{}
