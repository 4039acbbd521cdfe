//! Laws about the definitions of this crate. Each is the contract of a function with an empty body.

ghost use Rattle.basic_matrix.specs.Laws.{EntriesAreElements, AssignmentChangesTheTarget};

/// States that the elements of a matrix are those that a program reads by their subscripts.
pub fn entries_are_elements()
    ensures { EntriesAreElements }
{}

/// States that after an assignment the target has the value. Every element with a subscript 0,
/// every other array and every variable is as before.
pub fn assignment_changes_the_target()
    ensures { AssignmentChangesTheTarget }
{}
