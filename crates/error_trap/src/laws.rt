//! Laws about the definitions of this crate. Each is the contract of a function with an empty body.

ghost use Rattle.error_trap.specs.Laws.{ResumeLeadsBack, HandlersAreNotTrapped};

/// States that RESUME leads back to the statement whose error was trapped, and ERR and ERL keep
/// their values.
pub fn resume_leads_back()
    ensures { ResumeLeadsBack }
{}

/// States that an error that occurs while another is being handled is reported, and the trap keeps
/// the first.
pub fn handlers_are_not_trapped()
    ensures { HandlersAreNotTrapped }
{}
