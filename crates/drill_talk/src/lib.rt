//! What the jobs of a drill ask, and that none of their Puts is lost. `laws` states both.
#![tactic(auto)]

pub mod laws;
