//! Tests of a job by public calls alone. They test what the session of a terminal shows, and its
//! requests to a port that plays a script; the whole parser reads the lines. Files of programs and
//! catalogs are tested by themselves.
#![tactic(auto)]

#[cfg(test)]
mod catalogs;
#[cfg(test)]
mod chains;
#[cfg(test)]
mod channel_talks;
#[cfg(test)]
mod files;
#[cfg(test)]
mod leaves;
#[cfg(test)]
mod lines;
#[cfg(test)]
mod matrices;
#[cfg(test)]
mod pages;
#[cfg(test)]
mod printing;
#[cfg(test)]
mod programs;
#[cfg(test)]
mod scripts;
#[cfg(test)]
mod sessions;
#[cfg(test)]
mod statements;
#[cfg(test)]
mod talks;
#[cfg(test)]
mod texts;
#[cfg(test)]
mod told;
