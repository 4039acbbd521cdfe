//! Tests of programs by public calls alone. They test the text of a program and its file, and how
//! the compiler rejects a program and what code it makes. They also test the run of instructions by
//! hand over a port that plays a script, and the ways into a program.
#![tactic(auto)]

#[cfg(test)]
mod arguments;
#[cfg(test)]
mod causes;
#[cfg(test)]
mod code;
#[cfg(test)]
mod edits;
#[cfg(test)]
mod endings;
#[cfg(test)]
mod expects;
#[cfg(test)]
mod files;
#[cfg(test)]
mod jobs;
#[cfg(test)]
mod read;
#[cfg(test)]
mod references;
#[cfg(test)]
mod runs;
