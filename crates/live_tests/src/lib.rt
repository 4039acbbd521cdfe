//! Tests of live terminals: rings of key lines, the lines of a live input, and frames of a screen.
#![tactic(auto)]

#[cfg(test)]
mod expects;
#[cfg(test)]
mod inputs;
#[cfg(test)]
mod rings;
#[cfg(test)]
mod screens;
