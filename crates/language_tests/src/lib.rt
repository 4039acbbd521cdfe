//! Tests of the crates of the language, by their public calls: tables of inputs and results. The
//! tests of an expensive crate are here, so that the crate is not proved again for them.
#![tactic(auto)]

#[cfg(test)]
mod expects;
#[cfg(test)]
mod expressions;
#[cfg(test)]
mod last_words;
#[cfg(test)]
mod lines;
#[cfg(test)]
mod scanner;
#[cfg(test)]
mod shown;
#[cfg(test)]
mod strings;
#[cfg(test)]
mod trees;
#[cfg(test)]
mod values;
