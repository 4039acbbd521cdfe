//! Tests of the reader of decks and of what is written, of the words, the drill's deck and the
//! ends, by their public calls alone.
#![tactic(auto)]

#[cfg(test)]
mod causes;
#[cfg(test)]
mod decks;
#[cfg(test)]
mod disks;
#[cfg(test)]
mod drills;
#[cfg(test)]
mod ends;
#[cfg(test)]
mod expects;
#[cfg(test)]
mod histories;
#[cfg(test)]
mod history_reading;
#[cfg(test)]
mod words;
