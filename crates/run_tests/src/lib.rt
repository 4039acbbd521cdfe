//! Tests of the program through its top call alone: runs, checks, drills and replays of decks
//! between ends in memory, at terminals in threads.
#![tactic(auto)]

#[cfg(test)]
mod alone;
#[cfg(test)]
mod calls;
#[cfg(test)]
mod drilling;
#[cfg(test)]
mod ends;
#[cfg(test)]
mod expects;
#[cfg(test)]
mod hostile;
#[cfg(test)]
mod pacing;
#[cfg(test)]
mod printing;
#[cfg(test)]
mod replaying;
#[cfg(test)]
mod runs;
#[cfg(test)]
mod screens;
#[cfg(test)]
mod sessions;
