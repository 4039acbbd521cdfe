//! Tests of the gate and of runs in threads, by their public calls alone.
#![tactic(auto)]

#[cfg(test)]
mod expects;
#[cfg(test)]
mod jobs;
#[cfg(test)]
mod lost_runs;
#[cfg(test)]
mod passes;
#[cfg(test)]
mod runs;
#[cfg(test)]
mod volumes;
