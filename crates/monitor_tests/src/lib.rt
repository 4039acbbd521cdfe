//! Tests of the monitor, by its public calls alone: rows of what a job asks and the reply, one
//! after another, over one monitor with two jobs.
#![tactic(auto)]

#[cfg(test)]
mod asks;
#[cfg(test)]
mod closing;
#[cfg(test)]
mod disks;
#[cfg(test)]
mod expects;
#[cfg(test)]
mod holds;
#[cfg(test)]
mod last_calls;
#[cfg(test)]
mod messages;
#[cfg(test)]
mod plain_seats;
#[cfg(test)]
mod replies;
#[cfg(test)]
mod rights;
#[cfg(test)]
mod runs;
#[cfg(test)]
mod volumes;
