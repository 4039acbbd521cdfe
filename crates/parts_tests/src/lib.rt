//! Tests of the parts of the monitor and of a job, by their public calls alone. Of the monitor they
//! test accounts, protection, the disk, the message queues, the table of jobs, the interlock, the
//! printer, and names of files. Of a job they test its memory, record fields, channels, virtual
//! arrays, trap and terminal line, the strings of SYS, what PRINT USING writes, and MAT.
#![tactic(auto)]

#[cfg(test)]
mod arrays;
#[cfg(test)]
mod channel_stories;
#[cfg(test)]
mod columns;
#[cfg(test)]
mod disks;
#[cfg(test)]
mod expects;
#[cfg(test)]
mod fields;
#[cfg(test)]
mod interlock;
#[cfg(test)]
mod keys;
#[cfg(test)]
mod matrices;
#[cfg(test)]
mod memory;
#[cfg(test)]
mod names;
#[cfg(test)]
mod passwords;
#[cfg(test)]
mod printers;
#[cfg(test)]
mod queues;
#[cfg(test)]
mod records;
#[cfg(test)]
mod rights;
#[cfg(test)]
mod room;
#[cfg(test)]
mod screens;
#[cfg(test)]
mod seats;
#[cfg(test)]
mod specs;
#[cfg(test)]
mod sys_texts;
#[cfg(test)]
mod trap;
#[cfg(test)]
mod using_rows;
#[cfg(test)]
mod variables;
