//! The limits that more than one crate uses, each with its unit: of the monitor and its decks, and
//! of programs. A limit of one part alone is defined with that part.

/// Bytes of a block, which is a page of a file.
pub const BLOCK_BYTES: usize = 512;

/// The most blocks of a disk.
pub const MOST_BLOCKS: u16 = 16384;

/// The most files on a disk.
pub const MOST_FILES: usize = 512;

/// The most accounts of a system.
pub const MOST_ACCOUNTS: usize = 512;

/// The largest limit of an account, in calls since the login.
pub const MOST_CALLS: u16 = 16384;

/// The largest quota of an account, in blocks.
pub const MOST_QUOTA: u16 = 16384;

/// The most terminals, and so the most jobs.
pub const MOST_JOBS: usize = 63;

/// The last channel of a job. The first is 0, which the command level uses.
pub const LAST_CHANNEL: u8 = 12;

/// The number of channels of a job, with channel 0.
pub const JOB_CHANNELS: usize = 13;

/// The most blocks of a record.
pub const MOST_RECORD_BLOCKS: u8 = 3;

/// The largest protection code of a file.
pub const MOST_CODE: u8 = 63;

/// The protection code of a file that is made without a code.
pub const USUAL_CODE: u8 = 60;

/// The project whose accounts have all rights.
pub const SYSTEM_PROJECT: u8 = 1;

/// The largest number of messages that a receiver can be declared for.
pub const MOST_LETTERS: u8 = 32;

/// The most bytes of a message, and of one Print on the line printer.
pub const LONGEST_MESSAGE: usize = 512;

/// The most lines of a program.
pub const MOST_LINES: usize = 1000;

/// The largest literal, and the largest line number. The least line number is 1.
pub const MOST_NUMBER: u16 = 32767;
