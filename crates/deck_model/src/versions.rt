//! The versions in which a deck is written.

/// What the first line of a deck says. A deck means the same in every version.
#[derive(Clone, Copy)]
pub enum Version {
    /// `RSTS-DECK 1`: an account line has no quota, and every account may use the whole disk.
    One,
    /// `RSTS-DECK 2`: an account line ends with the account's quota.
    Two,
    /// `RSTS-DECK 3`: as version 2. A file may have any bytes, and any name and code that the
    /// monitor knows.
    Three,
}
