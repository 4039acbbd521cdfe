//! Why a list of entries is not a history.

/// The place where a list of entries first fails to be a history of the jobs. Places are counted
/// from 0.
#[derive(Clone, Copy, Debug, PartialEq, Eq)]
pub enum Dispute {
    /// The entry at this place has a job that does not exist, or a reply that is not the monitor's.
    Reply {
        entry: usize,
    },
    /// The job is the least that does other things than its entries say. It departs at this place
    /// among its own entries. The other number is the place of that entry in the history, or the
    /// place after the last entry if there is none.
    Meaning {
        job: u32,
        place: usize,
        entry: usize,
    },
}
