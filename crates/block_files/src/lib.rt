//! The disk: files in the order of making, and the places of their pages.
//!
//! The crate depends on `monitor_model`, whose `Files` says what each call leaves. Each call of
//! `Disk` is proved to be its definition, is refused exactly if that says so, and leaves the old
//! disk if it is refused or memory runs out. For `Disk::place` it is proved that no two blocks have
//! one place, and for `Disk::used_by` how many blocks an owner has. `Disk::into_files` moves the
//! files out, with their pages. `Store` keeps pages, places and files, `Owners` counts, and `Disk`
//! has both.
#![tactic(auto)]

mod bodies;
mod disks;
mod owners;
mod stores;
mod unmounting;

pub use disks::Disk;
