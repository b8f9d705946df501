//! A journal of the outcomes of a run: a disk that survives crashes, and what is kept on it; and a tester over another
//! one that remembers outcomes, so that a commit whose outcome is remembered is not tested again.
#![tactic(auto)]

mod disk;
mod file;
mod identity;
mod journal;
mod kept;
mod layout;
mod look;
mod memory;
mod recall;
mod spoiled;

pub use disk::{Disk, DiskFault};
pub use file::DiskFile;
pub use identity::run_identity;
pub use journal::{Journal, JournalFault};
pub use memory::{DiskStep, MemDisk};
pub use recall::Recall;
