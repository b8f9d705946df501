//! Paths of files, and how git writes them (git-fast-import(1), `filemodify`): text and path are one
//! relation, both ways. A path is seen as the list of its components.
#![tactic(auto)]

mod parts;
mod spelling;

pub use parts::{Path, PathFault};
pub use spelling::{quote, read_path, round_trip};
