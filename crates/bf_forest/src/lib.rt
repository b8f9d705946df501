//! Trees of files. A tree is seen as the list of its files, in order of their paths' bytes; edits change
//! that list, and the name of a tree is that which git gives it.
#![tactic(auto)]

mod cuts;
mod edits;
mod entries;
mod levels;
mod nodes;
mod opened;
mod pool;
mod slots;
mod table;
mod tail;
mod trees;

pub use edits::Edit;
pub use entries::FileEntry;
pub use trees::{Forest, ForestFault};
