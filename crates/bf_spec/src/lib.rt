//! A kept tree of guesses.
#![tactic(auto)]

mod asked;
mod follow;
mod grow;
mod kept;
mod node;
mod nodes;
mod reroot;
mod table;
mod tree;
mod walk;

pub use follow::Walked;
pub use table::Table;
pub use tree::SpecTree;
