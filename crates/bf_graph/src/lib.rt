//! The graph of a history: the parents of each commit, by place.
//!
//! A place is the number of a commit in the order of the stream, from 0. The parents of a commit stand
//! before it, as git-fast-import(1) has it, so a parent's place is always smaller.
#![tactic(auto)]

mod graph;
mod places;

pub use graph::Graph;
pub use places::Places;
