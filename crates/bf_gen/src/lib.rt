//! Streams that are made from a number: histories of one branch with merges, as git-fast-import(1) reads
//! them.
#![tactic(auto)]

mod commits;
mod numbers;
mod writing;

pub use writing::generate;
