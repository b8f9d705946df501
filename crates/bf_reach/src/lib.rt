//! Which commits are ancestors of which: rows of truth values, packed 64 to a word, filled by walks down a graph.
#![tactic(auto)]

mod blocks;
mod marks;
mod reach;
mod row;
mod words;

pub use blocks::{Blocks, COLUMNS};
pub use marks::{mark_all, true_places};
pub use reach::Reach;
pub use row::Row;
