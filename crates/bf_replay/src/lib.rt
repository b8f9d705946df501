//! Replay of a log: the state of a search that its command lines lead to (git-bisect(1), "Bisect replay").
//!
//! The commits of every history keep what a replay rests on, so that its logs are read and replayed as they were
//! meant: this is said by [`laws`], whose functions do nothing and have laws as contracts.
#![tactic(auto)]

mod fault;
mod fold;
mod index;
pub mod laws;
mod mark;
mod start;

pub use fault::ReplayFault;
pub use fold::{Replayed, replay};
