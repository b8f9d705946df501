//! The command `journal`: a run whose outcomes are kept in a file, from which the same line goes on.
#![tactic(auto)]

mod command;
mod cut;
mod keep;
mod legs;
mod search;
mod words;

pub use command::journal;
