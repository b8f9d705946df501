//! The texts of a search: the lines of a log and of an answer (git-bisect(1), "Bisect log and bisect
//! replay").
//!
//! What such a text tells, the state that its entries lead to, and what reading and replaying it gives, is defined in
//! specs/, and the laws that tie it to searches are the contracts of [`laws`].
#![tactic(auto)]

mod answer;
mod entries;
mod known;
mod label;
pub mod laws;
mod state;
mod trace;
mod write;

pub use known::Known;
pub use label::{Commits, Sides};
pub use state::{MarkedPlaces, write_state};
pub use trace::{write_events, write_failed_test, write_leg};
pub use write::{write_aborted, write_ask, write_entries, write_more, write_waiting};
