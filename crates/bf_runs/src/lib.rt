//! Runs of a search over a history, leg by leg: its commits are tested one at a time or by several workers at once.
//! The runs of all legs are, in sequence, the run without legs, for every number of workers. The definition takes the
//! outcomes that are known at the end, so one statement serves one worker and many, with legs and without.
#![tactic(auto)]

mod case;
mod legs;

pub use case::{RunSettings, run_case};
pub use legs::{Standing, run_leg};
