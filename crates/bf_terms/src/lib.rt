//! The words of a search for its two sides, and what the outcome of a test says of its commit; in specs/ the lines of
//! a log and of an answer. The crates that write and read these stand on this one.
#![tactic(auto)]

mod outcomes;
mod terms;
mod words;

pub use bf_search::{Mark, Outcome, Verdict};
pub use outcomes::{lenient, outcome_of_letter, verdict_of};
pub use terms::{TermFault, Terms};
