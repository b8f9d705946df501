//! The words of a search: what is asked, what a test can end in, what a log says, and in specs/ the
//! definitions of the search over them.
#![tactic(auto)]

mod asks;
mod entries;
mod farm;
pub mod laws;
mod outcomes;

pub use asks::{Ask, Check, Step};
pub use entries::{Entry, push_warnings};
pub use farm::{Claim, Ending, Event};
pub use outcomes::{Mark, Outcome, Verdict};
