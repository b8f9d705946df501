//! Searches: their commits are tested leg by leg, and what they tell is written.
//!
//! It stands on `bf_runs`, which runs a leg, and on `bf_answers`, which writes; it knows a search that has begun
//! (`Started`), and nothing of words or files. `search` meets the definition `IsSearched` of `bf_output`, and `go_on`
//! is one leg of it, for a command that does something of its own behind each leg.
#![tactic(auto)]

mod legs;
mod plan;
mod searching;
mod telling;

pub use legs::{Gone, Running, begin_running, go_on, gone_with, run_legs};
pub use plan::tester_of;
pub use searching::{command_of, search, search_by_command, search_by_plan};
pub use telling::Telling;
