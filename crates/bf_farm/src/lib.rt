//! Runs of tests, one commit at a time or several at once, and the board that threads share while each
//! tests a commit of its own. What is reported of a run is what testing one commit at a time comes to on
//! the answers that were given. Whatever threads do, a board's events are legal.
#![tactic(auto)]

mod absorb;
mod alone;
mod board;
mod case;
mod doers;
mod farm;
mod plans;
mod replay;
mod report;
mod share;
mod worker;

pub use alone::run_alone;
pub use bf_core::{Pick, Withdrawn};
pub use board::Board;
pub use case::Case;
pub use doers::is_by_one_of;
pub use farm::run_farm;
pub use plans::reports_follow_their_plan;
pub use report::Report;
