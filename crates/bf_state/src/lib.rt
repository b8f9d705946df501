//! The state of a search: what it asks next, and what a mark changes.
//!
//! Beside it stand laws: of the state, and of a search that several workers test, its open paths, its runs and its
//! farm machine. A function of [`farms`], [`laws`], [`masks`], [`paths`] or [`runs`] does nothing: its contract is the
//! law.
#![tactic(auto)]

mod asking;
pub mod farms;
pub mod laws;
pub mod masks;
pub mod paths;
mod ranked;
pub mod runs;
mod state;
mod weighed;

pub use bf_reach::true_places;
pub use ranked::Ranked;
pub use state::State;
pub use weighed::Weighed;
