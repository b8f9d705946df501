//! The farm machine: which commit each worker tests next, and what their outcomes come to.
//!
//! Workers claim places, post outcomes and give claims back, in any order. [`Core`] keeps what testing
//! one commit at a time on the posted outcomes comes to, whatever order they came in. No thread stands
//! here: a core is what workers share behind a lock.
#![tactic(auto)]

mod answers;
mod claims;
mod consuming;
mod machine;

pub use answers::{ApplyFault, CoreParts, Pick, Withdrawn};
pub use machine::Core;
