//! What the commands of a stream mean: the history that they make, and how they are refused. The
//! definitions stand in specs/; the crates that make histories and read them stand on this one.
#![tactic(auto)]

mod fault;
mod law;
mod marked;

pub use fault::ImportFault;
pub use law::{all_contents, one_history};
pub use marked::Marked;
