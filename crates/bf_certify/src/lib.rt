//! The commands of certificates: `certify`, a search whose certificate is printed in place of its log and its answer,
//! and `check`, which says whether a file is a certificate that holds.
#![tactic(auto)]

mod checking;
mod command;
mod ended;
pub mod laws;
mod search;
mod words;

pub use checking::check;
pub use command::certify;
