//! The command `serve`: a scheduler outside asks for tests line by line, and posts what they showed. No thread, test or
//! process is started here.
#![tactic(auto)]

mod command;
pub mod laws;
mod server;

pub use command::serve;
