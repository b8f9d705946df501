//! The command `checkout`: a search that tests each commit in a folder that holds exactly its files. It needs no
//! repository, since the stream has the files.
#![tactic(auto)]

mod asked;
mod command;
mod prepare;

pub use command::checkout;
