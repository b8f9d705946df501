//! Reading the log of a search (git-bisect(1), "Bisect log and bisect replay"): its command lines, as words.
#![tactic(auto)]

mod command;
mod line;
mod read;
mod start;
mod words;

pub use line::{LogFault, LogLine, LogLines, LogWord, Revs};
pub use read::read_log;
