//! The top call of the program, `bisect_main`: it reads the words and the stream, searches, and writes the log and the
//! answer. One contract says what it answers and writes, whatever its devices do.
//!
//! It stands on three crates that each have a part of the work: `bf_begin` leads from words to a search that has begun,
//! `bf_searches` tests its commits and writes what it tells, and `bf_answers`, below both, has refusals and writing. Here
//! are the order of these parts, and the commands that leave the tester alone: `gen`, `next`, `replay` and `sample`.
#![tactic(auto)]

mod generate;
mod next;
mod prepare;
mod replay;
mod sample;
mod top;

pub use bf_answers::{NameFault, Status, StreamKind, say};
pub use top::bisect_main;
