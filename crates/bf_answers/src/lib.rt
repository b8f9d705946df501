//! Answers of the program: the texts of refusals, what is ready before any commit is tested, and how an answer is
//! written. `Command` (specs/Answers.antt) says what a command may tell and which devices it asks for; by it the
//! definitions say what a call may answer and write, whatever its devices do. So they serve each command.
//!
//! It stands on `bf_output`, which defines what is told, and on the sinks and shelves whose faults are answered. The
//! crates that make an answer stand on it: `bf_begin`, `bf_searches` and `bf_program`.
#![tactic(auto)]

mod answer;
mod line;
mod refusals;
mod started;
mod tell;
mod write;

pub use answer::{Answer, Fault, Stop};
pub use bf_names::NameFault;
pub use bf_output::{Status, StreamKind};
pub use line::{RequestLine, word_at};
pub use refusals::{
    log_refusal, name_refusal, no_file, refusal, too_large, usage, waiting, word_refusal,
};
pub use started::{Beginning, Means, Ready, Started};
pub use tell::{commits_of, sides_of, status_of_ask, write_end};
pub use write::{say, say_answer, status_of_fault, write_and_flush};
