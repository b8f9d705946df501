//! What the program answers: its statuses, and in specs/ the definitions of its texts, command by command, with laws
//! of them (`laws`). It stands on the definitions of words, streams, histories, searches, logs and runs, and calls none
//! of their code; `bf_answers` and what stands on it compute what is defined here.
#![tactic(auto)]

pub mod laws;
mod status;

pub use status::{Status, StreamKind};
