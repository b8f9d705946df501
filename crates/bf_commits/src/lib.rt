//! What a commit of a stream is made of: its name, its subject, the edits of its files, and what becomes of
//! its contents.
#![tactic(auto)]

mod body;
mod contents;
mod edits;
mod subject;

pub use body::{commit_name, original_name};
pub use contents::{Contents, LetGo};
pub use edits::edits_of;
pub use subject::into_subject;
