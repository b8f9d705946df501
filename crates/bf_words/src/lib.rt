//! The words of the command line: the command, its options and its other words.
//!
//! A line is read from left to right. Each word has a role, which the word before it decides with it. The
//! roles and the words give the first fault of the line, or what it asks for.
#![tactic(auto)]

mod checks;
mod first;
mod found;
mod options;
mod reading;
mod request;
mod role;
mod verb;

pub use first::first_option;
pub use options::{Choice, Form, OptionRow};
pub use request::{Request, WordFault, read_words, read_words_behind};
pub use role::Role;
pub use verb::{Verb, verb_of};
