//! The forms of the texts in the lines of a git fast-import stream (git-fast-import(1)): parsers over
//! one line without its LF. None of them takes memory, and a refusal is the caller's own line.
#![tactic(auto)]

mod changes;
mod cuts;
mod first_lines;
mod idents;
mod parts;

pub use changes::{ModifyLine, delete_all_of, modify_line};
pub use cuts::{has_word, is_text, text_after};
pub use first_lines::{FirstLine, first_line, is_ref};
pub use idents::ident_of;
pub use parts::{DataLine, colon_number, data_line, encoding_of, mark_of};
