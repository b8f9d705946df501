//! The commands of a git fast-import stream (git-fast-import(1)), read from any source in whatever pieces
//! the bytes come. The definition of a stream stands in `bf_grammar`; here each reader gives what the
//! definition reads at the place where the reader stands.
//!
//! Below them a cursor reads the lines and data parts of a source through one window of 64 KiB. What stands in a
//! stream is said by readings of places, so that no reader of commands knows of windows.
#![tactic(auto)]

mod changes;
mod commands;
mod cursor;
mod data;
mod front;
mod line;
mod parts;
mod reader;
mod reading;
mod standing;
mod text;
mod window;

pub use bf_grammar::{
    Change, Changes, Command, Commit, DataRef, Header, Limit, Limits, StreamFault, Target, Targets,
};
pub use cursor::Cursor;
pub use reader::Reader;
pub use window::Window;
