//! The command `many`: several searches over one history, whose commits the same workers test.
#![tactic(auto)]

mod command;
mod group;
mod list;
mod slots;
mod text;

pub use command::many;
