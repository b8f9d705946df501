//! What the product reads: the commands of a git fast-import stream, and the refusals of a stream. The
//! types stand here, and beside them in specs/ the definition that speaks of them: the grammar of a
//! stream.
#![tactic(auto)]

mod command;
mod fault;
mod law;

pub use command::{
    Change, Changes, Command, Commit, ContentForm, DataForm, DataRef, Head, Header, Target, Targets,
};
pub use fault::{Limit, Limits, StreamFault};
pub use law::{one_reading, own_faults, some_reading};
