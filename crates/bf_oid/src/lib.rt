//! The names of git's objects: what names an object, and the 40 hexadecimal digits that write a name.
#![tactic(auto)]

mod hasher;
mod object;
mod text;

pub use hasher::{ObjectHasher, object_name};
pub use object::{Kind, Mode, Oid};
pub use text::{oid_from_hex, oid_hex};
