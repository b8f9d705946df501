//! The outside of the product: bytes, lists, sources, sinks, whole files by their names (shelves), and decimal numbers
//! as text.
//!
//! A device or a shelf tells its bytes or not, its count of faults never falls, and it fails only where that
//! count rose. Code over the traits is proved once for every one.
#![tactic(auto)]

mod bytes;
mod device;
mod list;
mod memory;
mod memory_files;
mod real;
mod real_files;
mod shelf;
mod text;

pub use bytes::{Bytes, Word};
pub use device::{Failed, Sink, SinkFault, Source, write_whole};
pub use list::List;
pub use memory::{MemSink, MemSource, PlainSink, PlainSource};
pub use memory_files::{MemShelf, PlainShelf};
pub use real::{StdSink, StdSource};
pub use real_files::DirShelf;
pub use shelf::{LoadFault, Shelf, ShelfFile};
pub use text::{decimal, put_decimal};
