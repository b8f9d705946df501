//! The tables of an import: what the marks of a stream stand for, the places of its refs, the names of
//! its commits, and its contents. Each is seen as a list, in the order in which its entries came, and looks
//! an entry up by a hash of what it is under; a mark whose number is near the count of marks, by the
//! number alone.
#![tactic(auto)]

mod blobs;
mod marks;
mod names;
mod refs;

pub use blobs::Blobs;
pub use marks::Marks;
pub use names::Names;
pub use refs::Refs;
