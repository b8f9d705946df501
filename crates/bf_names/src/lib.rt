//! Names of commits and ranges of them, as gitrevisions(7) has them.
#![tactic(auto)]

mod base;
mod digits;
mod fault;
mod form;
mod index;
pub mod laws;
mod leap;
mod name;
mod order;
mod range;
mod step;
mod walk;

pub use digits::may_abbreviate;
pub use fault::NameFault;
pub use form::has_ancestor;
pub use index::NameIndex;
pub use leap::Leaps;
pub use name::{resolve, resolve_by};
pub use order::NameOrder;
pub use range::resolve_range;
