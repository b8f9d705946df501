//! The history that the commands of a stream make. What each command means is defined in `bf_history`;
//! here a stream is read and its commands are carried out, one after the other.
#![tactic(auto)]

mod adding;
mod content;
mod growth;
mod history;
mod importer;
mod loading;
mod targets;

pub use bf_grammar::{Limit, Limits, StreamFault};
pub use bf_history::ImportFault;
pub use bf_oid::Oid;
pub use bf_tables::Blobs;
pub use content::Content;
pub use history::History;
pub use loading::{import, import_with_blobs, import_with_rest};
