//! Folders, and testers that test each commit in a folder with exactly its files.
#![tactic(auto)]

mod emptying;
mod folder;
mod look;
mod memory;
mod process;
mod real;
mod remains;
mod tester;
mod trees;
mod workshop;

pub use folder::{Folder, FolderFault};
pub use look::LookTester;
pub use memory::MemFolder;
pub use real::DirFolder;
pub use tester::FolderTester;
pub use trees::{SystemFiles, TreesRefusal};
pub use workshop::Workshop;
