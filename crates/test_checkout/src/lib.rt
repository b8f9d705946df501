//! Tests of commits in folders with their files: in memory, in folders of the system, and by a command.
//! They stand apart from the crate that they test, since a crate is proved once more with tests of its own.
#![tactic(auto)]

#[cfg(test)]
mod contents;
#[cfg(test)]
mod shops;
#[cfg(test)]
mod system;
