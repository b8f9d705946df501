//! Tests of histories: paths, trees, tables, commits, their names, and logs that are replayed. They stand apart
//! from the crates that they test, since a crate is proved once more with tests of its own.
#![tactic(auto)]

#[cfg(test)]
mod commits;
#[cfg(test)]
mod contents;
#[cfg(test)]
mod forest;
#[cfg(test)]
mod forest_plain;
#[cfg(test)]
mod names;
#[cfg(test)]
mod replay;
#[cfg(test)]
mod tables;
