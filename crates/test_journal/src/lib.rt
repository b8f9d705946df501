//! Tests of journals, and of the tester that remembers what they kept. They stand apart from the crates that they test,
//! since a crate is proved once more with tests of its own.
#![tactic(auto)]

#[cfg(test)]
mod images;
#[cfg(test)]
mod journal;
#[cfg(test)]
mod recall;
