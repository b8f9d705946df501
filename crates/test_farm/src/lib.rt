//! Tests of the farm's layers: the tree of guesses, the core that many may ask, runs by threads, and several searches
//! with shared workers. They stand apart from the crates that they test, since a crate is proved once more with tests of
//! its own.
#![tactic(auto)]

#[cfg(test)]
mod cores;
#[cfg(test)]
mod farm;
#[cfg(test)]
mod late;
#[cfg(test)]
mod line;
#[cfg(test)]
mod schedules;
#[cfg(test)]
mod shared;
#[cfg(test)]
mod tree;
