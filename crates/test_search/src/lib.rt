//! Tests of searches: weights, states, runs, words, testers and logs. They stand apart from the crates
//! that they test, since a crate is proved once more with tests of its own.
#![tactic(auto)]

#[cfg(test)]
mod bases;
#[cfg(test)]
mod choice;
#[cfg(test)]
mod goods;
#[cfg(test)]
mod graph;
#[cfg(test)]
mod log;
#[cfg(test)]
mod reach;
#[cfg(test)]
mod rows;
#[cfg(test)]
mod state;
#[cfg(test)]
mod terms;
#[cfg(test)]
mod tester;
#[cfg(test)]
mod weights;
#[cfg(test)]
mod words;
