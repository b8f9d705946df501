//! Tests of whole imports and of whole runs of the program, as tables of streams and words with what is written. They
//! stand apart from the crates that they test, since a crate is proved once more with tests of its own.
#![tactic(auto)]

#[cfg(test)]
mod faults;
#[cfg(test)]
mod imports;
#[cfg(test)]
mod line;
#[cfg(test)]
mod logs;
#[cfg(test)]
mod program;
#[cfg(test)]
mod refused;
#[cfg(test)]
mod searches;
#[cfg(test)]
mod skips;
#[cfg(test)]
mod workers;
