//! Tests of streams: their bytes, lines and commands, and the lines of logs. They stand apart from the crates
//! that they test, since a crate is proved once more with tests of its own.
#![tactic(auto)]

#[cfg(test)]
mod forms;
#[cfg(test)]
mod io;
#[cfg(test)]
mod lines;
#[cfg(test)]
mod made;
#[cfg(test)]
mod oid;
#[cfg(test)]
mod paths;
#[cfg(test)]
mod reading;
#[cfg(test)]
mod shelf;
#[cfg(test)]
mod stream;
#[cfg(test)]
mod stream_refusals;
