//! Tests of the commands and of their top call, as tables of words and texts with what is written. They stand apart from
//! the crates that they test, since a crate is proved once more with tests of its own.
#![tactic(auto)]

#[cfg(test)]
mod answers;
#[cfg(test)]
mod calls;
#[cfg(test)]
mod certified;
#[cfg(test)]
mod checked;
#[cfg(test)]
mod devices;
#[cfg(test)]
mod folders;
#[cfg(test)]
mod heads;
#[cfg(test)]
mod kept;
#[cfg(test)]
mod large;
#[cfg(test)]
mod line;
#[cfg(test)]
mod rows;
#[cfg(test)]
mod streams;
