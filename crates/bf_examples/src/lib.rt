//! How a program of one's own uses these crates: each file is an example, and docs/LIBRARY.md goes through them.
#![tactic(auto)]

#[cfg(test)]
mod checking;
#[cfg(test)]
mod line;
#[cfg(test)]
mod naming;
#[cfg(test)]
mod reading;
#[cfg(test)]
mod searching;
#[cfg(test)]
mod sharing;
