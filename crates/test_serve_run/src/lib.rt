//! Tests of `serve` over devices in memory: whole sessions, and what cuts them short.
#![tactic(auto)]

#[cfg(test)]
mod session;
#[cfg(test)]
mod sessions;
