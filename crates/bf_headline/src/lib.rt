//! The headline in short: in specs/ what testing one commit after another comes to, in few words, and here laws that say
//! that these words mean what those of a search mean.
#![tactic(auto)]

pub mod laws;
