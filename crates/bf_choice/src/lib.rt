//! What is asked next: the check of the merge bases, and the best of the candidates by their weights.
//!
//! `check` says whether a merge base has to be tested first; `candidates` are the places that may be the first bad
//! one, `weights` how many of them each reaches, and `choose` takes the best (git-bisect-lk2009, "Bisection
//! algorithm").
#![tactic(auto)]

mod bases;
mod cands;
mod checks;
mod choosing;
mod marks;
mod merges;
mod numbering;
mod parents;
mod pieces;
mod plain;
mod ranking;
mod sharing;
mod sizes;
mod weighing;

pub use bases::merge_bases;
pub use cands::candidates;
pub use checks::check;
pub use choosing::choose;
pub use plain::weights_plain;
pub use ranking::{Chosen, Ranking};
pub use weighing::weights;
