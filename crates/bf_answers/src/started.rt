//! Searches that have begun, and what is answered before any commit is tested.
use crate::answer::Answer;
use bf_import::History;
use bf_log::Known;
use bf_reach::Reach;
use bf_search::Entry;
use bf_state::State;

/// How a search begins: its state, and the entries that its log begins with.
#[derive(Drop)]
pub struct Beginning {
    /// What is known, with the terms.
    pub state: State,
    /// Which ends the log that stands already makes known.
    pub known: Known,
    /// The entries that follow it.
    pub entries: Vec<Entry>,
}

/// How the commits of a search are tested.
#[derive(Clone, Copy, PartialEq, Eq, Debug)]
pub enum Means {
    /// By a plan that the words write.
    Plan,
    /// By the command that the words name.
    Command,
}

/// A search that has begun, with its history.
#[derive(Drop)]
pub struct Started {
    pub history: History,
    /// The ancestors of its commits.
    pub reach: Reach,
    /// How the search begins, with both ends.
    pub first: Beginning,
    pub means: Means,
}

/// What is answered before any commit is tested, or the search that is to be tested.
#[derive(Drop)]
pub enum Ready {
    /// The answer of a command that leaves the tester alone, or a refusal.
    Told(Answer),
    /// The search that is to be tested.
    Search(Started),
}
