//! A table of outcomes.
ghost use Rattle.std.specs.Prelude.{◌≡◌, ◌<◌, length, replicate, slice_set, Option, Some, None, IfOk};
ghost use Rattle.bf_search.specs.Outcomes.{outcomes_of_table};

use bf_search::Outcome;
use std::alloc::{AllocError, Global};
use std::marker::Model;

/// The outcomes of the tests of a search, by place, as far as they are known. Contracts see the list.
#[derive(Drop)]
pub struct Table {
    outcomes: Vec<Option<Outcome>>,
}

impl Model for Table {
    ghost use Rattle.std.specs.Prelude.{List, Option, length, ◌<◌};
    ghost use Rattle.bf_search.specs.declared.outcomes.Outcome.{Outcome};

    ghost Value = { List (Option Outcome) };

    ghost view = { λ table. table.outcomes.items };

    ghost invariant = { λ table. length table.outcomes.items < 4294967296 };
}

impl Table {
    /// A table of so many places, of which no outcome is known.
    pub fn new(alloc: Global, len: u32) -> Result<Table, AllocError>
        ensures { IfOk result (λ table. table ≡ replicate len None) }
    {
        let mut outcomes = Vec::new(alloc);
        outcomes.resize(len as usize, None)?;
        Ok(Table { outcomes })
    }

    /// The number of places.
    pub fn len(&self) -> u32
        ensures { result ≡ length self.now }
    {
        self.outcomes.len() as u32
    }

    /// The outcome of a place, and `None` exactly where none was put.
    pub fn get(&self, place: u32) -> Option<Outcome>
        requires { place < length self.now }
        ensures { result ≡ outcomes_of_table self.now place }
    {
        self.find(place)
    }

    /// The outcome of a place, and `None` where none was put, also past the end.
    pub(crate) fn find(&self, place: u32) -> Option<Outcome>
        ensures { result ≡ outcomes_of_table self.now place }
    {
        match self.outcomes.as_slice().get(place as usize) {
            Some(found) => *found,
            None => None,
        }
    }

    /// Puts the outcome of a place that has none. It takes no memory.
    pub fn put(&mut self, place: u32, outcome: Outcome)
        requires within { place < length self.old }
        requires fresh { outcomes_of_table self.old place ≡ None }
        ensures { self.new ≡ slice_set self.old place (Some outcome) }
    {
        self.outcomes[place as usize] = Some(outcome);
    }

    /// Takes the outcome of a place out again. It takes no memory.
    pub fn remove(&mut self, place: u32)
        requires { place < length self.old }
        ensures { self.new ≡ slice_set self.old place None }
    {
        self.outcomes[place as usize] = None;
    }

    /// An equal table.
    pub fn try_clone(&self) -> Result<Table, AllocError>
        ensures { IfOk result (λ copy. copy ≡ self.now) }
    {
        let outcomes = Vec::from_slice(*self.outcomes.allocator(), self.outcomes.as_slice())?;
        Ok(Table { outcomes })
    }
}
