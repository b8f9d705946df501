//! The names of the commits of a history, by place.
ghost use Rattle.std.specs.Prelude.{◌≡◌, ◌<◌, [], length, take, is_none, IfOk, IfSome, OnOk, OnErr};
ghost use Rattle.bf_oid.specs.declared.object.Oid.{Oid};
ghost use Rattle.bf_history.specs.Meanings.{place_named};
ghost use Rattle.bf_tables.specs.Named.{LeadEachToItself, with_name};

use bf_oid::Oid;
use indexmap::IndexSet;
use std::alloc::{AllocError, Global};
use std::marker::Model;

/// The names of commits, each once; the place of a commit is the number of its name in the order, from 0.
/// There are at most 4294967295 of them, so that a place is a `u32`.
#[derive(Debug, Drop)]
pub struct Names {
    set: IndexSet<Oid>,
}

impl Model for Names {
    ghost use Rattle.std.specs.Prelude.{◌≤◌, List, length};
    ghost use Rattle.bf_oid.specs.declared.object.Oid.{Oid};

    ghost Value = { List Oid };

    ghost view = { λ t. t.set.keys };

    ghost invariant = { λ t. length t.set.keys ≤ 4294967295 };
}

impl Names {
    /// No name. It takes no memory.
    pub fn new(alloc: Global) -> Names
        ensures { result ≡ [] }
    {
        Names {
            set: IndexSet::new(alloc),
        }
    }

    /// The number of names.
    pub fn len(&self) -> u32
        ensures { result ≡ length self.now }
    {
        self.set.len() as u32
    }

    /// The names in order of their places. Each leads to its own place, so no two are the same.
    pub fn as_slice(&self) -> &[Oid]
        ensures value { result.now ≡ self.now }
        ensures distinct { LeadEachToItself self.now }
    {
        self.set.as_slice()
    }

    /// The place of the commit with a name; `None` where no commit has it.
    pub fn place_of(&self, name: Oid) -> Option<u32>
        ensures place { result ≡ place_named self.now name }
        ensures within { IfSome result (λ place. place < length self.now) }
    {
        let place = self.set.get_index_of(&name)?;
        Some(place as u32)
    }

    /// Adds a name at the next place, and returns whether it was new: one that is there already stays
    /// at its place. After an error all is as before.
    pub fn push(&mut self, name: Oid) -> Result<bool, AllocError>
        requires room { length self.old < 4294967295 }
        ensures added { IfOk result (λ added. added ≡ is_none (place_named self.old name)) }
        ensures ok { OnOk result (self.new ≡ with_name self.old name) }
        ensures err { OnErr result (self.new ≡ self.old) }
    {
        let added = self.set.insert(name)?;
        Ok(added)
    }

    /// Leaves the first names, so many at most.
    pub fn truncate(&mut self, count: u32)
        ensures { self.new ≡ take count self.old }
    {
        self.set.truncate(count as usize);
    }
}
