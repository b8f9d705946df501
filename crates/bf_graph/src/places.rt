//! A list of places that a struct or a variant can hold.
ghost use Rattle.std.specs.Prelude.{◌≡◌, ◌==◌, ◌↔◌, [], ◌∷◌, ◌++◌, length, IsTrue, IfOk, OnOk, OnErr};
ghost use Rattle.std.specs.Cmp.Lexicographic.{pointwise};
ghost use Rattle.std.specs.Cmp.Rules.{comparing, hashing};
ghost use Rattle.std.specs.Hash as fed;
ghost use Rattle.std.proofs.Common.{rules};

use std::alloc::{AllocError, Global};
use std::fmt;
use std::hash::{Hash, Hasher};
use std::marker::Model;

/// A list of places, with the allocator that it grows by. Contracts see it as the list itself.
#[derive(Drop)]
pub struct Places {
    alloc: Global,
    items: Vec<u32>,
}

impl Model for Places {
    ghost use Rattle.std.specs.Prelude.{List, ℕ};

    ghost Value = { List ℕ };

    ghost view = { λ places. places.items.items };
}

impl Places {
    /// No place. It takes no memory.
    pub fn new(alloc: Global) -> Places
        ensures { result ≡ [] }
    {
        Places {
            alloc,
            items: Vec::new(alloc),
        }
    }

    /// The places of a vector, which is taken as it is.
    pub fn from_vec(alloc: Global, items: Vec<u32>) -> Places
        ensures { result ≡ items.items }
    {
        Places { alloc, items }
    }

    /// A copy of a slice.
    pub fn from_slice(alloc: Global, places: &[u32]) -> Result<Places, AllocError>
        ensures { IfOk result (λ copy. copy ≡ places.now) }
    {
        let items = Vec::from_slice(alloc, places)?;
        Ok(Places { alloc, items })
    }

    /// The vector of the places, which is handed over as it is.
    pub fn into_vec(self) -> Vec<u32>
        ensures { result.items ≡ self }
    {
        self.items
    }

    /// The places as a slice.
    pub fn as_slice(&self) -> &[u32]
        ensures { result.now ≡ self.now }
    {
        self.items.as_slice()
    }

    /// The number of places in the list.
    pub fn len(&self) -> usize
        ensures { result ≡ length self.now }
    {
        self.items.len()
    }

    /// Whether the list has no place.
    pub fn is_empty(&self) -> bool
        ensures { IsTrue result ↔ (self.now ≡ []) }
    {
        self.items.is_empty()
    }

    /// The allocator that the list grows by.
    pub fn allocator(&self) -> Global {
        self.alloc
    }

    /// Adds a place at the end. After an error the list is as before.
    pub fn push(&mut self, place: u32) -> Result<(), AllocError>
        ensures ok { OnOk result (self.new ≡ self.old ++ place ∷ []) }
        ensures err { OnErr result (self.new ≡ self.old) }
    {
        self.items.push(place)?;
        Ok(())
    }

    /// A copy, which grows by the same allocator.
    pub fn try_clone(&self) -> Result<Places, AllocError>
        ensures { IfOk result (λ copy. copy ≡ self.now) }
    {
        Places::from_slice(self.alloc, self.items.as_slice())
    }
}

impl PartialEq for Places {
    ghost eq = { pointwise ◌==◌ };

    ghost laws = { Prim.search (comparing, rules) };

    fn eq(&self, other: &Places) -> bool {
        self.items.as_slice() == other.items.as_slice()
    }
}

impl Eq for Places {
    ghost laws = { Prim.search (comparing, rules) };
}

impl Hash for Places {
    ghost hash_input = { fed.slice fed.u32 };

    ghost respects_eq = { Prim.search (hashing, rules) };

    fn hash<H: Hasher>(&self, state: &mut H) {
        self.items.as_slice().hash(state);
    }
}

impl fmt::Debug for Places {
    fn fmt<W: fmt::Write>(&self, f: &mut fmt::Formatter<W>) -> fmt::Result {
        f.debug_list().entries(self.items.as_slice()).finish()
    }
}
