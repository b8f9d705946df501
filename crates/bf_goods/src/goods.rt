//! A list of good places, in which no place stands twice.
ghost use Rattle.std.specs.Prelude.{◌≡◌, ◌↔◌, [], length, IsTrue, IfOk, OnOk, OnErr};
ghost use Rattle.bf_search.specs.Bases.{has_place};
ghost use Rattle.bf_terms.specs.Texts.{with_good, with_goods};

use bf_graph::Places;
use indexmap::IndexSet;
use std::alloc::{AllocError, Global};
use std::marker::Model;

/// Good places in the order in which they were marked, each once. Contracts see the list itself.
///
/// Whether a place is there is looked up by its hash, so that one more takes no longer where there are
/// many.
#[derive(Drop)]
pub struct Goods {
    places: IndexSet<u32>,
}

impl Model for Goods {
    ghost use Rattle.std.specs.Prelude.{List, ℕ};

    ghost Value = { List ℕ };

    ghost view = { λ goods. goods.places.keys };
}

impl Goods {
    /// No place. It takes no memory.
    pub fn new(alloc: Global) -> Goods
        ensures { result ≡ [] }
    {
        Goods {
            places: IndexSet::new(alloc),
        }
    }

    /// These places, of equal ones the first alone.
    pub fn each_once(alloc: Global, places: &[u32]) -> Result<Goods, AllocError>
        ensures { IfOk result (λ goods. goods ≡ with_goods [] places.now) }
    {
        let mut goods = Goods::new(alloc);
        for place in places {
            goods.add(*place)?;
        }
        Ok(goods)
    }

    /// The places as a slice.
    pub fn as_slice(&self) -> &[u32]
        ensures { result.now ≡ self.now }
    {
        self.places.as_slice()
    }

    /// The number of places.
    pub fn len(&self) -> usize
        ensures { result ≡ length self.now }
    {
        self.places.len()
    }

    /// Whether there is no place.
    pub fn is_empty(&self) -> bool
        ensures { IsTrue result ↔ (self.now ≡ []) }
    {
        self.as_slice().is_empty()
    }

    /// Whether a place is among them.
    pub fn has(&self, place: u32) -> bool
        ensures { result ≡ has_place self.now place }
    {
        self.places.contains(&place)
    }

    /// The allocator that the list grows by.
    pub fn allocator(&self) -> Global {
        *self.places.allocator()
    }

    /// Adds a place at the end, unless it is there. After an error all is as before.
    pub fn add(&mut self, place: u32) -> Result<(), AllocError>
        ensures ok { OnOk result (self.new ≡ with_good self.old place) }
        ensures err { OnErr result (self.new ≡ self.old) }
    {
        self.places.insert(place)?;
        Ok(())
    }

    /// The list, as an entry holds it.
    pub fn to_places(&self) -> Result<Places, AllocError>
        ensures { IfOk result (λ places. places ≡ self.now) }
    {
        Places::from_slice(self.allocator(), self.as_slice())
    }

    /// The same places, once more.
    pub fn try_clone(&self) -> Result<Goods, AllocError>
        ensures { IfOk result (λ copy. copy ≡ self.now) }
    {
        let places = self.places.clone()?;
        Ok(Goods { places })
    }
}
