//! The refs of a history, and where they lead.
ghost use Rattle.std.specs.Prelude.{◌≡◌, ◌<◌, [], length, slice_get, slice_set, Some, OnOk, OnErr};
ghost use Rattle.std.specs.Option.{option_map};
ghost use Rattle.bf_forest.specs.Files.{is_same};
ghost use Rattle.bf_history.specs.Meanings.{ref_in};
ghost use Rattle.bf_history.specs.Named.{with_value, without_value};
ghost use Rattle.bf_tables.specs.Slots.{filled};

use bf_io::Bytes;
use indexmap::IndexMap;
use std::alloc::{AllocError, Global};
use std::marker::Model;

/// Refs by their full names, each with the place of the commit that it leads to (gitglossary(7), "ref").
/// They stay in the order in which they were first set; where one is removed, its slot stays empty.
#[derive(Debug, Drop)]
pub struct Refs {
    slots: Vec<Option<(Bytes, u32)>>,
    numbers: IndexMap<Bytes, usize>,
}

impl Model for Refs {
    ghost use Rattle.std.specs.Prelude.{List, ℕ};
    ghost use Rattle.bf_tables.specs.Slots.{filled, AreNumbered};

    ghost Value = { List (List ℕ × ℕ) };

    ghost view = { λ t. filled t.slots.items };

    ghost invariant = { λ t. AreNumbered t.slots.items t.numbers };
}

impl Refs {
    /// No ref. It takes no memory.
    pub fn new(alloc: Global) -> Refs
        ensures { result ≡ [] }
    {
        Refs {
            slots: Vec::new(alloc),
            numbers: IndexMap::new(alloc),
        }
    }

    /// The number of refs.
    pub fn len(&self) -> usize
        ensures { result ≡ length self.now }
    {
        self.numbers.len()
    }

    /// The place that a ref leads to; `None` where there is no ref of this name.
    pub fn get(&self, name: &Bytes) -> Option<u32>
        ensures { result ≡ ref_in self.now name.now }
    {
        let Some(number) = self.numbers.get(name).copied() else {
            return None;
        };
        place_in(&self.slots[number])
    }

    /// Lets a ref lead to a place. One that is there keeps its place in the order, and a new one goes last.
    /// After an error all is as before.
    pub fn set(&mut self, name: Bytes, place: u32) -> Result<(), AllocError>
        ensures ok { OnOk result (self.new ≡ with_value is_same name place self.old) }
        ensures err { OnErr result (self.new ≡ self.old) }
    {
        if let Some(number) = self.numbers.get(&name).copied() {
            fill(&mut self.slots, number, Some((name, place)));
            return Ok(());
        }
        let number = self.slots.len();
        let key = name.try_clone()?;
        self.slots.push(None)?;
        self.numbers.insert(key, number)?;
        fill(&mut self.slots, number, Some((name, place)));
        Ok(())
    }

    /// Removes a ref, where it is there; the others keep their order.
    pub fn remove(&mut self, name: &Bytes)
        ensures { self.new ≡ without_value is_same name.now self.old }
    {
        if let Some(number) = self.numbers.swap_remove(name) {
            fill(&mut self.slots, number, None);
        }
    }

    /// The ref with an index in the order, from 0: its name and the place that it leads to. It takes the
    /// time of a walk over all refs that were set so far.
    pub fn at(&self, index: usize) -> (&Bytes, u32)
        requires { index < length self.now }
        ensures { slice_get self.now index ≡ Some (result.0.now, result.1) }
    {
        let number = slot_of(self.slots.as_slice(), index);
        let (name, place) = self.slots[number].as_ref().unwrap();
        (name, *place)
    }
}

/// The place in a slot.
fn place_in(slot: &Option<(Bytes, u32)>) -> Option<u32>
    ensures { result ≡ option_map (λ given. given.1) slot.now }
{
    match slot {
        Some((_, place)) => Some(*place),
        None => None,
    }
}

/// Puts a ref into a slot, or empties it.
fn fill(slots: &mut Vec<Option<(Bytes, u32)>>, number: usize, slot: Option<(Bytes, u32)>)
    requires { number < length slots.old.items }
    ensures { slots.new.items ≡ slice_set slots.old.items number slot }
{
    slots[number] = slot;
}

/// The number of the slot of the ref with an index in the order.
fn slot_of(slots: &[Option<(Bytes, u32)>], index: usize) -> usize
    requires { index < length (filled slots.now) }
    ensures { slice_get slots.now result ≡ Some (slice_get (filled slots.now) index) }
{
    let mut left = index;
    for (number, slot) in slots.iter().enumerate() {
        if slot.is_some() {
            if left == 0 {
                return number;
            }
            left -= 1;
        }
    }
    slots.len()
}
