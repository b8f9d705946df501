//! What the marks of a stream stand for.
ghost use Rattle.std.specs.Prelude.{◌≡◌, ◌==◌, ◌<◌, [], length, slice_get, None, OnOk, OnErr, IfOk};
ghost use Rattle.bf_history.specs.Meanings.{mark_in};
ghost use Rattle.bf_history.specs.Named.{with_value};
ghost use Rattle.bf_tables.specs.Indices.{index_in, index_or, IsJoined, AreSame};

use bf_history::Marked;
use indexmap::IndexMap;
use std::alloc::{AllocError, Global};
use std::marker::Model;

/// The marks that were set, by their numbers, with what each stands for (git-fast-import(1),
/// `mark`). They stay in the order in which their numbers were first set. There are at most
/// 4294967295 of them, so that an index is a `u32`.
#[derive(Debug, Drop)]
pub struct Marks {
    entries: Vec<(u64, Marked)>,
    indices: Indices,
}

impl Model for Marks {
    ghost use Rattle.std.specs.Prelude.{List, ℕ};
    ghost use Rattle.bf_history.specs.declared.marked.Marked.{Marked};
    ghost use Rattle.bf_tables.specs.Indices.{index_in, AreIndexed};

    ghost Value = { List (ℕ × Marked) };

    ghost view = { λ t. t.entries.items };

    ghost invariant = { λ t.
        AreIndexed (index_in t.indices.near.items t.indices.far) t.entries.items };
}

impl Marks {
    /// No mark. It takes no memory.
    pub fn new(alloc: Global) -> Marks
        ensures { result ≡ [] }
    {
        Marks {
            entries: Vec::new(alloc),
            indices: Indices::new(alloc),
        }
    }

    /// The number of marks.
    pub fn len(&self) -> usize
        ensures { result ≡ length self.now }
    {
        self.entries.len()
    }

    /// What a mark stands for; `None` where it was not set.
    pub fn get(&self, number: u64) -> Option<Marked>
        ensures { result ≡ mark_in self.now number }
    {
        let Some(index) = self.indices.of(number) else {
            return None;
        };
        let (_, what) = self.entries[index as usize];
        Some(what)
    }

    /// Lets a mark stand for something from now on. A mark that was set keeps its place in the
    /// order, and a new one goes last. After an error all is as before.
    pub fn set(&mut self, number: u64, what: Marked) -> Result<(), AllocError>
        ensures ok { OnOk result (self.new ≡ with_value ◌==◌ number what self.old) }
        ensures err { OnErr result (self.new ≡ self.old) }
    {
        if let Some(index) = self.indices.of(number) {
            self.entries[index as usize] = (number, what);
            return Ok(());
        }
        // Room first, so that a mark is added as a whole or not at all.
        self.entries.reserve(1)?;
        let index = index_after(self.entries.len())?;
        self.indices.add(number, index)?;
        self.entries.push_reserved((number, what));
        Ok(())
    }
}

/// The indices of the numbers of marks. As a rule numbers come as 1, 2, 3, ..., so most are near
/// the count of marks: a near one is the place of its index in a list, and needs no hash.
#[derive(Debug, Drop)]
struct Indices {
    /// At a number, one more than its index, or 0 where it has none here.
    near: Vec<u32>,
    /// The indices of all other numbers.
    far: IndexMap<u64, u32>,
}

impl Indices {
    /// No index. It takes no memory.
    fn new(alloc: Global) -> Indices
        ensures near { result.near.items ≡ [] }
        ensures far { result.far.entries ≡ [] }
    {
        Indices {
            near: Vec::new(alloc),
            far: IndexMap::new(alloc),
        }
    }

    /// The index of a number; `None` where it has none.
    fn of(&self, number: u64) -> Option<u32>
        ensures { result ≡ index_in self.now.near.items self.now.far number }
    {
        let near = index_near(self.near.as_slice(), number);
        if near.is_some() || self.far.is_empty() {
            return near;
        }
        self.far.get(&number).copied()
    }

    /// Gives a number that has no index the next one. What is near grows with the count of marks
    /// alone, whatever their numbers are. After an error all is as before.
    fn add(&mut self, number: u64, index: u32) -> Result<(), AllocError>
        requires new { index_in self.old.near.items self.old.far number ≡ None }
        requires index { index < 4294967295 }
        ensures ok { OnOk result (IsJoined number index
            (index_in self.old.near.items self.old.far)
            (index_in self.new.near.items self.new.far)) }
        ensures err { OnErr result (AreSame
            (index_in self.old.near.items self.old.far)
            (index_in self.new.near.items self.new.far)) }
    {
        if number > 2 * u64::from(index) + 1024 {
            self.far.insert(number, index)?;
            return Ok(());
        }
        let place = number as usize;
        if place >= self.near.len() {
            self.near.resize(place + 1, 0)?;
        }
        self.near[place] = index + 1;
        Ok(())
    }
}

/// The index of a number that is near; `None` where it has none there.
fn index_near(near: &[u32], number: u64) -> Option<u32>
    ensures { result ≡ index_or (slice_get near.now number) None }
{
    let after = near.get(number as usize)?;
    after.checked_sub(1)
}

/// The index of what comes after so many entries. One above 4294967294 is refused as want of
/// memory.
fn index_after(count: usize) -> Result<u32, AllocError>
    ensures { IfOk result (λ index. (index ≡ count) × (index < 4294967295)) }
{
    if count >= 4294967295 {
        return Err(AllocError);
    }
    Ok(count as u32)
}
