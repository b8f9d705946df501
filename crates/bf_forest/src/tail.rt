//! What is left of the old entries of a directory that is edited, and where a key stands among them.
ghost use Rattle.std.specs.Prelude.{◌≡◌, ℕ, ◌<◌, ◌≤◌, false, true, [], length, drop, IfOk, OnOk};
ghost use Rattle.std.specs.Ordering.{nat_cmp, is_lt};
ghost use Rattle.std.specs.Cmp.Lexicographic.{slice_cmp};
ghost use Rattle.bf_forest.specs.Nodes.{are_within};
ghost use Rattle.bf_forest.specs.Rests.{IsOld, IsPassed, IsBehindKey, IsKeyMissing, is_before_key};

use crate::nodes::Numbers;
use crate::table::Table;
use std::alloc::{AllocError, Global};
use std::marker::Model;

/// The numbers of old entries, without so many in front.
#[derive(Debug, Drop)]
pub(crate) struct Tail {
    items: Vec<u32>,
    passed: usize,
}

impl Model for Tail {
    ghost use Rattle.std.specs.Prelude.{List, ℕ, ◌≤◌, drop, length};

    ghost Value = { List ℕ };

    ghost view = { λ t. drop t.passed t.items.items };

    ghost invariant = { λ t. t.passed ≤ length t.items.items };
}

impl Tail {
    /// No number. It takes no memory.
    pub(crate) fn new(alloc: Global) -> Tail
        ensures { result ≡ [] }
    {
        Tail {
            items: Vec::new(alloc),
            passed: 0,
        }
    }

    /// A copy of numbers.
    pub(crate) fn of(alloc: Global, numbers: &[u32]) -> Result<Tail, AllocError>
        ensures { IfOk result (λ tail. tail ≡ numbers.now) }
    {
        Ok(Tail {
            items: Vec::from_slice(alloc, numbers)?,
            passed: 0,
        })
    }

    /// The numbers that are left.
    pub(crate) fn as_slice(&self) -> &[u32]
        ensures { result.now ≡ self.now }
    {
        &self.items[self.passed..]
    }

    /// Passes numbers in front.
    pub(crate) fn pass(&mut self, count: usize)
        requires { count ≤ length self.old }
        ensures { self.new ≡ drop count self.old }
    {
        self.passed += count;
    }

    /// Passes all numbers.
    pub(crate) fn pass_all(&mut self)
        ensures { self.new ≡ [] }
    {
        self.passed = self.items.len();
    }
}

/// Whether a key comes before another one, by their bytes.
fn is_below(key: &[u8], other: &[u8]) -> bool
    ensures { result ≡ is_lt (slice_cmp nat_cmp key.now other.now) }
{
    key.cmp(&other).is_lt()
}

/// How many of the entries with these numbers have keys below a key.
pub(crate) fn place_of(table: &Table, numbers: &[u32], key: &[u8]) -> usize
    requires { IsOld table.now numbers.now }
    ensures within { result ≤ length numbers.now }
    ensures before { (k : ℕ) → k < result → is_before_key table.now numbers.now key.now k ≡ true }
    ensures behind { (k : ℕ) → result ≤ k → k < length numbers.now
        → is_before_key table.now numbers.now key.now k ≡ false }
{
    let mut low = 0;
    let mut high = numbers.len();
    while low < high {
        let middle = low + (high - low) / 2;
        if is_below(table.key(numbers[middle]), key) {
            low = middle + 1;
        } else {
            high = middle;
        }
    }
    low
}

/// The place behind the entry that has a key, where that is the one at a place, and else this place.
pub(crate) fn end_of(table: &Table, numbers: &[u32], place: usize, key: &[u8]) -> usize
    requires { are_within (length table.now) numbers.now ≡ true }
    ensures there { place < result → IsBehindKey table.now numbers.now key.now place result }
    ensures missing { result ≤ place → IsKeyMissing table.now numbers.now key.now place result }
{
    if place >= numbers.len() {
        return place;
    }
    if table.key(numbers[place]) != key {
        return place;
    }
    place + 1
}

/// Takes the entries below a key, and passes the one that has it.
pub(crate) fn take_below(
    table: &Table,
    numbers: &mut Numbers,
    base: &mut Tail,
    key: &[u8],
) -> Result<(), AllocError>
    requires { IsOld table.now base.old }
    ensures { OnOk result (IsPassed table.now numbers.old numbers.new base.old base.new key.now) }
{
    let rest = base.as_slice();
    let place = place_of(table, rest, key);
    let end = end_of(table, rest, place, key);
    numbers.append(&rest[..place])?;
    base.pass(end);
    Ok(())
}
