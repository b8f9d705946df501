ghost use Rattle.std.specs.Prelude.{◌≡◌, ◌+◌, ◌^◌, ◌<◌, false, not, ◌&&◌, ◌||◌, length, slice_set, replicate, count_by, IfOk, IfSome, MatchOption};
ghost use Rattle.std.specs.List.{position};
ghost use Rattle.std.specs.Simd.Lanes.{zip2};
ghost use Rattle.bf_search.specs.Candidates.{is_in};
ghost use Rattle.bf_reach.specs.Row.{NoneTrueFrom, IsNextTrue};

use crate::words::{self, And, AndNot, BitOp, Or, Right};
use std::alloc::{AllocError, Global};
use std::marker::Model;

/// One truth value for each place below a fixed length, packed 64 to a word.
///
/// Contracts see a row as the list of its truth values. Only [`Row::new`] and [`Row::try_clone`]
/// take memory, and only they can fail.
#[derive(Debug, Drop)]
pub struct Row {
    words: Vec<u64>,
    len: u32,
}

impl Model for Row {
    ghost use Rattle.std.specs.Prelude.{List, Bool};
    ghost use Rattle.bf_reach.specs.Bits.{bits, Holds};

    ghost Value = { List Bool };

    ghost view = { λ r. bits r.len r.words.items };

    ghost invariant = { λ r. Holds r.len r.words.items };
}

impl Row {
    /// A row of `len` places, each false.
    pub fn new(alloc: Global, len: u32) -> Result<Row, AllocError>
        ensures { IfOk result (λ row. row ≡ replicate len false) }
    {
        let words = vec![in alloc; 0u64; words::words_for(len)]?;
        Ok(Row { words, len })
    }

    /// How many places the row has.
    #[inline]
    pub fn len(&self) -> u32
        ensures { result ≡ length self.now }
    {
        self.len
    }

    /// The truth value of place `p`.
    #[inline]
    pub fn get(&self, p: u32) -> bool
        requires { p < length self.now }
        ensures { result ≡ is_in self.now p }
    {
        words::get(self.words.as_slice(), p as usize)
    }

    /// Gives place `p` a truth value.
    #[inline]
    pub fn set(&mut self, p: u32, value: bool)
        requires { p < length self.old }
        ensures { self.new ≡ slice_set self.old p value }
    {
        words::set(self.words.as_mut_slice(), p as usize, value);
    }

    /// Makes each place false.
    pub fn clear(&mut self)
        ensures { self.new ≡ replicate (length self.old) false }
    {
        self.words.as_mut_slice().fill(0);
    }

    /// How many places are true.
    pub fn count(&self) -> u32
        ensures { result ≡ count_by (λ value. value) self.now }
    {
        words::count(self.words.as_slice()) as u32
    }

    /// The least place that is true, and none exactly where each place is false.
    pub fn first(&self) -> Option<u32>
        ensures { result ≡ position (λ value. value) self.now }
    {
        self.next_from(0)
    }

    /// The least place from `p` on that is true, and none where there is no such place. `p` may lie
    /// past the last place.
    ///
    /// To visit the true places in order, go on from the place after each one. Words that are zero
    /// are passed over whole.
    pub fn next_from(&self, p: u32) -> Option<u32>
        ensures next { MatchOption result (NoneTrueFrom self.now p) (IsNextTrue self.now p) }
        ensures can_go_on { IfSome result (λ place. place + 1 < 2 ^ 32) }
    {
        if p < self.len {
            words::next_bit(self.words.as_slice(), p)
        } else {
            None
        }
    }

    /// Makes each place true that is true in `other`.
    pub fn or_from(&mut self, other: &Row)
        requires { length self.old ≡ length other.now }
        ensures { self.new ≡ zip2 ◌||◌ self.old other.now }
    {
        self.join::<Or>(other);
    }

    /// Makes each place false that is false in `other`.
    pub fn and_from(&mut self, other: &Row)
        requires { length self.old ≡ length other.now }
        ensures { self.new ≡ zip2 ◌&&◌ self.old other.now }
    {
        self.join::<And>(other);
    }

    /// Makes each place false that is true in `other`.
    pub fn and_not(&mut self, other: &Row)
        requires { length self.old ≡ length other.now }
        ensures { self.new ≡ zip2 (λ mine theirs. mine && not theirs) self.old other.now }
    {
        self.join::<AndNot>(other);
    }

    /// Gives each place its truth value in `other`.
    pub fn copy_from(&mut self, other: &Row)
        requires { length self.old ≡ length other.now }
        ensures { self.new ≡ other.now }
    {
        self.join::<Right>(other);
    }

    /// An equal row.
    pub fn try_clone(&self) -> Result<Row, AllocError>
        ensures { IfOk result (λ row. row ≡ self.now) }
    {
        let words = Vec::from_slice(*self.words.allocator(), self.words.as_slice())?;
        Ok(Row {
            words,
            len: self.len,
        })
    }

    // Each place gets what the operation makes of its two truth values.
    fn join<O: BitOp>(&mut self, other: &Row)
        requires { length self.old ≡ length other.now }
        ensures { self.new ≡ zip2 O.choose self.old other.now }
    {
        words::combine::<O>(self.words.as_mut_slice(), other.words.as_slice());
    }
}
