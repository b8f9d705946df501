//! An owned run of bytes, which contracts see as a list of numbers.
//!
//! A small list type of the product is written in this form. It is a struct over its `Vec` and the
//! allocator, with an `impl Model` whose `Value` is the list of the items and whose `view` reads that
//! list from the `Vec`. So in a clause and in a definition a value of the type is just the list, also
//! inside an enum, a struct or a slice. Comparisons and `Hash` can't be derived, because the view
//! forgets the capacity: they are written by hand over the slice, with their ghost members over the
//! list; `Prim.search` finds most of the laws, and std has the laws of the order of texts.
ghost use Rattle.std.specs.Prelude.{◌≡◌, ◌==◌, ◌↔◌, [], ◌∷◌, ◌++◌, length, refl, Some, IsTrue, IfOk, OnOk, OnErr};
ghost use Rattle.std.specs.Ordering.{nat_cmp};
ghost use Rattle.std.specs.Cmp.Lexicographic.{pointwise, slice_cmp, nat_list_cmp_total, bytes_decides, texts_ties, texts_po};
ghost use Rattle.std.specs.Cmp.Rules.{comparing};
ghost use Rattle.std.specs.Hash as fed;
ghost use Rattle.std.proofs.Common.{ap, rules};

use std::alloc::{AllocError, Global};
use std::cmp::Ordering;
use std::fmt;
use std::hash::{Hash, Hasher};
use std::marker::Model;

/// Bytes of any length, with the allocator that they grow by.
#[derive(Drop)]
pub struct Bytes {
    alloc: Global,
    items: Vec<u8>,
}

impl Model for Bytes {
    ghost use Rattle.std.specs.Prelude.{List, ℕ};

    ghost Value = { List ℕ };

    ghost view = { λ b. b.items.items };
}

/// The text of one argument of the command line.
pub type Word = Bytes;

impl Bytes {
    /// No bytes. It takes no memory.
    pub fn new(alloc: Global) -> Bytes
        ensures { result ≡ [] }
    {
        Bytes {
            alloc,
            items: Vec::new(alloc),
        }
    }

    /// The bytes of a vector, which is taken as it is.
    pub fn from_vec(alloc: Global, items: Vec<u8>) -> Bytes
        ensures { result ≡ items.items }
    {
        Bytes { alloc, items }
    }

    /// A copy of a slice.
    pub fn from_slice(alloc: Global, bytes: &[u8]) -> Result<Bytes, AllocError>
        ensures { IfOk result (λ copy. copy ≡ bytes.now) }
    {
        let items = Vec::from_slice(alloc, bytes)?;
        Ok(Bytes { alloc, items })
    }

    /// The vector of the bytes, which is handed over as it is.
    pub fn into_vec(self) -> Vec<u8>
        ensures { result.items ≡ self }
    {
        self.items
    }

    /// The bytes as a slice.
    pub fn as_slice(&self) -> &[u8]
        ensures { result.now ≡ self.now }
    {
        self.items.as_slice()
    }

    /// The number of bytes.
    pub fn len(&self) -> usize
        ensures { result ≡ length self.now }
    {
        self.items.len()
    }

    /// Whether there is no byte.
    pub fn is_empty(&self) -> bool
        ensures { IsTrue result ↔ (self.now ≡ []) }
    {
        self.items.is_empty()
    }

    /// The allocator that the bytes grow by.
    pub fn allocator(&self) -> Global {
        self.alloc
    }

    /// Adds bytes at the end. After an error the bytes are as before.
    pub fn append(&mut self, bytes: &[u8]) -> Result<(), AllocError>
        ensures ok { OnOk result (self.new ≡ self.old ++ bytes.now) }
        ensures err { OnErr result (self.new ≡ self.old) }
    {
        self.items.extend_from_slice(bytes)
    }

    /// Adds one byte at the end. After an error the bytes are as before.
    pub fn push(&mut self, byte: u8) -> Result<(), AllocError>
        ensures ok { OnOk result (self.new ≡ self.old ++ byte ∷ []) }
        ensures err { OnErr result (self.new ≡ self.old) }
    {
        self.items.push(byte)?;
        Ok(())
    }

    /// Removes all bytes, and keeps the memory for the next.
    pub fn clear(&mut self)
        ensures { self.new ≡ [] }
    {
        self.items.clear();
    }

    /// A copy, which grows by the same allocator.
    pub fn try_clone(&self) -> Result<Bytes, AllocError>
        ensures { IfOk result (λ copy. copy ≡ self.now) }
    {
        Bytes::from_slice(self.alloc, self.items.as_slice())
    }
}

impl PartialEq for Bytes {
    ghost eq = { pointwise ◌==◌ };

    ghost laws = { Prim.search (comparing, rules) };

    fn eq(&self, other: &Bytes) -> bool {
        self.items.as_slice() == other.items.as_slice()
    }
}

impl Eq for Bytes {
    ghost laws = { Prim.search (comparing, rules) };
}

/// Bytes are ordered by the first that differs, and a front comes before what it is a front of.
impl Ord for Bytes {
    ghost cmp = { slice_cmp nat_cmp };

    ghost total = { nat_list_cmp_total };

    ghost matches_partial_cmp = { λ a b. refl };

    ghost matches_eq = { texts_ties };

    fn cmp(&self, other: &Bytes) -> Ordering {
        self.items.as_slice().cmp(&other.items.as_slice())
    }
}

impl PartialOrd for Bytes {
    ghost partial_cmp = { λ a b. Some (slice_cmp nat_cmp a b) };

    ghost laws = { texts_po };

    fn partial_cmp(&self, other: &Bytes) -> Option<Ordering> {
        Some(self.cmp(other))
    }
}

/// Bytes are hashed by their length and all at once, since the `Hash` of a slice takes byte by byte.
impl Hash for Bytes {
    ghost hash_input = { λ bytes. fed.usize (length bytes) ++ bytes ∷ [] };

    ghost respects_eq = { λ a b same.
        ap (λ bytes. fed.usize (length bytes) ++ bytes ∷ []) ((bytes_decides a b).0 same) };

    fn hash<H: Hasher>(&self, state: &mut H) {
        let bytes = self.items.as_slice();
        state.write_usize(bytes.len());
        state.write(bytes);
    }
}

impl fmt::Debug for Bytes {
    fn fmt<W: fmt::Write>(&self, f: &mut fmt::Formatter<W>) -> fmt::Result {
        f.debug_list().entries(self.items.as_slice()).finish()
    }
}
