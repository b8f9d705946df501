//! The entries of a directory.
ghost use Rattle.std.specs.Prelude.{◌≡◌, ◌↔◌, [], ◌∷◌, ◌++◌, IsTrue, IfOk, OnOk};
ghost use Rattle.bf_forest.specs.Listing.{name_in};
ghost use Rattle.bf_forest.specs.Trees.{mode_text, entry_bytes};

use bf_io::Bytes;
use bf_oid::{Mode, Oid};
use std::alloc::{AllocError, Global};
use std::marker::Model;

/// What an entry stands for: a file, or the directory of the tree with a number.
#[derive(Clone, Copy, Debug)]
pub(crate) enum EntryKind {
    File(Mode, Oid),
    Directory(usize),
}

/// An entry of a directory. Its key is its name, with a slash behind it where it is a directory.
#[derive(Debug, Drop)]
pub(crate) struct Entry {
    pub(crate) key: Bytes,
    pub(crate) kind: EntryKind,
}

/// The numbers of the entries of a directory, in order of their keys.
#[derive(Debug, Drop)]
pub(crate) struct Numbers {
    items: Vec<u32>,
}

impl Model for Numbers {
    ghost use Rattle.std.specs.Prelude.{List, ℕ};

    ghost Value = { List ℕ };

    ghost view = { λ n. n.items.items };
}

impl Numbers {
    /// No number. It takes no memory.
    pub(crate) fn new(alloc: Global) -> Numbers
        ensures { result ≡ [] }
    {
        Numbers {
            items: Vec::new(alloc),
        }
    }

    /// No number, with room for so many.
    pub(crate) fn with_room(alloc: Global, count: usize) -> Result<Numbers, AllocError>
        ensures { IfOk result (λ numbers. numbers ≡ []) }
    {
        Ok(Numbers {
            items: Vec::with_capacity(alloc, count)?,
        })
    }

    pub(crate) fn as_slice(&self) -> &[u32]
        ensures { result.now ≡ self.now }
    {
        self.items.as_slice()
    }

    pub(crate) fn is_empty(&self) -> bool
        ensures { IsTrue result ↔ (self.now ≡ []) }
    {
        self.items.is_empty()
    }

    /// Adds a number at the end.
    pub(crate) fn push(&mut self, number: u32) -> Result<(), AllocError>
        ensures { OnOk result (self.new ≡ self.old ++ number ∷ []) }
    {
        self.items.push(number)?;
        Ok(())
    }

    /// Adds numbers at the end.
    pub(crate) fn append(&mut self, numbers: &[u32]) -> Result<(), AllocError>
        ensures { OnOk result (self.new ≡ self.old ++ numbers.now) }
    {
        self.items.extend_from_slice(numbers)
    }
}

/// No bytes, with room for what these entries usually take in the body of a tree: 40 bytes each.
pub(crate) fn empty_body(alloc: Global, numbers: &Numbers) -> Result<Bytes, AllocError>
    ensures { IfOk result (λ body. body ≡ []) }
{
    let room = numbers.as_slice().len().saturating_mul(40);
    Ok(Bytes::from_vec(alloc, Vec::with_capacity(alloc, room)?))
}

/// The name in a key.
pub(crate) fn name_in(key: &[u8]) -> &[u8]
    ensures { result.now ≡ name_in key.now }
{
    let Some((last, name)) = key.split_last() else {
        return key;
    };
    if *last == b'/' { name } else { key }
}

/// The mode of a file, as git writes it in a tree.
pub(crate) fn mode_text(mode: Mode) -> &'static [u8]
    ensures { result.now ≡ mode_text mode }
{
    match mode {
        Mode::Plain => b"100644",
        Mode::Exec => b"100755",
        Mode::Link => b"120000",
        Mode::Module => b"160000",
    }
}

/// Adds an entry to the body of a tree.
pub(crate) fn add_entry(
    body: &mut Bytes,
    mode: &[u8],
    name: &[u8],
    oid: Oid,
) -> Result<(), AllocError>
    ensures { OnOk result (body.new ≡ body.old ++ entry_bytes mode.now name.now oid.0) }
{
    body.append(mode)?;
    body.push(b' ')?;
    body.append(name)?;
    body.push(0)?;
    body.append(&oid.0)
}
