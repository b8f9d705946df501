//! The entries of all directories, each once, with its number. A directory is kept as the numbers of its
//! entries, so two directories are the same where their numbers are.
ghost use Rattle.std.specs.Prelude.{◌≡◌, ◌<◌, [], ◌∷◌, ◌++◌, length, take, slice_get, Some, IfOk};
ghost use Rattle.bf_forest.specs.Nodes.{entry_at};
ghost use Rattle.bf_forest.specs.Stored.{kind_of, IsJoined};

use crate::nodes::{Entry, EntryKind};
use bf_io::Bytes;
use bf_oid::{Mode, Oid};
use indexmap::IndexSet;
use std::alloc::{AllocError, Global};
use std::marker::Model;

/// What an entry stands for, in a form that can be hashed.
#[derive(Clone, Copy, Debug, PartialEq, Eq, Hash)]
pub(crate) enum Content {
    Plain(Oid),
    Exec(Oid),
    Link(Oid),
    Module(Oid),
    Directory(usize),
}

/// An entry with the number of its key.
#[derive(Clone, Copy, Debug, PartialEq, Eq, Hash)]
pub(crate) struct Stored {
    key: u32,
    content: Content,
}

/// Entries by their numbers. Each is kept once, and so is each key.
#[derive(Debug, Drop)]
pub(crate) struct Table {
    keys: IndexSet<Bytes>,
    stored: IndexSet<Stored>,
}

impl Model for Table {
    ghost use Rattle.std.specs.Prelude.{List, ◌≡◌, true, length};
    ghost use Rattle.bf_forest.specs.declared.nodes.Entry.{Entry};
    ghost use Rattle.bf_forest.specs.Stored.{entries_in, have_keys};

    ghost Value = { List Entry };

    ghost view = { λ t. entries_in t.keys.keys t.stored.keys };

    ghost invariant = { λ t. have_keys (length t.keys.keys) t.stored.keys ≡ true };
}

/// What an entry stands for, in a form that can be hashed.
fn content_of(kind: EntryKind) -> Content
    ensures { kind_of result ≡ kind }
{
    match kind {
        EntryKind::File(Mode::Plain, oid) => Content::Plain(oid),
        EntryKind::File(Mode::Exec, oid) => Content::Exec(oid),
        EntryKind::File(Mode::Link, oid) => Content::Link(oid),
        EntryKind::File(Mode::Module, oid) => Content::Module(oid),
        EntryKind::Directory(number) => Content::Directory(number),
    }
}

/// What an entry stands for.
fn kind_of(content: Content) -> EntryKind
    ensures { result ≡ kind_of content }
{
    match content {
        Content::Plain(oid) => EntryKind::File(Mode::Plain, oid),
        Content::Exec(oid) => EntryKind::File(Mode::Exec, oid),
        Content::Link(oid) => EntryKind::File(Mode::Link, oid),
        Content::Module(oid) => EntryKind::File(Mode::Module, oid),
        Content::Directory(number) => EntryKind::Directory(number),
    }
}

/// The number of a key, which is added where it is not there. The others keep theirs.
fn number_of_key(keys: &mut IndexSet<Bytes>, key: Bytes) -> Result<u32, AllocError>
    ensures kept { take (length keys.old.keys) keys.new.keys ≡ keys.old.keys }
    ensures at { IfOk result (λ number. slice_get keys.new.keys number ≡ Some key) }
{
    let (number, _) = keys.insert_full(key)?;
    u32::try_from(number).or(Err(AllocError))
}

/// The number of an entry, which is added where it is not there. The others keep theirs.
fn number_of_stored(entries: &mut IndexSet<Stored>, stored: Stored) -> Result<u32, AllocError>
    ensures kept { IsJoined entries.old.keys entries.new.keys stored }
    ensures at { IfOk result (λ number. slice_get entries.new.keys number ≡ Some stored) }
{
    let (number, _) = entries.insert_full(stored)?;
    u32::try_from(number).or(Err(AllocError))
}

impl Table {
    /// No entry. It takes no memory.
    pub(crate) fn new(alloc: Global) -> Table
        ensures { result ≡ [] }
    {
        Table {
            keys: IndexSet::new(alloc),
            stored: IndexSet::new(alloc),
        }
    }

    /// The key of an entry.
    pub(crate) fn key(&self, number: u32) -> &[u8]
        requires { number < length self.now }
        ensures { result.now ≡ (entry_at self.now number).key }
    {
        let key = self.stored.as_slice()[number as usize].key;
        self.keys.as_slice()[key as usize].as_slice()
    }

    /// What an entry stands for.
    pub(crate) fn kind(&self, number: u32) -> EntryKind
        requires { number < length self.now }
        ensures { result ≡ (entry_at self.now number).kind }
    {
        kind_of(self.stored.as_slice()[number as usize].content)
    }

    /// The number of an entry, which is added where it is not there. The others keep theirs.
    pub(crate) fn add(&mut self, entry: Entry) -> Result<u32, AllocError>
        ensures kept { take (length self.old) self.new ≡ self.old }
        ensures within { IfOk result (λ number. number < length self.new) }
        ensures entry { IfOk result (λ number. entry_at self.new number ≡ entry) }
    {
        let key = number_of_key(&mut self.keys, entry.key)?;
        let content = content_of(entry.kind);
        number_of_stored(&mut self.stored, Stored { key, content })
    }
}
