//! The trees of a pool, each once, with their names. A tree is kept as the numbers of its entries, which
//! name the trees of its directories by their numbers.
ghost use Rattle.std.specs.Prelude.{◌≡◌, ◌<◌, [], ◌++◌, length, take, IsTrue, IfOk, OnOk, OnErr};
ghost use Rattle.bf_forest.specs.Files.{is_tree};
ghost use Rattle.bf_forest.specs.Nodes.{is_good, entry_at, StaysIn, IsPosition, IsSettled, Enters, Holds, has_files};
ghost use Rattle.bf_forest.specs.Nodes.{HaveEntries, IsDirectory, directory_files, numbered_body};
ghost use Rattle.bf_forest.specs.Nodes.{HaveJoined, HasDirectories, trees_with};
ghost use Rattle.bf_forest.specs.Opened.{IsBase, HasBaseFiles, Opens, IsFrame, IsTurn, Turns, Advances, Makes, Closes};
ghost use Rattle.bf_forest.specs.Opened.{EntersDirectory, Resumes, HasSome, IsSpent, IsLighter, LeavesAtMost};
ghost use Rattle.bf_forest.specs.Opened.{heft_left, heft_with};
ghost use Rattle.bf_forest.specs.Rests.{slots_in};
ghost use Rattle.bf_forest.specs.Slots.{is_base, base_files, base_directories, edited_base};
ghost use Rattle.bf_forest.specs.Trees.{tree_name, entries_of, files_at, edited_tree, trees_after};

use crate::cuts::{LocalEdit, Pending};
use crate::edits::Edit;
use crate::entries::{FileEntry, add_file, are_same};
use crate::levels::Level;
use crate::nodes::{Entry, EntryKind, Numbers, add_entry, empty_body, mode_text, name_in};
use crate::opened::OpenDirectory;
use crate::slots::{EntrySlot, Rest, edit_all};
use crate::table::Table;
use crate::tail::{Tail, take_below};
use bf_io::Bytes;
use bf_oid::{Kind, Oid, object_name};
use std::alloc::{AllocError, Global};
use std::collections::BTreeMap;
use std::marker::Model;
use std::mem;

/// A tree: the numbers of its entries, and its name.
#[derive(Debug, Drop)]
pub(crate) struct KeptTree {
    numbers: Numbers,
    name: Oid,
}

/// Trees by their numbers. The index has a number for each tree's name: that of a tree with
/// this name, or of one that was taken back.
#[derive(Debug, Drop)]
pub(crate) struct Trees {
    alloc: Global,
    table: Table,
    nodes: Vec<KeptTree>,
    index: BTreeMap<[u8; 20], usize>,
    entries: u64,
}

impl Model for Trees {
    ghost use Rattle.bf_forest.specs.Nodes.{World};

    ghost Value = { World };

    ghost use Rattle.std.specs.Prelude.{◌≡◌, [], true, length};
    ghost use Rattle.bf_forest.specs.Trees.{entries_of};
    ghost use Rattle.bf_forest.specs.Index.{IsIndexed};
    ghost use Rattle.bf_forest.specs.Nodes.{AreNodes, nodes_of, kept_trees, world_of, are_kept_within};

    ghost view = { λ t. world_of t.table t.nodes.items };

    ghost invariant = { λ t. (t.entries ≡ entries_of (kept_trees t.table t.nodes.items))
        × IsIndexed t.index (kept_trees t.table t.nodes.items)
        × AreNodes [] (nodes_of t.table t.nodes.items)
        × (are_kept_within (length t.table) t.nodes.items ≡ true) };
}

impl Trees {
    /// No tree. It takes no memory.
    #[tactic(auto, unfolding(crate::specs::Trees::entries_of))]
    pub(crate) fn new(alloc: Global) -> Trees
        ensures { result.trees ≡ [] }
    {
        Trees {
            alloc,
            table: Table::new(alloc),
            nodes: Vec::new(alloc),
            index: BTreeMap::new(alloc),
            entries: 0,
        }
    }

    /// The number of trees.
    pub(crate) fn len(&self) -> usize
        ensures { result ≡ length self.now.trees }
    {
        self.nodes.len()
    }

    /// The entries of all trees together.
    pub(crate) fn entries(&self) -> u64
        ensures { result ≡ entries_of self.now.trees }
    {
        self.entries
    }

    /// The name of a tree.
    pub(crate) fn name(&self, number: usize) -> Oid
        requires { number < length self.now.trees }
        ensures { result.0 ≡ tree_name (files_at self.now.trees number) }
    {
        self.nodes[number].name
    }

    /// The numbers of the entries of a tree.
    fn node(&self, number: usize) -> &Numbers
        requires { number < length self.now.trees }
        ensures files { directory_files self.now result.now ≡ files_at self.now.trees number }
        ensures node { IsDirectory self.now result.now }
        ensures within { HaveEntries self.now result.now }
    {
        &self.nodes[number].numbers
    }

    /// The files of a directory with these entries.
    pub(crate) fn files(&self, numbers: &Numbers) -> Result<Vec<FileEntry>, AllocError>
        requires node { IsDirectory self.now numbers.now }
        requires within { HaveEntries self.now numbers.now }
        ensures { IfOk result (λ files. files.items ≡ directory_files self.now numbers.now) }
    {
        let mut files = Vec::new(self.alloc);
        let mut names = Vec::new(self.alloc);
        let mut below = Vec::new(self.alloc);
        let mut rest = numbers.as_slice();
        loop {
            let Some((entry, others)) = rest.split_first() else {
                let Some(level) = below.pop() else {
                    return Ok(files);
                };
                let _ = names.pop();
                rest = Level::numbers(&level);
                continue;
            };
            let name = name_in(self.table.key(*entry));
            rest = others;
            match self.table.kind(*entry) {
                EntryKind::File(mode, oid) => {
                    add_file(self.alloc, &mut files, names.as_slice(), name, mode, oid)?
                }
                EntryKind::Directory(number) => {
                    names.push(Bytes::from_slice(self.alloc, name)?)?;
                    below.push(Level::new(others))?;
                    rest = self.node(number).as_slice();
                }
            }
        }
    }

    /// The files of a tree.
    pub(crate) fn files_of(&self, number: usize) -> Result<Vec<FileEntry>, AllocError>
        requires { number < length self.now.trees }
        ensures value { IfOk result (λ files. files.items ≡ files_at self.now.trees number) }
        ensures tree { IsTrue (is_tree (files_at self.now.trees number)) }
    {
        self.files(self.node(number))
    }

    /// Adds an entry to the body of a tree.
    fn add_body(&self, body: &mut Bytes, number: u32) -> Result<(), AllocError>
        requires within { number < length self.now.table }
        requires good { IsTrue (is_good (length self.now.trees) (entry_at self.now.table number)) }
        ensures { OnOk result (body.new ≡ body.old ++ numbered_body self.now number) }
    {
        let name = name_in(self.table.key(number));
        match self.table.kind(number) {
            EntryKind::File(mode, oid) => add_entry(body, mode_text(mode), name, oid),
            EntryKind::Directory(number) => add_entry(body, b"40000", name, self.name(number)),
        }
    }

    /// The name of the tree with these entries.
    fn name_of(&self, numbers: &Numbers) -> Result<Oid, AllocError>
        requires node { IsDirectory self.now numbers.now }
        requires within { HaveEntries self.now numbers.now }
        ensures { IfOk result (λ name. name.0 ≡ tree_name (directory_files self.now numbers.now)) }
    {
        let mut body = empty_body(self.alloc, numbers)?;
        for number in numbers.as_slice() {
            self.add_body(&mut body, *number)?;
        }
        Ok(object_name(Kind::Tree, body.as_slice()))
    }

    /// Whether the tree with a number has these entries.
    fn is_at(&self, number: usize, numbers: &Numbers) -> bool
        ensures number { IsTrue result → number < length self.now.trees }
        ensures same { IsTrue result
            → Holds self.now.trees (directory_files self.now numbers.now) number }
    {
        number < self.len() && self.node(number).as_slice() == numbers.as_slice()
    }

    /// Whether the tree with a number has these files, which have this name.
    fn has_files(&self, number: usize, files: &[FileEntry], name: Oid) -> Result<bool, AllocError>
        requires number { number < length self.now.trees }
        requires named { name.0 ≡ tree_name files.now }
        ensures { IfOk result (λ answer. answer ≡ has_files self.now number files.now) }
    {
        if self.name(number).0.as_slice() != name.0.as_slice() {
            return Ok(false);
        }
        let others = self.files_of(number)?;
        Ok(are_same(others.as_slice(), files))
    }

    /// The number of the tree with these files, which have this name, if there is one, of all trees in order.
    fn search(&self, files: &[FileEntry], name: Oid) -> Result<Option<usize>, AllocError>
        requires { name.0 ≡ tree_name files.now }
        ensures { IfOk result (IsPosition self.now.trees files.now) }
    {
        for number in 0..self.len() {
            if self.has_files(number, files, name)? {
                return Ok(Some(number));
            }
        }
        Ok(None)
    }

    /// The number of the tree with these entries, which have this name, if there is one.
    fn position(&self, numbers: &Numbers, name: Oid) -> Result<Option<usize>, AllocError>
        requires named { name.0 ≡ tree_name (directory_files self.now numbers.now) }
        requires node { IsDirectory self.now numbers.now }
        requires within { HaveEntries self.now numbers.now }
        ensures { IfOk result (IsPosition self.now.trees (directory_files self.now numbers.now)) }
    {
        let Some(number) = self.index.get(&name.0) else {
            return Ok(None);
        };
        if self.is_at(*number, numbers) {
            return Ok(Some(*number));
        }
        let files = self.files(numbers)?;
        self.search(files.as_slice(), name)
    }

    /// Adds the tree with these entries where it is not there, and returns its number. After an error
    /// all is as before.
    pub(crate) fn add(&mut self, numbers: Numbers) -> Result<usize, AllocError>
        requires node { IsDirectory self.old numbers }
        requires within { HaveEntries self.old numbers }
        ensures ok { OnOk result (self.new.trees ≡ trees_with self.old numbers) }
        ensures number { IfOk result (λ number. number < length self.new.trees) }
        ensures files { IfOk result (Holds self.new.trees (directory_files self.old numbers)) }
        ensures kept { take (length self.old.trees) self.new.trees ≡ self.old.trees }
        ensures table { self.new.table ≡ self.old.table }
        ensures err { OnErr result (self.new ≡ self.old) }
    {
        let name = self.name_of(&numbers)?;
        if let Some(number) = self.position(&numbers, name)? {
            return Ok(number);
        }
        let number = self.nodes.len();
        let count = numbers.as_slice().len();
        let total = self.entries.checked_add(count as u64).ok_or(AllocError)?;
        self.index.insert(name.0, number)?;
        self.nodes.push(KeptTree { numbers, name })?;
        self.entries = total;
        Ok(number)
    }

    /// Adds an entry to those of a directory.
    fn enter(
        &mut self,
        numbers: &mut Numbers,
        key: Bytes,
        kind: EntryKind,
    ) -> Result<(), AllocError>
        requires { HaveEntries self.old numbers.old }
        ensures entry { OnOk result (Enters self.old numbers.old key kind self.new numbers.new) }
        ensures within { OnOk result (HaveEntries self.new numbers.new) }
        ensures kept { StaysIn self.old self.new }
        ensures trees { self.new.trees ≡ self.old.trees }
    {
        let number = self.table.add(Entry { key, kind })?;
        numbers.push(number)
    }

    /// Adds the entry of a directory to those of another one, if it has files.
    fn enter_directory(
        &mut self,
        numbers: &mut Numbers,
        key: Bytes,
        number: Option<usize>,
    ) -> Result<(), AllocError>
        requires { HaveEntries self.old numbers.old }
        ensures entry { OnOk result
            (EntersDirectory self.old numbers.old key number self.new numbers.new) }
        ensures within { OnOk result (HaveEntries self.new numbers.new) }
        ensures kept { StaysIn self.old self.new }
        ensures trees { self.new.trees ≡ self.old.trees }
    {
        match number {
            Some(number) => self.enter(numbers, key, EntryKind::Directory(number)),
            None => Ok(()),
        }
    }

    /// The numbers of the entries of a tree, or of an empty directory.
    fn tail(&self, base: Option<usize>) -> Result<Tail, AllocError>
        requires { IsTrue (is_base (length self.now.trees) base) }
        ensures base { IfOk result (IsBase self.now.trees self.now.table) }
        ensures files { IfOk result (HasBaseFiles self.now base) }
        ensures node { IfOk result (IsDirectory self.now) }
    {
        match base {
            None => Ok(Tail::new(self.alloc)),
            Some(number) => Tail::of(self.alloc, self.node(number).as_slice()),
        }
    }

    /// Opens a directory, to make it as it is after edits.
    fn open<'a>(
        &self,
        base: Option<usize>,
        edits: &[LocalEdit<'a>],
    ) -> Result<OpenDirectory<'a>, AllocError>
        requires base { IsTrue (is_base (length self.now.trees) base) }
        requires some { 0 < length edits.now }
        ensures opened { IfOk result (Opens self.now (edited_base self.now.trees base edits.now)) }
        ensures base { IfOk result (λ top. IsBase self.now.trees self.now.table top.rest.base) }
        ensures empty { IfOk result (λ top. top.numbers ≡ []) }
        ensures heft { IfOk result (IsLighter self.now edits.now) }
    {
        let tail = self.tail(base)?;
        let mut rest = Rest {
            base: tail,
            changes: BTreeMap::new(self.alloc),
        };
        edit_all(&self.table, &mut rest, edits)?;
        let room = rest
            .base
            .as_slice()
            .len()
            .saturating_add(rest.changes.len());
        Ok(OpenDirectory {
            numbers: Numbers::with_room(self.alloc, room)?,
            inside: Bytes::new(self.alloc),
            rest,
        })
    }

    /// A number, where its tree has files.
    fn filled(&self, base: Option<usize>) -> Option<usize>
        requires { IsTrue (is_base (length self.now.trees) base) }
        ensures number { IsSettled self.now.trees (base_files self.now.trees base) result }
        ensures joined { HaveJoined self.now.trees (base_directories self.now.trees base) }
    {
        let Some(number) = base else {
            return None;
        };
        if self.nodes[number].numbers.is_empty() {
            return None;
        }
        Some(number)
    }

    /// Takes the old entries below a key and what is to stand there, or returns what the directory there is made of.
    fn take<'a>(
        &mut self,
        top: &mut OpenDirectory<'a>,
        key: Bytes,
        change: Option<EntrySlot<'a>>,
    ) -> Result<Option<(Option<usize>, Pending<'a>)>, AllocError>
        requires { IsTurn self.old top.old key change }
        ensures turns { IfOk result (Turns self.old self.new top.old key change.entry top.new) }
        ensures frame { OnOk result (IsFrame self.new top.new) }
        ensures kept { StaysIn self.old self.new }
        ensures trees { self.new.trees ≡ self.old.trees }
        ensures heft { IfOk result
            (LeavesAtMost (heft_with self.old top.old key change.entry) self.new top.new) }
        ensures some { IfOk result HasSome }
        ensures changes { top.new.rest.changes ≡ top.old.rest.changes }
    {
        take_below(
            &self.table,
            &mut top.numbers,
            &mut top.rest.base,
            key.as_slice(),
        )?;
        match change {
            None => Ok(None),
            Some(EntrySlot::File(mode, oid)) => {
                self.enter(&mut top.numbers, key, EntryKind::File(mode, oid))?;
                Ok(None)
            }
            Some(EntrySlot::Directory(base, pending)) => {
                if pending.as_slice().is_empty() {
                    self.enter_directory(&mut top.numbers, key, self.filled(base))?;
                    return Ok(None);
                }
                top.inside = key;
                Ok(Some((base, pending)))
            }
        }
    }

    /// Takes entries up to the next directory that is to be made first, and returns what it is made of.
    fn advance<'a>(
        &mut self,
        top: &mut OpenDirectory<'a>,
    ) -> Result<Option<(Option<usize>, Pending<'a>)>, AllocError>
        requires { IsFrame self.old top.old }
        ensures advanced { IfOk result (Advances self.old self.new top.old top.new) }
        ensures frame { OnOk result (IsFrame self.new top.new) }
        ensures kept { StaysIn self.old self.new }
        ensures trees { self.new.trees ≡ self.old.trees }
        ensures heft { IfOk result (LeavesAtMost (heft_left self.old top.old) self.new top.new) }
        ensures some { IfOk result HasSome }
        ensures spent { IfOk result (IsSpent (slots_in self.new.table top.new.rest)) }
    {
        while let Some((key, change)) = top.rest.changes.pop_first() {
            if let Some(inner) = self.take(top, key, change)? {
                return Ok(Some(inner));
            }
        }
        self.take_all(top)?;
        Ok(None)
    }

    /// Takes the old entries, where no changes are left.
    fn take_all(&self, top: &mut OpenDirectory<'_>) -> Result<(), AllocError>
        requires frame { IsFrame self.now top.old }
        requires none { top.old.rest.changes.entries ≡ [] }
        ensures advanced { OnOk result (Advances self.now self.now top.old top.new None) }
        ensures frame { OnOk result (IsFrame self.now top.new) }
        ensures spent { OnOk result (slots_in self.now.table top.new.rest ≡ []) }
    {
        // A use of a field: what holds of all trees is then known here.
        let _ = &self.nodes;
        top.numbers.append(top.rest.base.as_slice())?;
        top.rest.base.pass_all();
        Ok(())
    }

    /// Adds the tree of a directory with these entries, if there are any, and returns its number.
    fn close(&mut self, numbers: Numbers) -> Result<Option<usize>, AllocError>
        requires node { IsDirectory self.old numbers }
        requires within { HaveEntries self.old numbers }
        ensures closed { IfOk result (Closes self.old self.new numbers) }
        ensures kept { take (length self.old.trees) self.new.trees ≡ self.old.trees }
        ensures table { self.new.table ≡ self.old.table }
    {
        if numbers.is_empty() {
            return Ok(None);
        }
        Ok(Some(self.add(numbers)?))
    }

    /// The numbers of the entries of a tree after edits. The trees of its directories join.
    fn settle(&mut self, tree: usize, edits: &[LocalEdit<'_>]) -> Result<Numbers, AllocError>
        requires tree { tree < length self.old.trees }
        requires some { 0 < length edits.now }
        ensures made { IfOk result
            (Makes self.old self.new (edited_tree self.old.trees tree edits.now)) }
        ensures within { IfOk result (HaveEntries self.new) }
        ensures kept { take (length self.old.trees) self.new.trees ≡ self.old.trees }
    {
        let mut below = Vec::new(self.alloc);
        let mut top = self.open(Some(tree), edits)?;
        loop {
            match self.advance(&mut top)? {
                Some((base, pending)) => {
                    let inner = self.open(base, pending.as_slice())?;
                    below.push(top)?;
                    top = inner;
                }
                None => {
                    let Some(mut outer) = below.pop() else {
                        return Ok(top.numbers);
                    };
                    let number = self.close(top.numbers)?;
                    self.wait_over(&mut outer, number)?;
                    top = outer;
                }
            }
        }
    }

    /// Adds the directory that another one waited for, if it has files.
    fn wait_over(
        &mut self,
        outer: &mut OpenDirectory<'_>,
        number: Option<usize>,
    ) -> Result<(), AllocError>
        requires { HaveEntries self.old outer.old.numbers }
        ensures entry { OnOk result (Resumes self.old outer.old number self.new outer.new) }
        ensures within { OnOk result (HaveEntries self.new outer.new.numbers) }
        ensures kept { StaysIn self.old self.new }
        ensures trees { self.new.trees ≡ self.old.trees }
        ensures rest { OnOk result (outer.new.rest ≡ outer.old.rest) }
    {
        let key = mem::replace(&mut outer.inside, Bytes::new(self.alloc));
        self.enter_directory(&mut outer.numbers, key, number)
    }

    /// The number of the tree after edits. It joins, with the trees of its directories. After an error
    /// some of these trees may have been added.
    pub(crate) fn join(&mut self, tree: usize, edits: &[Edit]) -> Result<usize, AllocError>
        requires { tree < length self.old.trees }
        ensures ok { OnOk result (self.new.trees ≡ trees_after self.old.trees tree edits.now) }
        ensures number { IfOk result (λ number. number < length self.new.trees) }
        ensures files { IfOk result
            (Holds self.new.trees (edited_tree self.old.trees tree edits.now)) }
        ensures kept { take (length self.old.trees) self.new.trees ≡ self.old.trees }
    {
        if edits.is_empty() {
            return Ok(self.unchanged(tree));
        }
        let pending = Pending::of(self.alloc, edits)?;
        let numbers = self.settle(tree, pending.as_slice())?;
        self.add(numbers)
    }

    /// The number of a tree. All its directories are there.
    fn unchanged(&self, tree: usize) -> usize
        requires { tree < length self.now.trees }
        ensures joined { HasDirectories self.now.trees (files_at self.now.trees tree) }
        ensures number { result ≡ tree }
    {
        // A use of a field: what holds of all trees is then known here.
        let _ = &self.nodes;
        tree
    }

    /// Leaves the first trees, whose entries are given.
    pub(crate) fn truncate(&mut self, count: usize, entries: u64)
        requires { entries ≡ entries_of (take count self.old.trees) }
        ensures { self.new.trees ≡ take count self.old.trees }
    {
        self.nodes.truncate(count);
        self.entries = entries;
    }
}
