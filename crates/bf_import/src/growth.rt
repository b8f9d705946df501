//! A history that grows by its commits and refs: its six parts, and the limits, which no history shows. A
//! `History` is a `Growth` that grows no more. Where memory ran out between two parts, the name that was added
//! is taken back (`Names::truncate`), so that after an error all is as before.
ghost use Rattle.std.specs.Prelude.{◌≡◌, ◌≤◌, ◌<◌, [], ◌∷◌, ◌++◌, if◌then◌else◌, length, is_none, All, IfOk, IfSome, IsTrue, OnOk, OnErr, IsErrOf};
ghost use Rattle.std.specs.List.{slice_index_or};
ghost use Rattle.bf_forest.specs.declared.trees.ForestFault.TheVariants as faults;
ghost use Rattle.bf_forest.specs.Files.{edited, is_tree};
ghost use Rattle.bf_forest.specs.Trees.{tree_name, entries_of, files_at};
ghost use Rattle.bf_grammar.specs.Limits.{IsWithin};
ghost use Rattle.bf_history.specs.Meanings.{nothing_loaded, files_from, place_named, ref_in, with_ref, without_ref};
ghost use Rattle.bf_import.specs.Growing.{HasPlace, begun_with, edited_files, nothing_grown, with_edits, with_named};
ghost use Rattle.bf_tables.specs.Named.{with_name};

use bf_forest::{Edit, FileEntry, Forest, ForestFault};
use bf_grammar::Limits;
use bf_graph::Graph;
use bf_io::Bytes;
use bf_oid::Oid;
use bf_tables::{Names, Refs};
use std::alloc::{AllocError, Global};
use std::marker::Model;

/// The number of the tree without files.
const EMPTY_TREE: u32 = 0;

/// The commits so far, by place, the refs, the trees of the commits, and the limits.
#[derive(Drop)]
pub(crate) struct Growth {
    pub(crate) graph: Graph,
    pub(crate) names: Names,
    pub(crate) subjects: Vec<Bytes>,
    pub(crate) refs: Refs,
    /// For each place, the number of its tree in the forest.
    pub(crate) trees: Vec<u32>,
    pub(crate) forest: Forest,
    pub(crate) limits: Limits,
}

impl Model for Growth {
    ghost use Rattle.bf_import.specs.Growing.{Growing};

    ghost Value = { Growing };

    ghost use Rattle.bf_import.specs.Kept.{IsKept, growing_of};

    ghost view = { growing_of };

    ghost invariant = { IsKept };
}

impl Growth {
    /// No commit and no ref.
    pub(crate) fn new(alloc: Global, limits: Limits) -> Result<Growth, AllocError>
        requires { IsWithin limits }
        ensures { IfOk result (λ growth. growth ≡ nothing_grown limits) }
    {
        Ok(Growth {
            graph: Graph::new(alloc),
            names: Names::new(alloc),
            subjects: Vec::new(alloc),
            refs: Refs::new(alloc),
            trees: Vec::new(alloc),
            forest: Forest::new(alloc, limits.entries)?,
            limits,
        })
    }

    /// The number of commits.
    pub(crate) fn len(&self) -> u32
        ensures len { result ≡ length self.now.history.parents }
        ensures few { result ≤ self.now.limits.commits }
        ensures names { length self.now.history.names ≡ length self.now.history.parents }
        ensures files { length self.now.history.files ≡ length self.now.history.parents }
    {
        self.graph.len()
    }

    /// The place that a ref is set to.
    pub(crate) fn place_of_ref(&self, name: &Bytes) -> Option<u32>
        ensures value { result ≡ ref_in self.now.history.refs name.now }
        ensures within { IfSome result (HasPlace self.now.history) }
    {
        self.refs.get(name)
    }

    /// The place of the commit with a name.
    pub(crate) fn place_named(&self, name: Oid) -> Option<u32>
        ensures value { result ≡ place_named self.now.history.names name }
        ensures within { IfSome result (HasPlace self.now.history) }
    {
        self.names.place_of(name)
    }

    /// The number of the tree of a place, with these edits; without a place they begin with no files. The
    /// tree and those of its directories join the pool. `TooMany` comes exactly where the trees would
    /// then have more entries together than the limit.
    pub(crate) fn apply(&mut self, place: Option<u32>, edits: &[Edit]) -> Result<u32, ForestFault>
        requires { IfSome place (HasPlace self.old.history) }
        ensures number { IfOk result (λ tree. tree < length self.new.history.directories) }
        ensures files { IfOk result (λ tree. files_at self.new.history.directories tree
            ≡ edited_files self.old.history place edits.now) }
        ensures pool { let edited = with_edits self.old.history place edits.now in
            OnOk result (self.new.history ≡ edited) }
        ensures within { let most = self.old.limits.entries in
            OnOk result (entries_of self.new.history.directories ≤ most) }
        ensures too_many { let edited = with_edits self.old.history place edits.now in
            IsErrOf result ForestFault.TooMany
            → self.old.limits.entries < entries_of edited.directories }
        ensures parents { self.new.history.parents ≡ self.old.history.parents }
        ensures limits { self.new.limits ≡ self.old.limits }
    {
        let tree = tree_at(self.trees.as_slice(), place);
        self.forest.apply(tree, edits)
    }

    /// The number of the tree of a commit; that of the tree without files at a place past the last.
    pub(crate) fn tree_of(&self, place: u32) -> u32
        ensures stands { result < length self.now.history.directories }
        ensures files { files_at self.now.history.directories result
            ≡ slice_index_or self.now.history.files place [] }
    {
        if place < self.len() {
            self.trees[place as usize]
        } else {
            EMPTY_TREE
        }
    }

    /// The name of a tree, as git names it.
    pub(crate) fn tree_name(&self, tree: u32) -> Oid
        requires { tree < length self.now.history.directories }
        ensures { result.0 ≡ tree_name (files_at self.now.history.directories tree) }
    {
        self.forest.name(tree)
    }

    /// The files of a tree, in order of their paths' bytes. No path is another one, nor leads to it.
    pub(crate) fn files(&self, tree: u32) -> Result<Vec<FileEntry>, AllocError>
        requires { tree < length self.now.history.directories }
        ensures value { IfOk result
            (λ files. files.items ≡ files_at self.now.history.directories tree) }
        ensures ordered { IfOk result (λ files. IsTrue (is_tree files.items)) }
    {
        self.forest.files(tree)
    }

    /// The names of the commits, by place.
    pub(crate) fn names(&self) -> &[Oid]
        ensures names { result.now ≡ self.now.history.names }
        ensures len { length result.now ≡ length self.now.history.parents }
        ensures few { length result.now ≤ self.now.limits.commits }
    {
        self.names.as_slice()
    }

    /// Whether each commit keeps the name that it had before it was exported.
    pub(crate) fn keeps_original_names(&self) -> bool
        ensures asked { result ≡ self.now.limits.original_names }
        ensures told { result ≡ self.now.history.original_names }
    {
        self.limits.original_names
    }

    /// The most commits that there may be.
    pub(crate) fn most(&self) -> u32
        ensures { result ≡ self.now.limits.commits }
    {
        self.limits.commits
    }

    /// Adds a commit, whose place is the number of commits before, and returns whether its name was
    /// new: one of a name that is there already changes nothing. After an error all is as before.
    pub(crate) fn add(
        &mut self,
        parents: &[u32],
        tree: u32,
        subject: Bytes,
        name: Oid,
    ) -> Result<bool, AllocError>
        requires parents { All (HasPlace self.old.history) parents.now }
        requires tree { tree < length self.old.history.directories }
        requires room { length self.old.history.parents < self.old.limits.commits }
        ensures added { IfOk result (λ added. added
            ≡ is_none (place_named self.old.history.names name)) }
        ensures ok { OnOk result (self.new.history ≡ with_named self.old.history (record {
          parents = parents.now;
          files = files_at self.old.history.directories tree;
          subject = subject;
          name = name;
        })) }
        ensures limits { self.new.limits ≡ self.old.limits }
        ensures err { OnErr result (self.new ≡ self.old) }
    {
        // Room first, so that a commit is added as a whole or not at all.
        self.subjects.reserve(1)?;
        self.trees.reserve(1)?;
        if !add_named(&mut self.graph, &mut self.names, parents, name)? {
            return Ok(false);
        }
        self.subjects.push_reserved(subject);
        self.trees.push_reserved(tree);
        Ok(true)
    }

    /// Sets a ref to a place. After an error all is as before.
    pub(crate) fn set_ref(&mut self, name: Bytes, place: u32) -> Result<(), AllocError>
        requires { place < length self.old.history.parents }
        ensures ok { OnOk result (self.new.history ≡ with_ref name place self.old.history) }
        ensures err { OnErr result (self.new ≡ self.old) }
        ensures limits { self.new.limits ≡ self.old.limits }
    {
        self.refs.set(name, place)
    }

    /// Removes a ref.
    pub(crate) fn remove_ref(&mut self, name: &Bytes)
        ensures history { self.new.history ≡ without_ref name.now self.old.history }
        ensures limits { self.new.limits ≡ self.old.limits }
    {
        self.refs.remove(name);
    }
}

/// Adds a commit's parents and its name, and returns whether the name was new: one that is there
/// already changes nothing. After an error both are as before.
fn add_named(
    graph: &mut Graph,
    names: &mut Names,
    parents: &[u32],
    name: Oid,
) -> Result<bool, AllocError>
    requires len { length names.old ≡ length graph.old }
    requires parents { All (λ parent. parent < length graph.old) parents.now }
    requires room { length graph.old < 4294967295 }
    ensures added { IfOk result (λ added. added ≡ is_none (place_named names.old name)) }
    ensures graph { IfOk result (λ added. graph.new
        ≡ (if added then graph.old ++ parents.now ∷ [] else graph.old)) }
    ensures names { OnOk result (names.new ≡ with_name names.old name) }
    ensures same_graph { OnErr result (graph.new ≡ graph.old) }
    ensures same_names { OnErr result (names.new ≡ names.old) }
{
    if !names.push(name)? {
        return Ok(false);
    }
    match graph.push(parents) {
        Ok(_) => Ok(true),
        Err(error) => {
            names.truncate(graph.len());
            Err(error)
        }
    }
}

/// The tree that edits begin with: that of a place, or the one without files.
fn tree_at(trees: &[u32], place: Option<u32>) -> u32
    requires { IfSome place (λ place. place < length trees.now) }
    ensures { result ≡ begun_with trees.now place }
{
    match place {
        Some(place) => trees[place as usize],
        None => EMPTY_TREE,
    }
}
