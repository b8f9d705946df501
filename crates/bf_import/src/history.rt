//! The history of a stream.
ghost use Rattle.std.specs.Prelude.{◌≡◌, ◌<◌, [], length, All, IsTrue, IfOk, IfSome};
ghost use Rattle.std.specs.List.{slice_index_or};
ghost use Rattle.bf_forest.specs.Files.{is_tree};
ghost use Rattle.bf_forest.specs.Trees.{tree_name};
ghost use Rattle.bf_history.specs.Meanings.{place_named};

use crate::growth::Growth;
use bf_forest::FileEntry;
use bf_graph::Graph;
use bf_io::Bytes;
use bf_oid::Oid;
use bf_tables::Refs;
use std::alloc::{AllocError, Global};
use std::marker::Model;
use std::sync::Arc;

/// The commits of a stream and its refs. A commit is named by its place, the number of the commit in the
/// order of the stream, from 0; commits of one name are one, at the place of the first. A history that is
/// shared is kept once.
pub struct History {
    growth: Arc<Growth>,
}

/// Written out, so that it is proved once: what is derived is proved anew on each way out of each function
/// that has a history.
impl Drop for History {
    fn drop(self) {
        let History { growth: _ } = self;
    }
}

impl Model for History {
    ghost use Rattle.bf_history.specs.Meanings.{History};

    ghost Value = { History };

    ghost view = { λ h. h.growth.value.history };
}

impl History {
    /// A history that grows no more.
    pub(crate) fn of(alloc: Global, growth: Growth) -> Result<History, AllocError>
        ensures { IfOk result (λ history. history ≡ growth.history) }
    {
        Ok(History {
            growth: Arc::new(alloc, growth)?,
        })
    }

    /// The same history, for another owner. Nothing of it is copied.
    pub fn share(&self) -> Result<History, AllocError>
        ensures { IfOk result (λ history. history ≡ self.now) }
    {
        Ok(History {
            growth: self.growth.clone()?,
        })
    }

    fn growth(&self) -> &Growth
        ensures { result.now.history ≡ self.now }
    {
        &self.growth
    }

    /// The parents of each commit, by place, in the order in which the stream gave them.
    pub fn graph(&self) -> &Graph
        ensures { result.now ≡ self.now.parents }
    {
        let growth = self.growth();
        &growth.graph
    }

    /// The number of commits. There is one list of files for each.
    pub fn len(&self) -> u32
        ensures len { result ≡ length self.now.parents }
        ensures files { length self.now.files ≡ length self.now.parents }
    {
        self.growth().len()
    }

    /// The names of the commits, by place. No two are the same.
    pub fn names(&self) -> &[Oid]
        ensures value { result.now ≡ self.now.names }
        ensures len { length result.now ≡ length self.now.parents }
    {
        self.growth().names()
    }

    /// The subjects of the commits, by place: the first line of a message that has a byte, without its LF.
    pub fn subjects(&self) -> &[Bytes]
        ensures value { result.now ≡ self.now.subjects }
        ensures len { length result.now ≡ length self.now.parents }
    {
        let growth = self.growth();
        growth.subjects.as_slice()
    }

    /// The refs, in the order in which they were first set, each with the place of its commit.
    pub fn refs(&self) -> &Refs
        ensures value { result.now ≡ self.now.refs }
        ensures places { All (λ ref. ref.1 < length self.now.parents) result.now }
    {
        let growth = self.growth();
        &growth.refs
    }

    /// Whether the names are those that the commits had before they were exported.
    pub fn has_original_names(&self) -> bool
        ensures { result ≡ self.now.original_names }
    {
        self.growth().keeps_original_names()
    }

    /// The place of the commit with a name.
    pub fn place_named(&self, name: Oid) -> Option<u32>
        ensures value { result ≡ place_named self.now.names name }
        ensures within { IfSome result (λ place. place < length self.now.parents) }
    {
        self.growth().place_named(name)
    }

    /// The name of the tree of a commit, as git names it; at a place past the last that of the tree without
    /// files.
    pub fn tree_name(&self, place: u32) -> Oid
        ensures { result.0 ≡ tree_name (slice_index_or self.now.files place []) }
    {
        let growth = self.growth();
        growth.tree_name(growth.tree_of(place))
    }

    /// The files of a commit, in order of their paths' bytes; none at a place past the last. No path is
    /// another one, nor leads to it.
    pub fn files(&self, place: u32) -> Result<Vec<FileEntry>, AllocError>
        ensures value { IfOk result
            (λ files. files.items ≡ slice_index_or self.now.files place []) }
        ensures ordered { IfOk result (λ files. IsTrue (is_tree files.items)) }
    {
        let growth = self.growth();
        growth.files(growth.tree_of(place))
    }
}
