//! The pool of trees.
ghost use Rattle.std.specs.Prelude.{◌≡◌, ◌<◌, ◌≤◌, [], ◌∷◌, ◌++◌, length, take, IsTrue, IfOk, OnOk, OnErr, IsErrOf};
ghost use Rattle.bf_forest.specs.declared.trees.ForestFault.TheVariants as faults;
ghost use Rattle.bf_forest.specs.Files.{is_tree};
ghost use Rattle.bf_forest.specs.Trees.{tree_name, entries_of, files_at, edited_tree, trees_after};

use crate::edits::Edit;
use crate::entries::FileEntry;
use crate::nodes::Numbers;
use crate::pool::Trees;
use bf_oid::Oid;
use std::alloc::{AllocError, AllocFailed, Global};
use std::marker::Model;
use thiserror::Error;

/// Why a tree did not join the pool.
#[derive(Clone, Copy, Debug, PartialEq, Eq, Error)]
pub enum ForestFault {
    /// The trees would have more entries together than the limit.
    #[error("too many entries")]
    TooMany,
    /// Memory ran out.
    #[error("out of memory")]
    NoMemory,
}

impl From<AllocError> for ForestFault {
    ghost from_gives = { λ _ e. e ≡ faults.NoMemory };

    fn from(_: AllocError) -> ForestFault {
        ForestFault::NoMemory
    }
}

impl<T: Drop> From<AllocFailed<T>> for ForestFault {
    ghost from_gives = { λ _ e. e ≡ faults.NoMemory };

    fn from(_: AllocFailed<T>) -> ForestFault {
        ForestFault::NoMemory
    }
}

/// A pool of trees, each distinct tree once, by numbers from 0. Tree 0 is the empty tree.
#[derive(Debug, Drop)]
pub struct Forest {
    trees: Trees,
    limit: u32,
}

impl Model for Forest {
    ghost use Rattle.bf_forest.specs.Trees.{Pool};

    ghost Value = { Pool };

    ghost view = { λ f. record { trees = f.trees.trees; limit = f.limit } };
}

impl Forest {
    /// The pool of the empty tree, whose trees may have so many entries together.
    pub fn new(alloc: Global, limit: u32) -> Result<Forest, AllocError>
        requires { limit ≤ 40000000 }
        ensures { IfOk result (λ forest. forest ≡ record { trees = [] ∷ []; limit = limit }) }
    {
        let mut trees = Trees::new(alloc);
        trees.add(Numbers::new(alloc))?;
        Ok(Forest { trees, limit })
    }

    /// The number of the tree whose files are those of a tree after edits, in order. It joins the pool,
    /// with the trees of its directories; the others keep their numbers. `TooMany` comes exactly where
    /// the trees would then have more entries together than the limit. After a refusal the pool is as
    /// before.
    pub fn apply(&mut self, tree: u32, edits: &[Edit]) -> Result<u32, ForestFault>
        requires { tree < length self.old.trees }
        ensures number { IfOk result (λ number. number < length self.new.trees) }
        ensures files { IfOk result
            (λ number. files_at self.new.trees number ≡ edited_tree self.old.trees tree edits.now) }
        ensures pool { OnOk result
            (self.new ≡ record self.old { trees = trees_after self.old.trees tree edits.now }) }
        ensures kept { OnOk result (take (length self.old.trees) self.new.trees ≡ self.old.trees) }
        ensures within { OnOk result (entries_of self.new.trees ≤ self.old.limit) }
        ensures too_many { IsErrOf result ForestFault.TooMany
            → self.old.limit < entries_of (trees_after self.old.trees tree edits.now) }
        ensures err { OnErr result (self.new ≡ self.old) }
    {
        let count = self.trees.len();
        let entries = self.trees.entries();
        let answer = joined(&mut self.trees, self.limit, tree, edits);
        if answer.is_err() {
            self.trees.truncate(count, entries);
        }
        answer
    }

    /// The name of a tree, as git names it.
    pub fn name(&self, tree: u32) -> Oid
        requires { tree < length self.now.trees }
        ensures { result.0 ≡ tree_name (files_at self.now.trees tree) }
    {
        self.trees.name(tree as usize)
    }

    /// The files of a tree, in order of their paths' bytes. No path is another one, nor leads to it.
    pub fn files(&self, tree: u32) -> Result<Vec<FileEntry>, AllocError>
        requires { tree < length self.now.trees }
        ensures value { IfOk result (λ files. files.items ≡ files_at self.now.trees tree) }
        ensures ordered { IfOk result (λ files. IsTrue (is_tree files.items)) }
    {
        self.trees.files_of(tree as usize)
    }
}

/// Adds the tree after edits, and returns its number. After a refusal some trees may have been added.
fn joined(trees: &mut Trees, limit: u32, tree: u32, edits: &[Edit]) -> Result<u32, ForestFault>
    requires { tree < length trees.old.trees }
    ensures pool { OnOk result (trees.new.trees ≡ trees_after trees.old.trees tree edits.now) }
    ensures number { IfOk result (λ number. number < length trees.new.trees) }
    ensures files { IfOk result
        (λ number. files_at trees.new.trees number ≡ edited_tree trees.old.trees tree edits.now) }
    ensures within { OnOk result (entries_of trees.new.trees ≤ limit) }
    ensures too_many { IsErrOf result ForestFault.TooMany
        → limit < entries_of (trees_after trees.old.trees tree edits.now) }
    ensures kept { take (length trees.old.trees) trees.new.trees ≡ trees.old.trees }
{
    let number = trees.join(tree as usize, edits)?;
    if trees.entries() > u64::from(limit) {
        return Err(ForestFault::TooMany);
    }
    match u32::try_from(number) {
        Ok(number) => Ok(number),
        Err(_) => Err(ForestFault::NoMemory),
    }
}
