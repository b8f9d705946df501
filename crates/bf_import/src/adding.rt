//! A commit that joins a history.
ghost use Rattle.std.specs.Prelude.{◌≡◌, ◌≤◌, ◌<◌, length, unwrap_or, All, IfOk, IfSome};
ghost use Rattle.bf_forest.specs.Trees.{files_at};
ghost use Rattle.bf_history.specs.Bodies.{subject_of};
ghost use Rattle.bf_history.specs.Imports.{Means};
ghost use Rattle.bf_history.specs.Meanings.{lacks_name, place_named, place_of_commit};
ghost use Rattle.bf_import.specs.Growing.{HasPlace, commit_from, edited_files, joined, refusal_of, with_edits, with_named, within_commits, within_entries};

use crate::growth::Growth;
use bf_commits::{commit_name, into_subject, original_name};
use bf_forest::{Edit, ForestFault};
use bf_grammar::{Header, Limit};
use bf_history::ImportFault;
use bf_io::Bytes;
use bf_oid::Oid;

impl Growth {
    /// Whether original names are asked for, and a commit has none, or that of another.
    pub(crate) fn lacks_name(&self, header: &Header) -> bool
        ensures { result ≡ lacks_name self.now.limits self.now.history header.now }
    {
        if !self.keeps_original_names() {
            return false;
        }
        match original_name(header) {
            Some(name) => self.place_named(name).is_some(),
            None => true,
        }
    }

    /// Adds a commit with these parents, whose files are those of a place after edits, and returns its
    /// place; without a place they begin with no files. A commit whose name is there already stays at its
    /// place.
    pub(crate) fn commit(
        &mut self,
        first: Option<u32>,
        parents: &[u32],
        edits: &[Edit],
        header: Header,
    ) -> Result<u32, ImportFault>
        requires first { IfSome first (HasPlace self.old.history) }
        requires parents { All (HasPlace self.old.history) parents.now }
        ensures history { let history = self.old.history in
            let commit = commit_from history first parents.now edits.now header in
            Means (λ _. self.new.history) result (joined self.old.limits history commit) }
        ensures place { let history = self.old.history in
            let commit = commit_from history first parents.now edits.now header in
            IfOk result (λ place. place ≡ place_of_commit history commit) }
        ensures there { IfOk result (HasPlace self.new.history) }
        ensures kept { length self.old.history.parents ≤ length self.new.history.parents }
        ensures limits { self.new.limits ≡ self.old.limits }
    {
        let tree = self.edited_tree(first, edits)?;
        let name = commit_name(self.tree_name(tree), parents, self.names(), &header)?;
        self.add_named_commit(parents, tree, header.message, name)
    }

    /// The number of the tree of a commit, which joins the pool of trees, where that is within its limit.
    fn edited_tree(&mut self, first: Option<u32>, edits: &[Edit]) -> Result<u32, ImportFault>
        requires { IfSome first (HasPlace self.old.history) }
        ensures number { IfOk result (λ tree. tree < length self.new.history.directories) }
        ensures files { IfOk result (λ tree. files_at self.new.history.directories tree
            ≡ edited_files self.old.history first edits.now) }
        ensures pool { let most = self.old.limits.entries in
            let edited = with_edits self.old.history first edits.now in
            Means (λ _. self.new.history) result (within_entries most edited) }
        ensures parents { self.new.history.parents ≡ self.old.history.parents }
        ensures limits { self.new.limits ≡ self.old.limits }
    {
        match self.apply(first, edits) {
            Ok(tree) => Ok(tree),
            Err(fault) => Err(refusal(fault)),
        }
    }

    /// Adds a commit of this tree and this name, where one more is within the limit, and returns its
    /// place. A commit whose name is there already stays at its place, at the limit too.
    fn add_named_commit(
        &mut self,
        parents: &[u32],
        tree: u32,
        message: Bytes,
        name: Oid,
    ) -> Result<u32, ImportFault>
        requires parents { All (HasPlace self.old.history) parents.now }
        requires tree { tree < length self.old.history.directories }
        ensures history { let history = self.old.history in
            let grown = with_named history (record {
              parents = parents.now;
              files = files_at history.directories tree;
              subject = subject_of message;
              name = name;
            }) in
            let most = self.old.limits.commits in
            Means (λ _. self.new.history) result (within_commits most grown) }
        ensures place { let names = self.old.history.names in
            IfOk result (λ place. place ≡ unwrap_or (place_named names name) (length names)) }
        ensures there { IfOk result (HasPlace self.new.history) }
        ensures kept { length self.old.history.parents ≤ length self.new.history.parents }
        ensures limits { self.new.limits ≡ self.old.limits }
    {
        let place = self.len();
        if place >= self.most() {
            return self.place_named(name).ok_or(ImportFault::TooLarge {
                what: Limit::Commits,
            });
        }
        if self.add(parents, tree, into_subject(message)?, name)? {
            return Ok(place);
        }
        Ok(self.place_named(name).unwrap())
    }
}

/// How an import is refused where a tree did not join the pool.
fn refusal(fault: ForestFault) -> ImportFault
    ensures { result ≡ refusal_of fault }
{
    match fault {
        ForestFault::TooMany => ImportFault::TooLarge {
            what: Limit::Entries,
        },
        ForestFault::NoMemory => ImportFault::NoMemory,
    }
}
