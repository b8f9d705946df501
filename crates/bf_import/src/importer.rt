//! An import under way.
ghost use Rattle.std.specs.Prelude.{◌≡◌, ◌==◌, ◌<◌, ◌++◌, codes, length, All, IfOk, IfSome, OnOk};
ghost use Rattle.std.specs.List.{list_all};
ghost use Rattle.bf_grammar.specs.Limits.{IsWithin};
ghost use Rattle.bf_history.specs.declared.marked.Marked.TheVariants as marked;
ghost use Rattle.bf_history.specs.Imports.{Means};
ghost use Rattle.bf_history.specs.Keeping.{edits_meant, kept_behind, kept_behind_all, kept_with};
ghost use Rattle.bf_history.specs.Meanings.{after_reset, after_tag, is_no_name};
ghost use Rattle.bf_history.specs.Meanings.{place_of_commit, with_mark};
ghost use Rattle.bf_import.specs.Growing.{HasPlace, Leaves, StandsBelow, blob_name, commit_from, committed, joined, mark_set, meant_by, named_committed, nothing_imported};
ghost use Rattle.bf_import.specs.Growing.{ref_removed, ref_set};

use crate::growth::Growth;
use crate::history::History;
use crate::targets::Role;
use bf_commits::{Contents, edits_of};
use bf_forest::Edit;
use bf_grammar::{Changes, Command, Commit, Header, Limits, StreamFault, Target};
use bf_history::{ImportFault, Marked};
use bf_io::Bytes;
use bf_oid::{Kind, object_name};
use bf_tables::Marks;
use std::alloc::{AllocError, Global};
use std::marker::Model;

/// The history so far, and what the marks stand for. A command that is refused may leave a part of its
/// work behind.
#[derive(Drop)]
pub(crate) struct Importer {
    pub(crate) alloc: Global,
    pub(crate) growth: Growth,
    pub(crate) marks: Marks,
}

impl Model for Importer {
    ghost use Rattle.std.specs.Prelude.{length};
    ghost use Rattle.bf_import.specs.Growing.{Importing, MarksStand, import_of};

    ghost Value = { Importing };

    ghost view = { λ i. import_of i.growth i.marks };

    ghost invariant = { λ i. MarksStand (length i.growth.history.parents) i.marks };
}

impl Importer {
    /// Before the first command.
    pub(crate) fn new(alloc: Global, limits: Limits) -> Result<Importer, AllocError>
        requires { IsWithin limits }
        ensures { IfOk result (λ importer. importer ≡ nothing_imported limits) }
    {
        Ok(Importer {
            alloc,
            growth: Growth::new(alloc, limits)?,
            marks: Marks::new(alloc),
        })
    }

    /// The history of the commands so far.
    pub(crate) fn into_history(self) -> Result<History, AllocError>
        ensures { IfOk result (λ history. history ≡ self.loading.history) }
    {
        History::of(self.alloc, self.growth)
    }

    /// The allocator that the import grows by.
    pub(crate) fn allocator(&self) -> Global {
        self.alloc
    }

    /// Carries out a command, or refuses it. The contents take those that stand in it.
    pub(crate) fn take<C: Contents>(
        &mut self,
        contents: &mut C,
        command: Command,
    ) -> Result<(), ImportFault>
        ensures loading { let kept = C.kept contents.old in
            Leaves self.new result (meant_by kept self.old command) }
        ensures kept { OnOk result
            (C.kept contents.new ≡ kept_behind (C.kept contents.old) command) }
        ensures limits { OnOk result (self.new.limits ≡ self.old.limits) }
    {
        match command {
            Command::Blob { mark, content, .. } => self.take_blob(contents, mark, content),
            Command::Commit(commit) => self.take_commit(contents, commit),
            Command::Tag {
                name,
                mark,
                from,
                ..
            } => self.take_tag(&name, mark, &from),
            Command::Reset { branch, from, .. } => self.take_reset(branch, from),
            Command::Progress { .. } => Ok(()),
            Command::Feature { .. } => Ok(()),
        }
    }

    fn take_blob<C: Contents>(
        &mut self,
        contents: &mut C,
        mark: Option<u64>,
        content: Bytes,
    ) -> Result<(), ImportFault>
        ensures loading { let blob = marked.Blob (blob_name content) in
            let loading = self.old.loading in
            let meant = record loading { marks = with_mark mark blob loading.marks } in
            Leaves self.new result (Ok meant) }
        ensures kept { let kept = C.kept contents.old in
            OnOk result (C.kept contents.new ≡ kept_with kept (blob_name content) content) }
        ensures limits { OnOk result (self.new.limits ≡ self.old.limits) }
    {
        let name = object_name(Kind::Blob, content.as_slice());
        self.set_mark(mark, Marked::Blob(name))?;
        contents.add(name, content)?;
        Ok(())
    }

    fn take_commit<C: Contents>(
        &mut self,
        contents: &mut C,
        commit: Commit,
    ) -> Result<(), ImportFault>
        ensures loading { let kept = C.kept contents.old in
            Leaves self.new result (committed kept self.old commit) }
        ensures kept { OnOk result
            (C.kept contents.new ≡ kept_behind_all (C.kept contents.old) commit.changes) }
        ensures limits { OnOk result (self.new.limits ≡ self.old.limits) }
    {
        if self.growth.lacks_name(&commit.header) {
            let line = commit.line;
            return Err(ImportFault::Stream(StreamFault::Syntax { line }));
        }
        self.take_named(contents, commit)
    }

    /// Carries out a commit that has its name.
    fn take_named<C: Contents>(
        &mut self,
        contents: &mut C,
        commit: Commit,
    ) -> Result<(), ImportFault>
        ensures loading { let kept = C.kept contents.old in
            Leaves self.new result (named_committed kept self.old commit) }
        ensures kept { OnOk result
            (C.kept contents.new ≡ kept_behind_all (C.kept contents.old) commit.changes) }
        ensures limits { OnOk result (self.new.limits ≡ self.old.limits) }
    {
        let Commit {
            branch,
            mark,
            header,
            from,
            merges,
            changes,
            ..
        } = commit;
        let first = self.first_parent(&branch, from)?;
        let parents = self.parents(first, merges.as_slice())?;
        let edits = self.edits(contents, changes)?;
        let place = self.add_commit(first, parents.as_slice(), edits.as_slice(), header)?;
        self.set_ref(branch, place)?;
        self.set_mark(mark, Marked::Commit(place))?;
        Ok(())
    }

    fn edits<C: Contents>(
        &self,
        contents: &mut C,
        changes: Changes,
    ) -> Result<Vec<Edit>, ImportFault>
        ensures edits { let marks = self.now.loading.marks in
            let kept = C.kept contents.old in
            Means (λ edits. edits.items) result (edits_meant kept marks changes) }
        ensures kept { OnOk result
            (C.kept contents.new ≡ kept_behind_all (C.kept contents.old) changes) }
    {
        edits_of(self.alloc, &self.marks, contents, changes)
    }

    /// Adds a commit with these parents and edits, and returns its place.
    fn add_commit(
        &mut self,
        first: Option<u32>,
        parents: &[u32],
        edits: &[Edit],
        header: Header,
    ) -> Result<u32, ImportFault>
        requires first { IfSome first (HasPlace self.old.loading.history) }
        requires parents { All (HasPlace self.old.loading.history) parents.now }
        ensures history { let history = self.old.loading.history in
            let commit = commit_from history first parents.now edits.now header in
            Means (λ _. self.new.loading.history) result (joined self.old.limits history commit) }
        ensures place { let history = self.old.loading.history in
            let commit = commit_from history first parents.now edits.now header in
            IfOk result (λ place. place ≡ place_of_commit history commit) }
        ensures there { IfOk result (HasPlace self.new.loading.history) }
        ensures marks { self.new.loading.marks ≡ self.old.loading.marks }
        ensures limits { self.new.limits ≡ self.old.limits }
    {
        self.growth.commit(first, parents, edits, header)
    }

    fn take_tag(
        &mut self,
        name: &Bytes,
        mark: Option<u64>,
        from: &Target,
    ) -> Result<(), ImportFault>
        ensures loading { let loading = self.old.loading in
            Leaves self.new result (after_tag loading name.now mark from.now) }
        ensures limits { OnOk result (self.new.limits ≡ self.old.limits) }
    {
        let place = self.place_of_target(Role::Tagged, from)?;
        let full = tag_ref(name)?;
        self.set_ref(full, place)?;
        self.set_mark(mark, Marked::Tag)?;
        Ok(())
    }

    fn take_reset(&mut self, branch: Bytes, from: Option<Target>) -> Result<(), ImportFault>
        ensures loading { Leaves self.new result (after_reset self.old.loading branch from) }
        ensures limits { OnOk result (self.new.limits ≡ self.old.limits) }
    {
        match from {
            None => {
                self.remove_ref(&branch);
                Ok(())
            }
            Some(target) => self.reset_to(branch, &target),
        }
    }

    fn reset_to(&mut self, branch: Bytes, target: &Target) -> Result<(), ImportFault>
        ensures loading { let from = Some target.now in
            Leaves self.new result (after_reset self.old.loading branch from) }
        ensures limits { OnOk result (self.new.limits ≡ self.old.limits) }
    {
        if is_no_name(target.text.as_slice()) {
            self.remove_ref(&branch);
            return Ok(());
        }
        let place = self.place_of_target(Role::Commit, target)?;
        self.set_ref(branch, place)?;
        Ok(())
    }

    fn remove_ref(&mut self, name: &Bytes)
        ensures { self.new ≡ ref_removed name.now self.old }
    {
        self.growth.remove_ref(name);
    }

    /// Sets a ref to a place.
    fn set_ref(&mut self, name: Bytes, place: u32) -> Result<(), AllocError>
        requires { place < length self.old.loading.history.parents }
        ensures { OnOk result (self.new ≡ ref_set name place self.old) }
    {
        self.growth.set_ref(name, place)
    }

    /// Lets a mark, where one is given, stand for something.
    fn set_mark(&mut self, mark: Option<u64>, what: Marked) -> Result<(), AllocError>
        requires { StandsBelow (length self.old.loading.history.parents) what }
        ensures { OnOk result (self.new ≡ mark_set mark what self.old) }
    {
        match mark {
            Some(number) => self.marks.set(number, what),
            None => Ok(()),
        }
    }
}

/// The ref of a tag.
fn tag_ref(name: &Bytes) -> Result<Bytes, AllocError>
    ensures { IfOk result (λ text. text ≡ codes "refs/tags/" ++ name.now) }
{
    let mut text = Bytes::from_slice(name.allocator(), b"refs/tags/")?;
    text.append(name.as_slice())?;
    Ok(text)
}

/// Whether a target is 40 zeros.
fn is_no_name(text: &[u8]) -> bool
    ensures { result ≡ is_no_name text.now }
{
    text.len() == 40 && are_zeros(text)
}

fn are_zeros(text: &[u8]) -> bool
    ensures { result ≡ list_all (λ byte. byte == 48) text.now }
{
    text.iter().all(|byte| *byte == b'0')
}
