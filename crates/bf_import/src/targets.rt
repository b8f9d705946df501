//! The commits that targets name.
ghost use Rattle.std.specs.Prelude.{◌≡◌, ◌++◌, None, All, IfOk, IfSome, MatchOption};
ghost use Rattle.std.specs.Option.{option_to_list};
ghost use Rattle.bf_oid.specs.Object.{oid_of_hex};
ghost use Rattle.bf_history.specs.declared.fault.ImportFault.TheVariants.{BadFrom};
ghost use Rattle.bf_history.specs.Imports.{Means};
ghost use Rattle.bf_history.specs.Meanings.{begins_with, commit_marked, each_of, place_by, place_of_target, ref_in, ref_of_target};
ghost use Rattle.bf_import.specs.Growing.{HasPlace, parents_given};
ghost use Rattle.bf_import.specs.Roles.{said_of};

use crate::importer::Importer;
use bf_forms::colon_number;
use bf_grammar::Target;
use bf_history::{ImportFault, Marked};
use bf_io::Bytes;
use bf_oid::oid_from_hex;
use smallvec::SmallVec;
use std::alloc::AllocError;

/// The places of the parents of a commit. One or two take no memory of their own.
pub(crate) type Parents = SmallVec<u32, 2>;

/// What a target is for.
#[derive(Clone, Copy)]
pub(crate) enum Role {
    /// A commit's `from` or `merge`, and the `from` of a `reset`.
    Commit,
    /// The `from` of a tag.
    Tagged,
}

impl Importer {
    /// The place of the commit that a target names: by its mark, by its name or by a ref.
    pub(crate) fn place_of_target(&self, role: Role, target: &Target) -> Result<u32, ImportFault>
        ensures place { let loading = self.now.loading in
            Means (λ place. place) result (place_of_target (said_of role) loading target.now) }
        ensures there { IfOk result (HasPlace self.now.loading.history) }
    {
        match colon_number(target.text.as_slice()) {
            Some(number) => commit_marked(self.marks.get(number), role, target.line),
            None => self.place_by_text(target),
        }
    }

    /// The place of the commit that a target names by its name or by a ref.
    fn place_by_text(&self, target: &Target) -> Result<u32, ImportFault>
        ensures place { let name = oid_of_hex target.now.text in
            let meant = place_by BadFrom self.now.loading target.now None name in
            Means (λ place. place) result meant }
        ensures there { IfOk result (HasPlace self.now.loading.history) }
    {
        match oid_from_hex(target.text.as_slice()) {
            Some(name) => self
                .growth
                .place_named(name)
                .ok_or(ImportFault::Unsupported { line: target.line }),
            None => self
                .place_of_ref(&target.text)?
                .ok_or(ImportFault::BadFrom { line: target.line }),
        }
    }

    /// The place of the ref that a target's text names, itself or what stands before `^0`.
    fn place_of_ref(&self, text: &Bytes) -> Result<Option<u32>, AllocError>
        ensures place { let refs = self.now.loading.history.refs in
            IfOk result (λ place. place ≡ ref_in refs (ref_of_target text.now)) }
        ensures there { IfOk result (λ place. IfSome place (HasPlace self.now.loading.history)) }
    {
        match before_caret(text.as_slice()) {
            Some(name) => {
                let name = Bytes::from_slice(text.allocator(), name)?;
                Ok(self.growth.place_of_ref(&name))
            }
            None => Ok(self.growth.place_of_ref(text)),
        }
    }

    /// The commit that a new one follows: that of its `from`, or else the present one of its branch.
    pub(crate) fn first_parent(
        &self,
        branch: &Bytes,
        from: Option<Target>,
    ) -> Result<Option<u32>, ImportFault>
        ensures place { let loading = self.now.loading in
            Means (λ place. place) result (begins_with loading branch.now from) }
        ensures there { IfOk result (λ place. IfSome place (HasPlace self.now.loading.history)) }
    {
        match from {
            Some(target) => Ok(Some(self.place_of_target(Role::Commit, &target)?)),
            None => Ok(self.growth.place_of_ref(branch)),
        }
    }

    /// The parents of a commit: the first, where there is one, and those that are merged.
    pub(crate) fn parents(
        &self,
        first: Option<u32>,
        merges: &[Target],
    ) -> Result<Parents, ImportFault>
        requires { IfSome first (HasPlace self.now.loading.history) }
        ensures parents { let loading = self.now.loading in
            Means (λ parents. parents.items) result (parents_given loading first merges.now) }
        ensures there { let history = self.now.loading.history in
            IfOk result (λ parents. All (HasPlace history) parents.items) }
    {
        let merged = self.merged(merges)?;
        Ok(with_first(first, merged)?)
    }

    /// The commits that are merged.
    fn merged(&self, merges: &[Target]) -> Result<Parents, ImportFault>
        ensures places { let loading = self.now.loading in
            let meant = each_of (place_of_target BadFrom loading) merges.now in
            Means (λ places. places.items) result meant }
        ensures there { let history = self.now.loading.history in
            IfOk result (λ places. All (HasPlace history) places.items) }
    {
        let mut places = SmallVec::new(self.allocator());
        for target in merges {
            places.push(self.place_of_target(Role::Commit, target)?)?;
        }
        Ok(places)
    }
}

fn with_first(first: Option<u32>, mut places: Parents) -> Result<Parents, AllocError>
    ensures { IfOk result (λ parents. parents.items ≡ option_to_list first ++ places.items) }
{
    if let Some(place) = first {
        places.insert(0, place)?;
    }
    Ok(places)
}

/// The commit that a mark stands for.
fn commit_marked(found: Option<Marked>, role: Role, line: u64) -> Result<u32, ImportFault>
    ensures { result ≡ commit_marked (said_of role) line found }
{
    match found {
        Some(Marked::Commit(place)) => Ok(place),
        Some(Marked::Blob(_) | Marked::Tag) => Err(other_marked(role, line)),
        None => Err(ImportFault::BadFrom { line }),
    }
}

/// What is said of a mark of something else than a commit.
fn other_marked(role: Role, line: u64) -> ImportFault
    ensures { result ≡ said_of role line }
{
    match role {
        Role::Commit => ImportFault::BadFrom { line },
        Role::Tagged => ImportFault::Unsupported { line },
    }
}

/// What stands before `^0` at the end of a text.
#[tactic(auto, unfolding(bf_history::specs::Meanings::ref_of_target))]
fn before_caret(text: &[u8]) -> Option<&[u8]>
    ensures { let name = ref_of_target text.now in
        MatchOption result (name ≡ text.now) (λ before. before.now ≡ name) }
{
    if text.ends_with(b"^0") {
        Some(&text[..text.len() - 2])
    } else {
        None
    }
}
