//! An outcome is known from elsewhere.
ghost use Rattle.std.specs.Prelude.{◌≡◌, ◌<◌, ◌≤◌, Ok, Some, slice_get, OnOk, IfSome, length};
ghost use Rattle.bf_many.specs.Cores.{machine_of, machines_of};
ghost use Rattle.bf_many.specs.Many.{FarmMachine};
ghost use Rattle.bf_serve.specs.declared.opening.Opening.{Opening};
ghost use Rattle.bf_serve.specs.Searches.{has_outcome, is_tested};
ghost use Rattle.bf_serve.specs.Serving as serving;
ghost use Rattle.bf_serve.specs.Steps.{IsServing, Serves, searches_in};

use crate::session::Session;
use crate::standing::standing_of;
use bf_core::Core;
use bf_import::History;
use bf_io::Bytes;
use bf_oid::oid_from_hex;
use bf_protocol::{Refusal, put_done, put_refusal};
use bf_search::Outcome;
use std::alloc::AllocError;

/// The place of the commit that 40 hexadecimal digits name.
pub(crate) fn place_of_commit(history: &History, word: &[u8]) -> Option<u32>
    ensures value { result ≡ serving.place_of_commit history.now word.now }
    ensures within { IfSome result (λ place. place < length history.now.parents) }
{
    history.place_named(oid_from_hex(word)?)
}

/// Whether the outcome of a place is known.
fn has_outcome(core: &Core<'_>, place: u32) -> bool
    ensures { result ≡ has_outcome (machine_of core.now) place }
{
    place < core.table().len() && core.table().get(place).is_some()
}

/// Whether a worker tests a place.
fn is_tested(core: &Core<'_>, place: u32) -> bool
    ensures { result ≡ is_tested (machine_of core.now) place }
{
    core.claims().iter().any(|claim| claim.place == place)
}

impl<'r> Session<'r> {
    /// The outcome of a commit is known to the search of a number. The search is looked at first, then the commit.
    pub(crate) fn learn(
        &mut self,
        number: u32,
        commit: &[u8],
        outcome: Result<Outcome, Refusal>,
        out: &mut Bytes,
    ) -> Result<(), AllocError>
        requires serving { IsServing self.old }
        requires number { 1 ≤ number }
        ensures { let learn = serving.learn_turn self.old.history.now (searches_in self.old) in
            OnOk result
            (Serves (learn number commit.now outcome) self.old self.new out.old out.new) }
    {
        if number as usize > self.openings.len() {
            return put_refusal(out, Refusal::NoSuchSearch);
        }
        let Some(place) = place_of_commit(self.history, commit) else {
            return put_refusal(out, Refusal::NoSuchCommit);
        };
        match outcome {
            Ok(outcome) => self.learn_at(number - 1, place, outcome, out),
            Err(refusal) => put_refusal(out, refusal),
        }
    }

    /// The outcome of a place is known to a search.
    fn learn_at(
        &mut self,
        search: u32,
        place: u32,
        outcome: Outcome,
        out: &mut Bytes,
    ) -> Result<(), AllocError>
        requires serving { IsServing self.old }
        requires search { search < length self.old.openings.items }
        requires place { place < length self.old.history.now.parents }
        ensures { (opening : Opening) (m : FarmMachine) →
            slice_get self.old.openings.items search ≡ Some opening →
            slice_get (machines_of self.old.many) search ≡ Some m →
            let learn = serving.learned_of self.old.history.now (searches_in self.old) search in
            OnOk result
            (Serves (learn place outcome opening m) self.old self.new out.old out.new) }
    {
        let core = self.many.core(search);
        if has_outcome(core, place) {
            return put_refusal(out, Refusal::HasAnOutcome);
        }
        if is_tested(core, place) {
            return put_refusal(out, Refusal::IsUnderTest);
        }
        let outcome = self.openings[search as usize].read(outcome);
        let standing = standing_of(core, self.left[search as usize]);
        let withdrawn = self.many.learn(search, place, outcome)?;
        self.tell(search, standing, withdrawn.workers, out)?;
        put_done(out)
    }
}
