//! The cores of several searches.
ghost use Rattle.std.specs.Prelude.{◌≡◌, ◌↔◌, ◌<◌, ◌≤◌, true, false, [], ◌∷◌, ◌++◌, Some, length, map, All, IfOk, OnOk, OnErr, IfSome, IfNone, IsTrue};
ghost use Rattle.std.specs.List.{slice_get};
ghost use Rattle.std.specs.List.Sorted.{IsStrictlyIncreasing};
ghost use Rattle.bf_search.specs.declared.farm.Event.{Event as EventValue};
ghost use Rattle.bf_core.specs.Machine.{IsConsumed};
ghost use Rattle.bf_many.specs.declared.answers.ManyPick.{ManyPick as PickValue};
ghost use Rattle.bf_many.specs.Many.{held_by, is_busy};
ghost use Rattle.bf_many.specs.Cores.{AreAllTaken, AreSameButNodes, AreWanting, AreWithdrawnIn, CanStart, DoesAt, HaveAllEnded};
ghost use Rattle.bf_many.specs.Cores.{IsFreeIn, KeepsGuessesAt, LearnsAt, Picks, StaysBesideAt, StepsIf, is_claimed, machines_of, start_of, starts_of};

use crate::answers::{Held, ManyEvent, ManyPick};
use crate::held::held_by;
use crate::next::{apply, is_busy, pick};
use crate::search::ReadySearch;
use crate::wanted::wanting;
use bf_core::{Core, Withdrawn};
use bf_reach::Reach;
use bf_search::{Claim, Outcome};
use bf_spec::Table;
use std::alloc::{AllocError, Global};
use std::marker::Model;

/// Several searches over one history, whose commits the same workers test. Contracts see what they see of
/// the core of each search, in order.
///
/// There are at most 64 searches. Log entries, search and ending of each are those of testing one commit
/// at a time on its own outcomes.
#[derive(Drop)]
pub struct ManyCore<'r> {
    cores: Vec<Core<'r>>,
}

impl<'r> Model for ManyCore<'r> {
    ghost use Rattle.std.specs.Prelude.{List};
    ghost use Rattle.bf_core.specs.Machine.{Machine};

    ghost Value = { List Machine };

    ghost use Rattle.bf_many.specs.Cores.{AreCores};

    ghost view = { λ m. m.cores.items };

    ghost invariant = { λ m. AreCores m.cores.items };
}

impl<'r> ManyCore<'r> {
    /// A core for each search, which has consumed its table.
    pub fn start(
        alloc: Global,
        reach: &'r Reach,
        searches: Vec<ReadySearch>,
    ) -> Result<ManyCore<'r>, AllocError>
        requires few { length searches.items ≤ 64 }
        requires each { All (CanStart (length reach.now)) searches.items }
        ensures started { IfOk result (λ many.
            machines_of many ≡ starts_of reach.entry.now searches.items) }
        ensures consumed { IfOk result (All IsConsumed) }
    {
        let mut cores = Vec::new(alloc);
        for search in searches {
            let ReadySearch { state, table } = search;
            let core = Core::start(alloc, reach, state, table, 0)?;
            cores.push(core)?;
        }
        Ok(ManyCore { cores })
    }

    /// Adds a search, which joins behind the others: its core has consumed its table. After an error all is as
    /// before.
    pub fn add(
        &mut self,
        alloc: Global,
        reach: &'r Reach,
        search: ReadySearch,
    ) -> Result<(), AllocError>
        requires few { length self.old < 64 }
        requires can { CanStart (length reach.now) search }
        ensures added { OnOk result
            (machines_of self.new ≡ machines_of self.old ++ start_of reach.entry.now search ∷ []) }
        ensures consumed { OnOk result (All IsConsumed self.new) }
        ensures err { OnErr result (self.new ≡ self.old) }
    {
        let ReadySearch { state, table } = search;
        let core = Core::start(alloc, reach, state, table, 0)?;
        self.cores.push(core)?;
        Ok(())
    }

    /// The claim of a worker: the first search in which it has one, and the place.
    pub fn held_by(&self, worker: u32) -> Option<Held>
        ensures { result ≡ held_by (machines_of self.now) worker }
    {
        held_by(self.cores.as_slice(), worker)
    }

    /// The core of a search.
    pub fn core(&self, search: u32) -> &Core<'r>
        requires { search < length self.now }
        ensures { slice_get self.now search ≡ Some result.now }
    {
        &self.cores[search as usize]
    }

    /// Whether a worker has a claim in any search.
    pub fn is_busy(&self, worker: u32) -> bool
        ensures { result ≡ is_busy (machines_of self.now) worker }
    {
        is_busy(self.cores.as_slice(), worker)
    }

    /// Whether this claim stands in a search.
    pub fn stands(&self, search: u32, worker: u32, place: u32) -> bool
        ensures { result ≡ is_claimed self.now search worker place }
    {
        match self.cores.as_slice().get(search as usize) {
            Some(core) => core.stands(worker, place),
            None => false,
        }
    }

    /// Claims the best open place of the search that is helped next, for a worker without a claim. After
    /// an error all is as before, and no node is lost.
    pub fn pick(&mut self, worker: u32) -> Result<ManyPick, AllocError>
        requires { is_busy (machines_of self.old) worker ≡ false }
        ensures picks { IfOk result (Picks self.old worker self.new) }
        ensures not_yet { IfOk result (λ pick. (pick ≡ PickValue.NotYet) ↔ AreAllTaken self.old) }
        ensures ended { IfOk result (λ pick. (pick ≡ PickValue.Ended) ↔ HaveAllEnded self.old) }
        ensures consumed { All IsConsumed self.new }
        ensures err { OnErr result (AreSameButNodes self.old self.new) }
    {
        pick(self.cores.as_mut_slice(), worker)
    }

    /// Ends a claim that stands, and puts the outcome of its place into the table of its search, which
    /// goes on as far as its outcomes lead. It returns the workers whose claimed place no path of this
    /// search asks for any more. No other search changes, and an outcome that the search does not wait for
    /// moves its run neither. After an error all is as before, and no node is lost.
    pub fn post(
        &mut self,
        search: u32,
        worker: u32,
        place: u32,
        outcome: Outcome,
    ) -> Result<Withdrawn, AllocError>
        requires { is_claimed self.old search worker place ≡ true }
        ensures event { OnOk result
            (DoesAt self.old search (EventValue.Post worker place outcome) self.new) }
        ensures beside { OnOk result (StaysBesideAt self.old search place self.new) }
        ensures nodes { OnOk result (KeepsGuessesAt self.old search self.new) }
        ensures withdrawn { IfOk result (λ w. AreWithdrawnIn self.new search w.workers.items) }
        ensures ascending { IfOk result (λ w. IsStrictlyIncreasing w.workers.items) }
        ensures consumed { All IsConsumed self.new }
        ensures err { OnErr result (AreSameButNodes self.old self.new) }
    {
        let withdrawn = self.cores[search as usize].post(worker, place, outcome)?;
        Ok(withdrawn)
    }

    /// Puts the outcome of a place that nobody tests in a search, and that has none there, into the table of
    /// this search, which goes on as far as its outcomes lead. No claim ends, and no other search changes. It
    /// returns the workers whose claimed place no path of this search asks for any more. After an error all is
    /// as before, and no node is lost.
    pub fn learn(
        &mut self,
        search: u32,
        place: u32,
        outcome: Outcome,
    ) -> Result<Withdrawn, AllocError>
        requires { IsFreeIn self.old search place }
        ensures learnt { OnOk result (LearnsAt self.old search place outcome self.new) }
        ensures beside { OnOk result (StaysBesideAt self.old search place self.new) }
        ensures nodes { OnOk result (KeepsGuessesAt self.old search self.new) }
        ensures withdrawn { IfOk result (λ w. AreWithdrawnIn self.new search w.workers.items) }
        ensures ascending { IfOk result (λ w. IsStrictlyIncreasing w.workers.items) }
        ensures consumed { All IsConsumed self.new }
        ensures err { OnErr result (AreSameButNodes self.old self.new) }
    {
        let withdrawn = self.cores[search as usize].learn(place, outcome)?;
        Ok(withdrawn)
    }

    /// The searches, ascending, some path of which asks for the outcome of a place, whether a worker tests it
    /// there or not. No node is lost, even after want of memory.
    pub fn wanted(&mut self, place: u32) -> Result<Vec<u32>, AllocError>
        ensures wanted { IfOk result (λ searches. AreWanting self.old place searches.items) }
        ensures ascending { IfOk result (λ searches. IsStrictlyIncreasing searches.items) }
        ensures same { AreSameButNodes self.old self.new }
    {
        let alloc = *self.cores.allocator();
        wanting(alloc, self.cores.as_mut_slice(), place)
    }

    /// Whether nobody tests a place in a search, and its outcome is not known there.
    pub fn is_free(&self, search: u32, place: u32) -> bool
        ensures { IsTrue result ↔ IsFreeIn self.now search place }
    {
        match self.cores.as_slice().get(search as usize) {
            Some(core) => core.is_free(place),
            None => false,
        }
    }

    /// Ends a claim that stands, without an outcome. No other search changes.
    pub fn give(&mut self, search: u32, worker: u32, place: u32)
        requires { is_claimed self.old search worker place ≡ true }
        ensures event { DoesAt self.old search (EventValue.Give worker place) self.new }
        ensures consumed { All IsConsumed self.new }
    {
        self.cores[search as usize].give(worker, place);
    }

    /// Does an event where it is legal, and returns whether it is. Otherwise, and after want of memory,
    /// all is as before, and no node is lost.
    pub(crate) fn apply(&mut self, e: ManyEvent) -> Result<bool, AllocError>
        ensures done { IfOk result (StepsIf self.old e self.new) }
        ensures err { OnErr result (AreSameButNodes self.old self.new) }
    {
        apply(self.cores.as_mut_slice(), e)
    }

    /// A claim that stands, with its search, where there is one.
    pub(crate) fn first_claim(&self) -> Option<(u32, Claim)>
        ensures some { IfSome result (λ found.
            is_claimed self.now found.0 found.1.worker found.1.place ≡ true) }
        ensures none { IfNone result (All (λ core. core.claims ≡ []) self.now) }
    {
        for (index, core) in self.cores.iter().enumerate() {
            if let Some(claim) = core.claims().first() {
                return Some((index as u32, *claim));
            }
        }
        None
    }

    /// The outcomes of each search, by place, where they are known.
    pub(crate) fn into_tables(self, alloc: Global) -> Result<Vec<Table>, AllocError>
        ensures { IfOk result (λ tables. tables.items ≡ map (λ core. core.table) self.entry) }
    {
        let mut tables = Vec::new(alloc);
        for core in self.cores {
            tables.push(core.into_parts().table)?;
        }
        Ok(tables)
    }
}
