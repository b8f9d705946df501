//! What workers share behind a lock.
ghost use Rattle.std.specs.Prelude.{◌≡◌, ◌<◌, ◌≤◌, ◌+◌, true, false, [], ◌∷◌, ◌++◌, length, IfOk, OnOk, OnErr, IfSome, IfNone, vec_len, vec_capacity};
ghost use Rattle.bf_state.specs.Ends.{HasEnds};
ghost use Rattle.bf_search.specs.Farm.{stands, has_claim};
ghost use Rattle.bf_core.specs.Machine.{IsOverGraph};
ghost use Rattle.bf_farm.specs.Boards.{unclaimed, StartsFrom, IsLed, IsStanding, IsSameBoard, DoesIf, PicksAsClaimed, PicksNew};
ghost use Rattle.bf_farm.specs.Boards.{claimed_by, is_claimed, PostsIfClaimed, GivesIfClaimed};
ghost use Rattle.bf_farm.specs.Cores.{run_of, state_of};
ghost use Rattle.bf_farm.specs.Cores.{AreWithdrawn, IsAscending, WithdrawsNone};
ghost use Rattle.bf_farm.specs.Sound.{GivesBack};
ghost use Rattle.bf_spec.specs.Walks.{Tells};

use bf_core::{ApplyFault, Core, CoreParts, Pick, Withdrawn};
use bf_reach::Reach;
use bf_search::{Claim, Event, Outcome};
use bf_spec::Table;
use bf_state::State;
use std::alloc::{AllocError, Global};
use std::marker::Model;
use std::snapshot::Snapshot;

/// What workers share: a core, and each event that led to it. Contracts see the core, the table that it
/// began with, the events and the room for more of them.
///
/// The events are legal, each at its point, from the first table, and lead to the core. There is room
/// for one event more for each claim that stands, so a claim can always be ended.
#[derive(Drop)]
pub struct Board<'r> {
    alloc: Global,
    core: Core<'r>,
    /// The table that it began with, which clauses alone read.
    first: Snapshot<Table>,
    events: Vec<Event>,
}

impl<'r> Model for Board<'r> {
    ghost use Rattle.std.specs.Prelude.{◌≤◌, ◌+◌, ◌-◌, length, vec_len, vec_capacity};
    ghost use Rattle.bf_farm.specs.Boards.{BoardView, LeadsToCore};
    ghost use Rattle.bf_farm.specs.Cores.{view_of};

    ghost Value = { BoardView };

    ghost view = { λ b. record {
      core = view_of b.core;
      first = b.first.value;
      events = b.events.items;
      spare = vec_capacity b.events - vec_len b.events;
    } };

    ghost invariant = { λ b. LeadsToCore b.first.value b.events.items b.core
        × (vec_len b.events + length b.core.claims ≤ vec_capacity b.events) };
}

impl<'r> Board<'r> {
    /// A board over the graph of `reach`, with the outcomes of a table, in legs of `leg` marks; 0 stands
    /// for no legs. Both ends of the state are known.
    pub fn start(
        alloc: Global,
        reach: &'r Reach,
        state: State,
        table: Table,
        leg: u32,
    ) -> Result<Board<'r>, AllocError>
        requires reach { length reach.now ≡ state.len }
        requires table { length table ≡ state.len }
        requires ends { HasEnds state.search }
        ensures setting { IfOk result (StartsFrom reach.entry.now state leg) }
        ensures state { IfOk result (λ board. board.core.first ≡ state) }
        ensures farm { IfOk result (λ board. board.core.farm ≡ unclaimed table) }
        ensures first { IfOk result (λ board. board.first ≡ table) }
        ensures events { IfOk result (λ board. board.events ≡ []) }
    {
        let first = Snapshot::of(&table);
        let core = Core::start(alloc, reach, state, table, leg)?;
        Ok(Board {
            alloc,
            core,
            first,
            events: Vec::new(alloc),
        })
    }

    /// What a worker is to do. One with a claim is to go on with it; any other claims the best open place,
    /// where there is one. After want of memory nothing but the room has changed.
    #[tactic(auto, using(crate::proofs::History::no_claim))]
    pub fn pick(&mut self, worker: u32) -> Result<Pick, AllocError>
        ensures pick { IfOk result (PicksAsClaimed self.old self.new worker) }
        ensures err { OnErr result (IsSameBoard self.old self.new) }
    {
        match claim_of(self.core.claims(), worker) {
            Some(place) => Ok(Pick::Work(place)),
            None => self.claim(worker),
        }
    }

    /// Claims the best open place for a worker without a claim.
    fn claim(&mut self, worker: u32) -> Result<Pick, AllocError>
        requires { has_claim self.old.core.farm.claims worker ≡ false }
        ensures pick { IfOk result (PicksNew self.old self.new worker) }
        ensures err { OnErr result (IsSameBoard self.old self.new) }
    {
        if self.core.ending().is_some() {
            return Ok(Pick::Ended);
        }
        self.events
            .reserve(self.core.claims().len().saturating_add(2))?;
        let pick = self.core.pick(worker)?;
        if let Pick::Work(place) = pick {
            note(&mut self.events, Event::Claim { worker, place });
        }
        Ok(pick)
    }

    /// Does an event again where it is legal, and returns whether it is. An event that is not legal
    /// changes nothing but the room, and so does want of memory.
    pub(crate) fn redo(&mut self, event: Event) -> Result<bool, AllocError>
        ensures done { IfOk result (λ legal. DoesIf legal self.old self.new event) }
        ensures err { OnErr result (IsSameBoard self.old self.new) }
    {
        self.events
            .reserve(self.core.claims().len().saturating_add(2))?;
        match self.core.apply(event) {
            Ok(()) => {
                note(&mut self.events, event);
                Ok(true)
            }
            Err(ApplyFault::Illegal { .. }) => Ok(false),
            Err(ApplyFault::NoMemory) => Err(AllocError),
        }
    }

    /// Gives all claims that stand back.
    pub(crate) fn give_all(&mut self)
        ensures claims { self.new.core.farm ≡ unclaimed self.old.core.farm.table }
        ensures given { GivesBack self.old self.new }
    {
        while let Some(claim) = self.first_claim() {
            self.give(claim.worker, claim.place);
        }
    }

    /// The oldest claim that stands.
    pub(crate) fn first_claim(&self) -> Option<Claim>
        ensures within { IfSome result (λ claim. claim.place < length self.now.core.farm.table) }
        ensures some { IfSome result (IsStanding self.now) }
        ensures none { IfNone result (self.now.core.farm.claims ≡ []) }
        ensures led { IsLed self.now }
    {
        self.core.claims().first().copied()
    }

    /// The parts of the core, and the events.
    pub(crate) fn into_parts(self) -> (CoreParts, Vec<Event>)
        ensures entries { result.0.entries.items ≡ (run_of self.entry.core).entries }
        ensures state { result.0.state ≡ state_of self.entry.core }
        ensures ending { Tells result.0.ending (run_of self.entry.core).end }
        ensures table { result.0.table ≡ self.entry.core.farm.table }
        ensures over { IsOverGraph self.entry.core.setting }
        ensures events { result.1.items ≡ self.entry.events }
        ensures history { IsLed self.entry }
    {
        (self.core.into_parts(), self.events)
    }

    /// The events so far.
    pub(crate) fn into_events(self) -> Vec<Event>
        ensures { result.items ≡ self.entry.events }
    {
        self.events
    }

    /// Ends the test of a claimed place with its outcome, and returns the workers whose tests nobody waits
    /// for any more, ascending. Where the claim does not stand nothing changes, and the list is empty.
    #[tactic(auto, using(crate::proofs::Seen::withdrawn_seen))]
    pub fn post(
        &mut self,
        worker: u32,
        place: u32,
        outcome: Outcome,
    ) -> Result<Withdrawn, AllocError>
        ensures done { OnOk result (PostsIfClaimed self.old self.new worker place outcome) }
        ensures withdrawn { is_claimed self.old worker place ≡ true →
            IfOk result (λ withdrawn. AreWithdrawn self.new.core withdrawn.workers.items) }
        ensures ascending { IfOk result IsAscending }
        ensures none { is_claimed self.old worker place ≡ false → IfOk result WithdrawsNone }
        ensures err { OnErr result (IsSameBoard self.old self.new) }
    {
        if !stands(self.core.claims(), worker, place) {
            return Ok(Withdrawn {
                workers: Vec::new(self.alloc),
            });
        }
        let withdrawn = self.core.post(worker, place, outcome)?;
        note(
            &mut self.events,
            Event::Post {
                worker,
                place,
                outcome,
            },
        );
        Ok(withdrawn)
    }

    /// Gives a claimed place back untested. Where the claim does not stand nothing changes. It takes no
    /// memory.
    pub fn give(&mut self, worker: u32, place: u32)
        ensures { GivesIfClaimed self.old self.new worker place }
    {
        if stands(self.core.claims(), worker, place) {
            self.core.give(worker, place);
            note(&mut self.events, Event::Give { worker, place });
        }
    }
}

/// Notes an event, for which there is room.
fn note(events: &mut Vec<Event>, event: Event)
    requires { vec_len events.old < vec_capacity events.old }
    ensures noted { events.new.items ≡ events.old.items ++ event ∷ [] }
    ensures len { vec_len events.new ≡ vec_len events.old + 1 }
    ensures room { vec_capacity events.old ≤ vec_capacity events.new }
{
    events.push(event).unwrap();
}

/// The place that a worker has claimed.
fn claim_of(claims: &[Claim], worker: u32) -> Option<u32>
    ensures { result ≡ claimed_by claims.now worker }
{
    for claim in claims {
        if claim.worker == worker {
            return Some(claim.place);
        }
    }
    None
}

/// Whether this claim stands.
fn stands(claims: &[Claim], worker: u32, place: u32) -> bool
    ensures { result ≡ stands claims.now worker place }
{
    claims
        .iter()
        .any(|claim| claim.worker == worker && claim.place == place)
}
