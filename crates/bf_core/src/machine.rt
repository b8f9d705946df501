//! The core of the farm.
ghost use Rattle.std.specs.Prelude.{◌≡◌, ◌≢◌, ◌↔◌, ◌<◌, ℕ, [], length, true, false, Some, None, Err, Contains, IfOk, OnOk, OnErr, IsTrue, IsSome};
ghost use Rattle.std.specs.List.Sorted.{IsStrictlyIncreasing};
ghost use Rattle.bf_search.specs.declared.farm.Event.{Event as EventValue};
ghost use Rattle.bf_search.specs.Farm.{has_claim, best_place, stands, without, step};
ghost use Rattle.std.specs.Option.{is_some, option_copied};
ghost use Rattle.bf_search.specs.OpenPaths.{is_claimed};
ghost use Rattle.bf_search.specs.Outcomes.{outcomes_of_table};
ghost use Rattle.bf_state.specs.Runs.{is_open};
ghost use Rattle.bf_state.specs.Ends.{HasEnds};
ghost use Rattle.bf_core.specs.Claims.{AreClaims, IsFree, KeepsNodes};
ghost use Rattle.bf_core.specs.Machine.{setting_of, farm_of, run_of, IsConsumed, IsStarted, IsStep, IsLearnt, IsSameButNodes};
ghost use Rattle.bf_core.specs.Machine.{IsAllTaken, ClaimsWork, LeavesPick, HasBestNode, KeepsGuesses};
ghost use Rattle.bf_core.specs.Machine.{StaysBeside, AreWithdrawn, WantsOutcome, RefusesIllegal, IsLegOver, IsOverGraph};
ghost use Rattle.bf_core.specs.Machine.{ClaimsIf, LeavesRestIf, IsIllegalUnless, LeavesClaim, MayClaim, StaysIfIllegal};

use crate::answers::{ApplyFault, CoreParts, Pick, Withdrawn};
use crate::claims::{asked_of, end_claim, has_claim, is_claimed, is_free, stands, without};
use crate::consuming::Consumed;
use bf_reach::Reach;
use bf_search::{Claim, Ending, Entry, Event, Mark, Outcome};
use bf_spec::{SpecTree, Table};
use bf_state::State;
use std::alloc::{AllocError, Global};
use std::marker::Model;
use std::snapshot::Snapshot;

/// A search whose commits several workers test.
///
/// It keeps the run that tests one commit at a time on the outcomes that are known, whatever order they
/// came in: its log entries, the search that it reached, and how it ended, where it has. Contracts see
/// these with the graph, the session and the length of the legs that it started with, the table, the
/// claims that stand, and the paths of guesses that are kept.
#[derive(Drop)]
pub struct Core<'r> {
    alloc: Global,
    /// The search that it started with, which clauses alone read.
    first: Snapshot<State>,
    /// The marks of a leg, or 0.
    leg: u32,
    /// The outcomes by place, where they are known.
    table: Table,
    /// The claims that stand, in the order in which they were made.
    claims: Vec<Claim>,
    /// The run on the table.
    run: Consumed<'r>,
}

impl<'r> Model for Core<'r> {
    ghost use Rattle.bf_core.specs.Machine.{Machine};

    ghost Value = { Machine };

    ghost use Rattle.bf_core.specs.Consuming.{IsCore};
    ghost use Rattle.bf_core.specs.Machine.{seen};

    ghost view = { λ c. seen c.first.value c.leg c.table c.claims.items c.run };

    ghost invariant = { λ c. IsCore c.first.value c.leg c.table c.claims.items c.run };
}

impl<'r> Core<'r> {
    /// A core on a table, which has consumed it: the run goes as far as the outcomes lead. Both ends of
    /// the search are known. The run ends after `leg` marks, or not by their number where `leg` is 0.
    pub fn start(
        alloc: Global,
        reach: &'r Reach,
        state: State,
        table: Table,
        leg: u32,
    ) -> Result<Core<'r>, AllocError>
        requires len { length reach.now ≡ state.len }
        requires table { length table ≡ state.len }
        requires ends { HasEnds state.search }
        ensures started { IfOk result (IsStarted reach.entry.now state table leg) }
        ensures consumed { IfOk result IsConsumed }
    {
        prove!(reach.len() == state.len());
        let first = Snapshot::of(&state);
        let tree = SpecTree::new(alloc, reach, state)?;
        let run = Consumed::begin(alloc, tree, &table, leg)?;
        Ok(Core {
            alloc,
            first,
            leg,
            table,
            claims: Vec::new(alloc),
            run,
        })
    }

    /// The log entries of the run, without the one that began the search.
    pub fn entries(&self) -> &[Entry]
        ensures entries { result.now ≡ self.now.entries }
        ensures consumed { IsConsumed self.now }
    {
        self.run.entries.as_slice()
    }

    /// The search that the run reached.
    pub fn state(&self) -> &State
        ensures state { result.now ≡ self.now.state }
        ensures consumed { IsConsumed self.now }
    {
        &self.run.state
    }

    /// How the run ended. It is none exactly while the run waits for an outcome, and `Leg` exactly where a
    /// leg has an end and so many marks were made.
    pub fn ending(&self) -> Option<&Ending>
        ensures ending { option_copied result ≡ self.now.ending }
        ensures none { (self.now.ending ≡ None) ↔ (is_open (run_of self.now).end ≡ true) }
        ensures leg { (self.now.ending ≡ Some Ending.Leg) ↔ IsLegOver self.now }
        ensures consumed { IsConsumed self.now }
    {
        self.run.ending.as_ref()
    }

    /// The claims that stand, in the order in which they were made.
    pub fn claims(&self) -> &[Claim]
        ensures claims { result.now ≡ self.now.claims }
        ensures standing { AreClaims self.now.table self.now.claims }
    {
        self.claims.as_slice()
    }

    /// The outcomes by place, where they are known.
    pub fn table(&self) -> &Table
        ensures { result.now ≡ self.now.table }
    {
        &self.table
    }

    /// Hands over what the other calls see, without the claims.
    pub fn into_parts(self) -> CoreParts
        ensures entries { result.entries.items ≡ self.entry.entries }
        ensures state { result.state ≡ self.entry.state }
        ensures ending { result.ending ≡ self.entry.ending }
        ensures table { result.table ≡ self.entry.table }
        ensures consumed { IsConsumed self.entry }
        ensures over { IsOverGraph (setting_of self.entry) }
    {
        let Core {
            alloc: _,
            first: _,
            leg: _,
            table,
            claims: _,
            run,
        } = self;
        let Consumed {
            tree: _,
            entries,
            state,
            ending,
            left: _,
        } = run;
        CoreParts {
            entries,
            state,
            ending,
            table,
        }
    }

    /// Whether a path of guesses from where the run stands has a node in the tree of guesses.
    pub fn has_node(&self, path: &[Mark]) -> bool
        ensures { IsTrue result ↔ Contains self.now.paths path.now }
    {
        self.run.tree.has_node(path)
    }

    /// The best open place, which [`Core::pick`] would claim. There is none where the run has ended, nor
    /// where no path is open. No node is lost, even after want of memory.
    pub fn best_place(&mut self) -> Result<Option<u32>, AllocError>
        ensures best { IfOk result (λ best.
            best ≡ best_place (setting_of self.old) (farm_of self.old)) }
        ensures answer { OnOk result (HasBestNode self.old self.new) }
        ensures consumed { IsConsumed self.new }
        ensures same { IsSameButNodes self.old self.new }
    {
        self.run.best(&self.table, self.claims.as_slice())
    }

    /// Claims the best open place for a worker without a claim. No node is lost, and the path of the
    /// claimed place has one. After an error all else is as before.
    pub fn pick(&mut self, worker: u32) -> Result<Pick, AllocError>
        requires { has_claim self.old.claims worker ≡ false }
        ensures work { IfOk result (ClaimsWork self.old worker self.new) }
        ensures not_yet { IfOk result (λ pick. (pick ≡ Pick.NotYet) ↔ IsAllTaken self.old) }
        ensures ended { IfOk result (λ pick. (pick ≡ Pick.Ended) ↔ IsSome self.old.ending) }
        ensures rest { IfOk result (LeavesPick self.old worker self.new) }
        ensures nodes { KeepsNodes self.old.paths [] self.new.paths }
        ensures answer { OnOk result (HasBestNode self.old self.new) }
        ensures err { OnErr result (IsSameButNodes self.old self.new) }
    {
        if self.run.ending.is_some() {
            return Ok(Pick::Ended);
        }
        match self.run.best(&self.table, self.claims.as_slice())? {
            None => Ok(Pick::NotYet),
            Some(place) => {
                let claim = Claim { worker, place };
                self.claims.push(claim)?;
                Ok(Pick::Work(place))
            }
        }
    }

    /// Ends a claim that stands, and puts the outcome of its place into the table. The run goes on as far
    /// as the outcomes lead. It returns the workers whose claimed place no path asks for any more. After an
    /// error all is as before, and no node is lost.
    pub fn post(
        &mut self,
        worker: u32,
        place: u32,
        outcome: Outcome,
    ) -> Result<Withdrawn, AllocError>
        requires { stands self.old.claims worker place ≡ true }
        ensures event { OnOk result (IsStep self.old (Event.Post worker place outcome) self.new) }
        ensures consumed { IsConsumed self.new }
        ensures beside { OnOk result (StaysBeside self.old place self.new) }
        ensures withdrawn { IfOk result (λ w. AreWithdrawn self.new w.workers.items) }
        ensures ascending { IfOk result (λ w. IsStrictlyIncreasing w.workers.items) }
        ensures nodes { OnOk result (KeepsGuesses self.old self.new) }
        ensures err { OnErr result (IsSameButNodes self.old self.new) }
    {
        self.put(worker, place, outcome, true)
    }

    /// As `post`, which returns nobody unless it is asked whose tests are wanted.
    fn put(
        &mut self,
        worker: u32,
        place: u32,
        outcome: Outcome,
        asks: bool,
    ) -> Result<Withdrawn, AllocError>
        requires { stands self.old.claims worker place ≡ true }
        ensures event { OnOk result (IsStep self.old (Event.Post worker place outcome) self.new) }
        ensures consumed { IsConsumed self.new }
        ensures beside { OnOk result (StaysBeside self.old place self.new) }
        ensures withdrawn { asks ≡ true →
            IfOk result (λ w. AreWithdrawn self.new w.workers.items) }
        ensures ascending { IfOk result (λ w. IsStrictlyIncreasing w.workers.items) }
        ensures nodes { OnOk result (KeepsGuesses self.old self.new) }
        ensures err { OnErr result (IsSameButNodes self.old self.new) }
    {
        let others = without(self.alloc, self.claims.as_slice(), worker)?;
        let asked = asked_of(others.as_slice(), asks);
        let known = (place, outcome);
        let workers = self.run.learn(self.alloc, &mut self.table, known, asked)?;
        self.claims = others;
        Ok(Withdrawn { workers })
    }

    /// Puts the outcome of a place that nobody tests and that has none into the table. The claims stand as
    /// they were, and the run goes on as far as the outcomes lead. It returns the workers whose claimed place no
    /// path asks for any more. After an error all is as before, and no node is lost.
    pub fn learn(&mut self, place: u32, outcome: Outcome) -> Result<Withdrawn, AllocError>
        requires { IsFree (length self.old.table) (outcomes_of_table self.old.table)
            self.old.claims place }
        ensures learnt { OnOk result (IsLearnt self.old place outcome self.new) }
        ensures consumed { IsConsumed self.new }
        ensures beside { OnOk result (StaysBeside self.old place self.new) }
        ensures withdrawn { IfOk result (λ w. AreWithdrawn self.new w.workers.items) }
        ensures ascending { IfOk result (λ w. IsStrictlyIncreasing w.workers.items) }
        ensures nodes { OnOk result (KeepsGuesses self.old self.new) }
        ensures err { OnErr result (IsSameButNodes self.old self.new) }
    {
        let known = (place, outcome);
        let claims = self.claims.as_slice();
        let workers = self.run.learn(self.alloc, &mut self.table, known, claims)?;
        Ok(Withdrawn { workers })
    }

    /// Whether some path asks for the outcome of a place, whether a worker tests it or not. None does where
    /// the search has ended, nor where the outcome is known. No node is lost, even after want of memory.
    pub fn wants(&mut self, place: u32) -> Result<bool, AllocError>
        ensures wanted { IfOk result (λ wanted.
            IsTrue wanted ↔ WantsOutcome self.old place) }
        ensures same { IsSameButNodes self.old self.new }
    {
        if place >= self.table.len() || self.has_outcome(place) {
            return Ok(false);
        }
        self.run.asks(&self.table, place)
    }

    /// Ends a claim that stands, without an outcome.
    pub fn give(&mut self, worker: u32, place: u32)
        requires { stands self.old.claims worker place ≡ true }
        ensures event { IsStep self.old (Event.Give worker place) self.new }
        ensures rest { self.new ≡ record self.old { claims = without self.old.claims worker } }
        ensures consumed { IsConsumed self.new }
    {
        end_claim(&mut self.claims, worker);
    }

    /// Whether a worker has a claim.
    pub fn has_claim(&self, worker: u32) -> bool
        ensures { result ≡ has_claim self.now.claims worker }
    {
        has_claim(self.claims.as_slice(), worker)
    }

    /// Whether this claim stands.
    pub fn stands(&self, worker: u32, place: u32) -> bool
        ensures { result ≡ stands self.now.claims worker place }
    {
        stands(self.claims.as_slice(), worker, place)
    }

    /// Whether the outcome of a place is known.
    pub fn has_outcome(&self, place: u32) -> bool
        ensures { result ≡ is_some (outcomes_of_table self.now.table place) }
    {
        place < self.table.len() && self.table.get(place).is_some()
    }

    /// Whether a worker tests a place.
    pub fn is_under_test(&self, place: u32) -> bool
        ensures { result ≡ is_claimed self.now.claims place }
    {
        is_claimed(self.claims.as_slice(), place)
    }

    /// Whether nobody tests a place, and its outcome is not known.
    pub fn is_free(&self, place: u32) -> bool
        ensures { IsTrue result ↔ IsFree (length self.now.table)
            (outcomes_of_table self.now.table) self.now.claims place }
    {
        is_free(&self.table, self.claims.as_slice(), place)
    }

    /// Does an event where it is legal. It is refused exactly where it is not, and then all is as before;
    /// a claim that was refused as another place is the best open one may have added nodes. After want of
    /// memory all but nodes is as before, and none is lost.
    pub fn apply(&mut self, event: Event) -> Result<(), ApplyFault>
        ensures ok { OnOk result (IsStep self.old event self.new) }
        ensures illegal { RefusesIllegal self.old event result }
        ensures unchanged { StaysIfIllegal self.old event self.new result }
        ensures consumed { OnOk result (IsConsumed self.new) }
        ensures nodes { OnOk result (KeepsGuesses self.old self.new) }
        ensures err { OnErr result (IsSameButNodes self.old self.new) }
    {
        match event {
            Event::Claim { worker, place } => {
                if !self.claim(worker, place)? {
                    return Err(ApplyFault::Illegal { event });
                }
            }
            Event::Post {
                worker,
                place,
                outcome,
            } => {
                if !self.stands(worker, place) {
                    return Err(ApplyFault::Illegal { event });
                }
                self.put(worker, place, outcome, false)?;
            }
            Event::Give { worker, place } => {
                if !self.stands(worker, place) {
                    return Err(ApplyFault::Illegal { event });
                }
                self.give(worker, place);
            }
        }
        Ok(())
    }

    /// Claims a place for a worker where that is legal, and returns whether it is. After an error all is as
    /// before, and no node is lost.
    fn claim(&mut self, worker: u32, place: u32) -> Result<bool, AllocError>
        ensures claimed { IfOk result (ClaimsIf self.old worker place self.new) }
        ensures rest { IfOk result (LeavesRestIf self.old self.new) }
        ensures illegal { IfOk result (IsIllegalUnless self.old worker place) }
        ensures refused { IfOk result (λ done. done ≡ false →
            LeavesClaim self.old worker place self.new) }
        ensures consumed { IsConsumed self.new }
        ensures nodes { KeepsNodes self.old.paths [] self.new.paths }
        ensures err { OnErr result (IsSameButNodes self.old self.new) }
    {
        if !self.may_claim(worker, place) {
            return Ok(false);
        }
        if self.run.best(&self.table, self.claims.as_slice())? != Some(place) {
            return Ok(false);
        }
        self.claims.push(Claim { worker, place })?;
        Ok(true)
    }

    /// Whether a claim may be legal: the run goes on, the worker has no claim, and the place is free.
    fn may_claim(&self, worker: u32, place: u32) -> bool
        ensures { IsTrue result ↔ MayClaim self.now worker place }
    {
        let claims = self.claims.as_slice();
        self.run.ending.is_none()
            && !has_claim(claims, worker)
            && is_free(&self.table, claims, place)
    }
}
