//! A worker's test has ended, or was lost.
ghost use Rattle.std.specs.Prelude.{◌≡◌, ◌<◌, ◌≤◌, ℕ, List, Ok, Some, length, slice_get, IfOk, OnOk};
ghost use Rattle.bf_core.specs.Machine.{Machine};
ghost use Rattle.bf_many.specs.Cores.{machine_of, machines_of};
ghost use Rattle.bf_many.specs.Many.{FarmMachine, held_by};
ghost use Rattle.bf_serve.specs.declared.opening.Opening.{Opening};
ghost use Rattle.bf_serve.specs.Searches.{needless};
ghost use Rattle.bf_serve.specs.Serving as serving;
ghost use Rattle.bf_serve.specs.Steps.{CanTell, IsServing, KnowsNoLess, Remembers, Serves};
ghost use Rattle.bf_serve.specs.Steps.{StandsAt, TellsChange, others_than, searches_in};

use crate::news::{Subject, put_changed_needless, put_news};
use crate::session::Session;
use crate::standing::{Progress, standing_of};
use bf_graph::Places;
use bf_io::Bytes;
use bf_many::Held;
use bf_protocol::{Refusal, put_done, put_refusal};
use bf_search::Outcome;
use std::alloc::{AllocError, Global};

impl<'r> Session<'r> {
    /// The test of a worker ended so. The worker is looked at before the outcome.
    pub(crate) fn post(
        &mut self,
        worker: u32,
        outcome: Result<Outcome, Refusal>,
        out: &mut Bytes,
    ) -> Result<(), AllocError>
        requires { IsServing self.old }
        ensures { let post = serving.post_turn self.old.history.now in
            OnOk result (Serves (post (searches_in self.old) worker outcome)
            self.old self.new out.old out.new) }
    {
        let Some(held) = self.many.held_by(worker) else {
            return put_refusal(out, Refusal::WorkerHasNoTest);
        };
        match outcome {
            Ok(outcome) => self.post_held(worker, held, outcome, out),
            Err(refusal) => put_refusal(out, refusal),
        }
    }

    /// The test of a worker, whose claim this is, ended so.
    fn post_held(
        &mut self,
        worker: u32,
        held: Held,
        outcome: Outcome,
        out: &mut Bytes,
    ) -> Result<(), AllocError>
        requires serving { IsServing self.old }
        requires held { held_by (machines_of self.old.many) worker ≡ Some held }
        ensures { let post = serving.posted_as self.old.history.now (searches_in self.old) in
            OnOk result (Serves (post worker held (Ok outcome)) self.old self.new out.old out.new) }
    {
        let Held { search, place } = held;
        let outcome = self.openings[search as usize].read(outcome);
        let core = self.many.core(search);
        // What the claims tell is needed: a place that is tested has no outcome.
        let _count = core.claims().len();
        let standing = standing_of(core, self.left[search as usize]);
        let withdrawn = self.many.post(search, worker, place, outcome)?;
        self.tell(search, standing, withdrawn.workers, out)?;
        put_done(out)
    }

    /// The test of a worker was lost.
    pub(crate) fn give(&mut self, worker: u32, out: &mut Bytes) -> Result<(), AllocError>
        requires { IsServing self.old }
        ensures { let give = serving.give_turn self.old.history.now in
            OnOk result
            (Serves (give (searches_in self.old) worker) self.old self.new out.old out.new) }
    {
        let Some(Held { search, place }) = self.many.held_by(worker) else {
            return put_refusal(out, Refusal::WorkerHasNoTest);
        };
        self.many.give(search, worker, place);
        let needless = self.needless[search as usize].as_slice();
        let others = others_of(self.alloc, needless, worker)?;
        self.remember(search, others, out)?;
        put_done(out)
    }

    /// Adds what is told of a search, which stood so before its machine changed, and whose workers these are now whose
    /// commits no path asks for.
    pub(crate) fn tell(
        &mut self,
        search: u32,
        standing: Progress,
        workers: Vec<u32>,
        out: &mut Bytes,
    ) -> Result<(), AllocError>
        requires can { CanTell self.old search workers.items }
        ensures { (opening : Opening) (before : FarmMachine) (core : Machine) →
            slice_get self.old.openings.items search ≡ Some opening →
            slice_get self.old.needless.items search ≡ Some (needless before) →
            slice_get self.old.many search ≡ Some core → StandsAt before standing →
            KnowsNoLess before (machine_of core) →
            OnOk result (TellsChange self.old self.new search opening before (machine_of core)
            out.old out.new) }
    {
        let subject = Subject {
            history: self.history,
            reach: self.reach,
            number: search + 1,
        };
        let core = self.many.core(search);
        // What the claims tell is needed: no worker has two.
        let _count = core.claims().len();
        let opening = &mut self.openings[search as usize];
        let remaining = put_news(subject, opening, standing, core, out)?;
        self.left[search as usize] = remaining;
        self.remember(search, Places::from_vec(self.alloc, workers), out)
    }

    /// Adds the workers of a search whose commits no path asks for, where they have changed, and remembers them.
    fn remember(&mut self, search: u32, workers: Places, out: &mut Bytes) -> Result<(), AllocError>
        requires below { search < length self.old.needless.items }
        requires few { length self.old.needless.items ≤ 64 }
        ensures { (before : List ℕ) →
            slice_get self.old.needless.items search ≡ Some before →
            OnOk result (Remembers self.old self.new search before workers out.old out.new) }
    {
        let before = self.needless[search as usize].as_slice();
        put_changed_needless(out, search + 1, before, workers.as_slice())?;
        self.needless[search as usize] = workers;
        self.lull = None;
        Ok(())
    }
}

/// The other workers.
fn others_of(alloc: Global, workers: &[u32], worker: u32) -> Result<Places, AllocError>
    ensures { IfOk result (λ others. others ≡ others_than worker workers.now) }
{
    let mut others = Places::new(alloc);
    for other in workers {
        if *other != worker {
            others.push(*other)?;
        }
    }
    Ok(others)
}
