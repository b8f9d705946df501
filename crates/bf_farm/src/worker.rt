//! A worker: it picks places, tests them, and posts the outcomes.
//!
//! Paths guess good and bad alone. So a skip may lead to a commit whose test was ended: it is tested again, and the first
//! test's work is lost. At the end of a leg no test is ended that the next leg asks for.
ghost use Rattle.std.specs.Prelude.{◌≡◌};
ghost use Rattle.bf_farm.specs.Reports.{AnswersFollow};
ghost use Rattle.bf_farm.specs.Testers.{IsPart};

use crate::board::Board;
use bf_core::Pick;
use bf_oid::Oid;
use bf_search::Outcome;
use bf_tester::{Host, StopView, TestReply, Tester};
use std::alloc::AllocError;
use std::sync::atomic::{AtomicBool, Ordering};
use std::sync::{Condvar, Mutex, Wait};

/// A worker by its number, with its tester.
#[derive(Drop)]
pub(crate) struct Worker<T: Drop> {
    pub(crate) number: u32,
    pub(crate) tester: T,
}

/// What the workers of a run share.
#[derive(Clone, Copy)]
pub(crate) struct Shared<'a, 'r> {
    /// The board.
    pub(crate) board: &'a Mutex<Board<'r>>,
    /// Told whenever the board has changed.
    pub(crate) changed: &'a Condvar,
    /// For each worker from 1 on, whether its request is withdrawn.
    pub(crate) flags: &'a [AtomicBool],
    /// The names of the commits, by place.
    pub(crate) names: &'a [Oid],
}

/// The flag of a worker.
fn flag_of(flags: &[AtomicBool], worker: u32) -> Option<&AtomicBool> {
    flags.get((worker as usize).checked_sub(1)?)
}

/// Picks for a worker, and waits where it has to. The worker's flag is lowered for its new request.
fn next_pick<R: Wait>(rt: &R, shared: Shared<'_, '_>, worker: u32) -> Result<Pick, AllocError> {
    let mut held = shared.board.lock(rt);
    for _ in rt.forever() {
        match held.pick(worker)? {
            Pick::NotYet => held = shared.changed.wait(rt, held),
            pick => {
                if let Some(flag) = flag_of(shared.flags, worker) {
                    flag.store(false, Ordering::SeqCst);
                }
                return Ok(pick);
            }
        }
    }
    unreachable!()
}

/// Raises the flags of workers whose tests nobody waits for.
fn withdraw(flags: &[AtomicBool], workers: &[u32]) {
    for worker in workers {
        if let Some(flag) = flag_of(flags, *worker) {
            flag.store(true, Ordering::SeqCst);
        }
    }
}

/// Posts an outcome, and returns whether there was memory for it; if not, the claim is given back.
fn post<R: Wait>(
    rt: &R,
    shared: Shared<'_, '_>,
    worker: u32,
    place: u32,
    outcome: Outcome,
) -> bool {
    let mut held = shared.board.lock(rt);
    let posted = match held.post(worker, place, outcome) {
        Ok(withdrawn) => {
            withdraw(shared.flags, withdrawn.workers.as_slice());
            true
        }
        Err(_) => {
            held.give(worker, place);
            false
        }
    };
    shared.changed.notify_all();
    posted
}

/// Gives a claim back.
fn give<R: Wait>(rt: &R, shared: Shared<'_, '_>, worker: u32, place: u32) {
    let mut held = shared.board.lock(rt);
    held.give(worker, place);
    shared.changed.notify_all();
}

/// Tests a claimed place, and returns whether the worker goes on.
fn test_claimed<R: Host, T: Tester>(
    rt: &R,
    shared: Shared<'_, '_>,
    worker: &mut Worker<T>,
    place: u32,
) -> bool
    requires { AnswersFollow (T.told worker.old.tester) (T.answers worker.old.tester) }
    ensures { IsPart T.Tester worker.old.tester worker.new.tester }
{
    let (Some(name), Some(flag)) = (
        shared.names.get(place as usize),
        flag_of(shared.flags, worker.number),
    ) else {
        give(rt, shared, worker.number, place);
        return false;
    };
    match worker
        .tester
        .test(rt, place, *name, &mut StopView::over(flag))
    {
        TestReply::Done(outcome) => post(rt, shared, worker.number, place, outcome),
        reply => {
            give(rt, shared, worker.number, place);
            reply == TestReply::Dropped
        }
    }
}

/// The work of one worker, until the run has ended, a test fails or there is want of memory.
pub(crate) fn work<R: Host, T: Tester>(rt: &R, shared: Shared<'_, '_>, worker: &mut Worker<T>)
    requires { AnswersFollow (T.told worker.old.tester) (T.answers worker.old.tester) }
    ensures { IsPart T.Tester worker.old.tester worker.new.tester }
{
    for _ in rt.forever() {
        let Ok(Pick::Work(place)) = next_pick(rt, shared, worker.number) else {
            return;
        };
        if !test_claimed(rt, shared, worker, place) {
            return;
        }
    }
}
