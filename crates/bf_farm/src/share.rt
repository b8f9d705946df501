//! The threads of a run.
ghost use Rattle.std.specs.Prelude.{◌≡◌, [], length, All, IfOk};
ghost use Rattle.bf_farm.specs.Reports.{AnswersFollow};
ghost use Rattle.bf_farm.specs.Testers.{IsPart};
ghost use Rattle.bf_farm.specs.Workers.{AreOfManner, TestedMore};

use crate::board::Board;
use crate::worker::{Shared, Worker, work};
use bf_oid::Oid;
use bf_search::Event;
use bf_tester::{Host, Tester};
use std::alloc::{AllocError, Global};
use std::sync::atomic::AtomicBool;
use std::sync::{Condvar, Mutex};
use std::thread;

/// Workers from 1 on, each with a tester that is split off.
pub(crate) fn split_all<T: Tester>(
    alloc: Global,
    tester: &T,
    count: u32,
) -> Result<Vec<Worker<T>>, AllocError>
    ensures manner { IfOk result (λ workers. AreOfManner T.Tester tester.now workers.items) }
    ensures answers { IfOk result (λ workers. All (λ w. T.answers w.tester ≡ []) workers.items) }
    ensures count { IfOk result (λ workers. length workers.items ≡ count) }
{
    let mut workers = Vec::new(alloc);
    for index in 0..count {
        let worker = Worker {
            number: index + 1,
            tester: tester.split()?,
        };
        workers.push(worker)?;
    }
    Ok(workers)
}

/// So many flags, all lowered.
pub(crate) fn lowered(alloc: Global, count: u32) -> Result<Vec<AtomicBool>, AllocError> {
    let mut flags = Vec::new(alloc);
    for _ in 0..count {
        flags.push(AtomicBool::new(false))?;
    }
    Ok(flags)
}

/// Runs each worker in a thread.
fn share_out<R: Host, T: Tester>(rt: &R, shared: Shared<'_, '_>, workers: &mut [Worker<T>])
    requires { All (λ w. AnswersFollow (T.told w.tester) (T.answers w.tester)) workers.old }
    ensures { TestedMore T.Tester workers.old workers.new }
{
    let part = |_: usize, worker: &mut Worker<T>|
        requires { AnswersFollow (T.told worker.now.tester) (T.answers worker.now.tester) }
        ensures { IsPart T.Tester worker.entry.now.tester worker.exit.now.tester }
    { work(rt, shared, worker) };
    let threads = workers.len().max(1);
    thread::for_each_mut(rt, workers, threads, &part);
}

/// Runs the workers over a board, and returns the events that it then has. Nothing more is known of them.
pub(crate) fn run_workers<R: Host, T: Tester>(
    rt: &R,
    board: Board<'_>,
    flags: &[AtomicBool],
    names: &[Oid],
    workers: &mut [Worker<T>],
) -> Vec<Event>
    requires { All (λ w. AnswersFollow (T.told w.tester) (T.answers w.tester)) workers.old }
    ensures { TestedMore T.Tester workers.old workers.new }
{
    let board = Mutex::new(board);
    let changed = Condvar::new();
    let shared = Shared {
        board: &board,
        changed: &changed,
        flags,
        names,
    };
    share_out(rt, shared, workers);
    board.into_inner().into_events()
}
