//! The replay of what the workers did, on a board of one's own.
//!
//! A thread is handed the lock of a board, and knows its type alone. So nothing is known of what the threads did. The
//! calling thread looks at the stored events before it absorbs the testers: only then can it ask each for its answers. Then
//! it does these events again.
ghost use Rattle.std.specs.Prelude.{◌≡◌, ◌++◌, true, length, IfSome, OnOk};
ghost use Rattle.bf_farm.specs.Cores.{IsSameStart, IsSameLength};
ghost use Rattle.bf_farm.specs.Doers.{AreDoneBy};
ghost use Rattle.bf_farm.specs.Posts.{posts_by, ArePostsInOrder, IsNextAnswer, SeesEvent};
ghost use Rattle.bf_farm.specs.Sound.{KeepsSoundWith};
ghost use Rattle.bf_farm.specs.Workers.{AnswersArePosts, AreAllPosted};

use crate::board::Board;
use crate::doers::is_by_one_of;
use crate::worker::Worker;
use bf_oid::Oid;
use bf_search::{Event, Outcome};
use bf_tester::{Answer, Tester};
use std::alloc::AllocError;

/// Whether the answer of a worker's tester at `seen` is this outcome of this place.
fn has_answer<T: Tester>(
    worker: &Worker<T>,
    seen: usize,
    names: &[Oid],
    place: u32,
    outcome: Outcome,
) -> bool
    ensures { result ≡ true →
        IsNextAnswer names.now (T.answers worker.now.tester) seen place outcome }
{
    let (Some(answer), Some(name)) = (worker.tester.answer(seen), names.get(place as usize)) else {
        return false;
    };
    answer.is_same(&Answer {
        place,
        name: *name,
        outcome,
    })
}

/// How many answers of a worker were seen as its posts after an event, where `seen` were before. It is `None` where
/// the worker posted what is not its next answer.
fn seen_after<T: Tester>(
    worker: &Worker<T>,
    number: usize,
    seen: usize,
    names: &[Oid],
    event: Event,
) -> Option<usize>
    ensures { IfSome result
        (SeesEvent names.now (T.answers worker.now.tester) number event seen) }
{
    match event {
        Event::Post {
            worker: poster,
            place,
            outcome,
        } => {
            if poster as usize != number {
                return Some(seen);
            }
            if !has_answer(worker, seen, names, place, outcome) {
                return None;
            }
            seen.checked_add(1)
        }
        Event::Claim { .. } | Event::Give { .. } => Some(seen),
    }
}

/// Whether the answers of a worker are its posts, in order, and no others.
fn is_posted<T: Tester>(worker: &Worker<T>, number: usize, names: &[Oid], events: &[Event]) -> bool
    ensures { result ≡ true → ArePostsInOrder names.now (posts_by number events.now)
        (T.answers worker.now.tester) }
{
    let mut seen: usize = 0;
    for event in events {
        match seen_after(worker, number, seen, names, *event) {
            Some(now) => seen = now,
            None => return false,
        }
    }
    worker.tester.answer(seen).is_none()
}

/// Whether the answers of each worker are its posts.
fn is_each_posted<T: Tester>(workers: &[Worker<T>], names: &[Oid], events: &[Event]) -> bool
    ensures { result ≡ true → AnswersArePosts T.Tester workers.now names.now events.now (length workers.now) }
{
    for index in 0..workers.len() {
        if !is_posted(&workers[index], index + 1, names, events) {
            return false;
        }
    }
    true
}

/// Whether so many workers did these events.
fn are_done_by(workers: usize, events: &[Event]) -> bool
    ensures { result ≡ true → AreDoneBy workers events.now }
{
    for event in events {
        if !is_by_one_of(workers, *event) {
            return false;
        }
    }
    true
}

/// Whether these workers did the events, and the answers of each are its posts. A post that finds no memory leaves an answer
/// that is none.
pub(crate) fn are_all_posted<T: Tester>(
    workers: &[Worker<T>],
    names: &[Oid],
    events: &[Event],
) -> bool
    ensures { result ≡ true → AreAllPosted T.Tester workers.now names.now events.now }
{
    are_done_by(workers.len(), events) && is_each_posted(workers, names, events)
}

/// Does events again. A board has none that is not legal, so one that is not is taken for want of memory.
pub(crate) fn replay(board: &mut Board<'_>, events: &[Event]) -> Result<(), AllocError>
    ensures start { OnOk result (IsSameStart board.old.core board.new.core) }
    ensures first { OnOk result (board.new.first ≡ board.old.first) }
    ensures len { OnOk result (IsSameLength board.old.core board.new.core) }
    ensures sound { OnOk result (KeepsSoundWith events.now board.old board.new) }
    ensures done { OnOk result (board.new.events ≡ board.old.events ++ events.now) }
{
    for event in events {
        if !board.redo(*event)? {
            return Err(AllocError);
        }
    }
    Ok(())
}
