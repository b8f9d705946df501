//! Who does what.
ghost use Rattle.std.specs.Prelude.{◌≡◌, ◌↔◌, IsTrue};
ghost use Rattle.bf_farm.specs.Doers.{IsOneOf, worker_of};

use bf_search::Event;

/// The number of the worker that an event names.
fn worker_of(event: Event) -> u32
    ensures { result ≡ worker_of event }
{
    match event {
        Event::Claim { worker, .. } => worker,
        Event::Post { worker, .. } => worker,
        Event::Give { worker, .. } => worker,
    }
}

/// Whether an event names one of so many workers, who are numbered from 1.
pub fn is_by_one_of(workers: usize, event: Event) -> bool
    ensures { IsTrue result ↔ IsOneOf workers (worker_of event) }
{
    let worker = worker_of(event) as usize;
    1 <= worker && worker <= workers
}
