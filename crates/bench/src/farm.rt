//! What workers do in a search.
use crate::history::{Shape, history};
use bf_core::{Core, Pick};
use bf_reach::Reach;
use bf_search::Outcome;
use bf_spec::Table;
use bf_state::State;
use bf_terms::Terms;
use std::alloc::{AllocError, Global};

/// What is to be done.
#[derive(Clone, Copy)]
pub enum Task {
    /// Nothing, so that the history alone is made.
    Builds,
    /// The search is made.
    Waits,
    /// Each worker picks a place.
    Picks,
    /// Then one of them posts a good outcome.
    Posts,
    /// The workers pick and post until the run has ended.
    Runs,
    /// They post outcomes that skip until the run has ended.
    Skips,
}

impl Task {
    /// The task of this name.
    pub fn named(name: &str) -> Option<Task> {
        match name {
            "builds" => Some(Task::Builds),
            "waits" => Some(Task::Waits),
            "picks" => Some(Task::Picks),
            "posts" => Some(Task::Posts),
            "runs" => Some(Task::Runs),
            "skips" => Some(Task::Skips),
            _ => None,
        }
    }
}

/// The search between the first commit and the last.
fn search<'r>(alloc: Global, reach: &'r Reach) -> Result<Option<Core<'r>>, AllocError> {
    let len = reach.len();
    if len == 0 {
        return Ok(None);
    }
    let terms = Terms::standard(alloc)?;
    let state = State::new(alloc, len, terms, false, false, Some(len - 1), &[0])?;
    let table = Table::new(alloc, len)?;
    Ok(Some(Core::start(alloc, reach, state, table, 0)?))
}

/// Does a task over a generated history, and returns the number of places that were picked or posted last.
pub fn done(
    alloc: Global,
    task: Task,
    shape: Shape,
    commits: u32,
    workers: u32,
) -> Result<u32, AllocError> {
    let graph = history(alloc, shape, commits)?;
    let reach = Reach::build(alloc, &graph)?;
    if let Task::Builds = task {
        return Ok(0);
    }
    done_over(alloc, &reach, task, workers)
}

/// Makes the search, and does a task in it.
fn done_over(alloc: Global, reach: &Reach, task: Task, workers: u32) -> Result<u32, AllocError> {
    match search(alloc, reach)? {
        Some(mut core) => done_in(&mut core, task, workers, reach.len()),
        None => Ok(0),
    }
}

/// Does a task in a search over so many commits.
fn done_in(core: &mut Core<'_>, task: Task, workers: u32, commits: u32) -> Result<u32, AllocError> {
    match task {
        Task::Builds | Task::Waits => Ok(0),
        Task::Picks => pick_all(core, workers),
        Task::Posts => {
            pick_all(core, workers)?;
            post_first(core, Outcome::Exit(0))
        }
        Task::Runs => run(core, workers, commits, false),
        Task::Skips => run(core, workers, commits, true),
    }
}

/// Has each worker without a claim pick a place, and returns how many got one.
fn pick_all(core: &mut Core<'_>, workers: u32) -> Result<u32, AllocError> {
    let mut places = 0u32;
    for worker in 0..workers {
        if core.has_claim(worker) {
            continue;
        }
        if let Pick::Work(_) = core.pick(worker)? {
            places = places.saturating_add(1);
        }
    }
    Ok(places)
}

/// Posts the outcome of the oldest claim, and returns how many were posted.
fn post_first(core: &mut Core<'_>, outcome: Outcome) -> Result<u32, AllocError> {
    let Some(claim) = core.claims().first().copied() else {
        return Ok(0);
    };
    if !core.stands(claim.worker, claim.place) {
        return Ok(0);
    }
    core.post(claim.worker, claim.place, outcome)?;
    Ok(1)
}

/// Picks and posts until the run has ended, and returns how many outcomes were posted. Places in the later
/// half of the history are bad, where they are not skipped.
fn run(core: &mut Core<'_>, workers: u32, len: u32, skips: bool) -> Result<u32, AllocError> {
    let mut posted = 0u32;
    for _ in 0..len {
        if core.ending().is_some() {
            break;
        }
        pick_all(core, workers)?;
        let outcome = match core.claims().first() {
            Some(_) if skips => Outcome::Exit(125),
            Some(claim) if claim.place >= len / 2 => Outcome::Exit(1),
            _ => Outcome::Exit(0),
        };
        posted = posted.saturating_add(post_first(core, outcome)?);
    }
    Ok(posted)
}
