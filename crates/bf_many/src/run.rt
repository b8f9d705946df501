//! Several searches with shared workers.
ghost use Rattle.std.specs.Prelude.{◌≡◌, ◌≤◌, [], length, map, All, IfOk};
ghost use Rattle.bf_many.specs.Cores.{CanStart};
ghost use Rattle.bf_many.specs.Shares.{AreTheirs, HasHistory, HaveNoClaim, IsCase, IsDoneBy, IsLedFrom, KeepsTablesFrom};
ghost use Rattle.bf_many.specs.Teams.{ArePartsOf, AreTablesOf, AreTestersOf, AreWhole, HaveAnswersOf, KeepFaults, KeepManner};

use crate::absorb::absorb_all;
use crate::answers::ManyEvent;
use crate::board::Board;
use crate::many::ManyCore;
use crate::replay::{MOST_SEARCHES, Replayed, replay};
use crate::search::ReadySearch;
use crate::share::{lowered, run_workers, split_all};
use crate::worker::Worker;
use bf_oid::Oid;
use bf_reach::Reach;
use bf_spec::Table;
use bf_tester::{Host, Tester};
use std::alloc::{AllocError, Global};

/// What several searches over one history start from. There is one name for each place of the graph.
#[derive(Drop)]
pub struct ManyCase<'r> {
    /// The graph of the commits.
    pub reach: &'r Reach,
    /// The names of the commits, by place.
    pub names: &'r [Oid],
    /// The searches, of which there are at most 64.
    pub searches: Vec<ReadySearch>,
}

/// What shared workers came to.
#[derive(Drop)]
pub struct Shared {
    /// For each search the outcomes by place, where they are known.
    pub tables: Vec<Table>,
    /// What the workers did, the oldest first.
    pub events: Vec<ManyEvent>,
}

/// Workers that are done, and what happened on the board that they shared.
#[derive(Drop)]
struct Team<T: Drop> {
    workers: Vec<Worker<T>>,
    events: Vec<ManyEvent>,
}

/// Equal searches.
fn copies_of(alloc: Global, searches: &[ReadySearch]) -> Result<Vec<ReadySearch>, AllocError>
    ensures { IfOk result (λ copies. copies.items ≡ searches.now) }
{
    let mut copies = Vec::new(alloc);
    for search in searches {
        copies.push(search.try_clone()?)?;
    }
    Ok(copies)
}

/// Lets so many workers test over a board of their own, each with testers that are split off.
fn work_apart<R: Host, T: Tester>(
    rt: &R,
    alloc: Global,
    case: &ManyCase<'_>,
    count: u32,
    testers: &[T],
) -> Result<Team<T>, AllocError>
    requires { IsCase case.now }
    ensures parts { IfOk result (λ team. ArePartsOf T.Tester testers.now team.workers.items) }
    ensures count { IfOk result (λ team. length team.workers.items ≡ count) }
{
    let searches = copies_of(alloc, case.searches.as_slice())?;
    let many = ManyCore::start(alloc, case.reach, searches)?;
    let flags = lowered(alloc, count)?;
    let mut workers = split_all(alloc, testers, count)?;
    let events = run_workers(
        rt,
        Board::new(alloc, many),
        flags.as_slice(),
        case.names,
        workers.as_mut_slice(),
    );
    Ok(Team { workers, events })
}

/// So many counts, all zero.
fn zeros(alloc: Global, count: usize) -> Result<Vec<usize>, AllocError> {
    let mut counts = Vec::new(alloc);
    counts.resize(count, 0)?;
    Ok(counts)
}

/// Cores on which what the workers did is done again, each post only where the worker's tester has the
/// answer. No claim stands on them.
fn done_again<'r, T: Tester>(
    alloc: Global,
    case: ManyCase<'r>,
    team: &Team<T>,
) -> Result<Replayed<'r>, AllocError>
    requires { IsCase case }
    ensures led { IfOk result (IsLedFrom case.entry) }
    ensures claims { IfOk result (λ replayed. HaveNoClaim replayed.many) }
    ensures tables { IfOk result
        (KeepsTablesFrom T.Tester team.now.workers.items case.entry) }
    ensures workers { IfOk result (AreTheirs (length team.now.workers.items)) }
{
    let ManyCase {
        reach,
        names,
        searches,
    } = case;
    let many = ManyCore::start(alloc, reach, searches)?;
    let events = Vec::new(alloc);
    let mut replayed = Replayed { many, events };
    let mut seen = zeros(alloc, team.workers.len().saturating_mul(MOST_SEARCHES))?;
    replay(
        &mut replayed,
        team.events.as_slice(),
        team.workers.as_slice(),
        seen.as_mut_slice(),
        names,
    )?;
    replayed.give_all()?;
    Ok(replayed)
}

/// Runs several searches with so many workers, each in a thread of its own, until every search has ended or
/// no worker can go on. A worker helps the search that has the fewest workers. There is one tester for each
/// search.
///
/// After want of memory a tester may have more answers than before.
pub fn run_shared<R: Host, T: Tester>(
    rt: &R,
    alloc: Global,
    case: ManyCase<'_>,
    workers: u32,
    testers: &mut [T],
) -> Result<Shared, AllocError>
    requires case { IsCase case }
    requires testers { AreTestersOf T.Tester case.names.now testers.old case.searches.items }
    requires is_split { AreWhole T.Tester testers.old }
    requires some { 1 ≤ workers }
    requires most { workers ≤ 64 }
    // On success: what was found, and by whom.
    ensures history { IfOk result (HasHistory case.entry) }
    ensures tables { IfOk result (λ shared.
        AreTablesOf T.Tester case.entry.names.now testers.new shared.tables.items) }
    ensures long { IfOk result (λ shared.
        All (λ table. length table ≡ length case.entry.reach.now) shared.tables.items) }
    ensures workers { IfOk result (IsDoneBy workers) }
    // Whatever comes: the testers are of their manner, and keep their answers.
    ensures manner { KeepManner T.Tester testers.old testers.new }
    ensures is_split { AreWhole T.Tester testers.new }
    ensures faults { KeepFaults T.Tester testers.old testers.new }
    ensures own { HaveAnswersOf T.Tester testers.new testers.old }
{
    let team = work_apart(rt, alloc, &case, workers, &*testers)?;
    let replayed = done_again(alloc, case, &team)?;
    absorb_all(testers, team.workers)?;
    let Replayed { many, events } = replayed;
    let tables = many.into_tables(alloc)?;
    Ok(Shared { tables, events })
}
