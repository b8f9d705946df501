//! Testing several commits at once.
//!
//! The threads end when the run has ended, or when no worker can go on. Then the calling thread goes on alone, with the
//! tests that the run still asks for. So a failed test that is reported was made here, and its tester knows the reason.
ghost use Rattle.std.specs.Prelude.{◌≡◌, false, ◌≤◌, [], length, IfOk};
ghost use Rattle.bf_farm.specs.Answering.{IsByWorkers};
ghost use Rattle.bf_farm.specs.Cases.{setting_of, IsReportOn, HasHistoryOn, IsSoundAgain};
ghost use Rattle.bf_farm.specs.Doers.{AreDoneBy};
ghost use Rattle.bf_farm.specs.Posts.{posts_of, ArePosts};
ghost use Rattle.bf_farm.specs.Reports.{TableIn, TableFollows};
ghost use Rattle.bf_farm.specs.Testers.{KeepsManner, HasAnswersOf, IsSoundBy, HasFaultBy, GainsPostsBy};
ghost use Rattle.bf_farm.specs.Workers.{ArePartsOf, answers_of};
ghost use Rattle.bf_state.specs.Ends.{HasEnds};

use crate::absorb::absorb_all;
use crate::alone::finish;
use crate::board::Board;
use crate::case::Case;
use crate::replay::{are_all_posted, replay};
use crate::report::Report;
use crate::share::{lowered, run_workers, split_all};
use crate::worker::Worker;
use bf_search::Event;
use bf_tester::{Host, Tester};
use std::alloc::{AllocError, Global};

/// Workers that are done, and the events of the board that they shared.
#[derive(Drop)]
struct Team<T: Drop> {
    workers: Vec<Worker<T>>,
    events: Vec<Event>,
}

/// A board for the workers. The case stays as it is.
fn board_of<'r>(alloc: Global, case: &Case<'r>) -> Result<Board<'r>, AllocError>
    requires len { length case.now.reach.now ≡ case.now.state.len }
    requires table { length case.now.table ≡ case.now.state.len }
    requires ends { HasEnds case.now.state.search }
    ensures setting { IfOk result (λ board. board.core.setting ≡ setting_of case.entry.now) }
    ensures first { IfOk result (λ board. board.first ≡ case.entry.now.table) }
{
    let state = case.state.try_clone()?;
    let table = case.table.try_clone()?;
    let board = Board::start(alloc, case.reach, state, table, case.leg)?;
    Ok(board)
}

/// Lets so many workers test over a board of their own, each with a tester that is split off.
fn work_apart<R: Host, T: Tester>(
    rt: &R,
    alloc: Global,
    case: &Case<'_>,
    count: u32,
    tester: &T,
) -> Result<Team<T>, AllocError>
    requires len { length case.now.reach.now ≡ case.now.state.len }
    requires table { length case.now.table ≡ case.now.state.len }
    requires ends { HasEnds case.now.state.search }
    ensures parts { IfOk result (λ team. ArePartsOf T.Tester tester.now team.workers.items) }
    ensures count { IfOk result (λ team. length team.workers.items ≡ count) }
{
    let board = board_of(alloc, case)?;
    let flags = lowered(alloc, count)?;
    let mut workers = split_all(alloc, tester, count)?;
    let events = run_workers(
        rt,
        board,
        flags.as_slice(),
        case.names,
        workers.as_mut_slice(),
    );
    Ok(Team { workers, events })
}

/// A board on which the events of the workers are done again. No claim stands on it. Where the answers of a worker are
/// not its posts there was want of memory.
fn board_again<'r, T: Tester>(
    alloc: Global,
    case: Case<'r>,
    team: &Team<T>,
) -> Result<Board<'r>, AllocError>
    requires len { length case.reach.now ≡ case.state.len }
    requires table { length case.table ≡ case.state.len }
    requires ends { HasEnds case.state.search }
    ensures setting { IfOk result (λ board. board.core.setting ≡ setting_of case.entry) }
    ensures state { IfOk result (λ board. board.core.first ≡ case.entry.state) }
    ensures first { IfOk result (λ board. board.first ≡ case.entry.table) }
    ensures claims { IfOk result (λ board. board.core.farm.claims ≡ []) }
    ensures len { IfOk result (λ board. length board.core.farm.table ≡ length case.entry.table) }
    ensures sound { IfOk result (IsSoundAgain T.Tester team.now.workers.items case.entry) }
    ensures workers { IfOk result (λ board.
        AreDoneBy (length team.now.workers.items) board.events) }
    ensures posted { IfOk result (λ board. ArePosts case.entry.names.now
        (posts_of board.events) (answers_of T.Tester team.now.workers.items)) }
{
    let Case {
        reach,
        names,
        state,
        table,
        leg,
    } = case;
    let events = team.events.as_slice();
    if !are_all_posted(team.workers.as_slice(), names, events) {
        return Err(AllocError);
    }
    let mut board = Board::start(alloc, reach, state, table, leg)?;
    replay(&mut board, events)?;
    board.give_all();
    Ok(board)
}

/// Tests several commits at once, each worker one in a thread of its own, until the run has ended or no
/// worker can go on; then the calling thread goes on alone. What is reported is the run on the answers
/// that were used, whatever the number of workers.
///
/// After want of memory the tester may have more answers and faults than before.
pub fn run_farm<R: Host, T: Tester>(
    rt: &R,
    alloc: Global,
    case: Case<'_>,
    workers: u32,
    tester: &mut T,
) -> Result<Report, AllocError>
    requires len { length case.reach.now ≡ case.state.len }
    requires table { length case.table ≡ case.state.len }
    requires named { length case.names.now ≡ case.state.len }
    requires ends { HasEnds case.state.search }
    requires known { TableIn case.names.now (T.answers tester.old) case.table }
    requires plan { TableFollows (T.told tester.old) case.table }
    requires is_split { T.is_split tester.old ≡ false }
    requires some { 1 ≤ workers }
    requires most { workers ≤ 64 }
    // On success: the report.
    ensures report { IfOk result (IsReportOn case.entry) }
    ensures history { IfOk result (HasHistoryOn case.entry) }
    ensures sound { IfOk result (IsSoundBy T.Tester tester.old tester.new case.entry.names.now) }
    ensures workers { IfOk result (IsByWorkers workers) }
    ensures posted { IfOk result
        (GainsPostsBy T.Tester tester.old tester.new case.entry.names.now) }
    ensures fault { IfOk result (HasFaultBy T.Tester tester.old tester.new) }
    // Whatever comes: the tester is of its manner, and keeps its answers.
    ensures later { T.faults tester.old ≤ T.faults tester.new }
    ensures manner { KeepsManner T.Tester tester.old tester.new }
    ensures own { HasAnswersOf T.Tester tester.new tester.old }
    ensures is_split { T.is_split tester.new ≡ false }
{
    let names = case.names;
    let team = work_apart(rt, alloc, &case, workers, &*tester)?;
    let board = board_again(alloc, case, &team)?;
    absorb_all(tester, team.workers)?;
    let report = finish(rt, alloc, board, names, tester)?;
    Ok(report)
}
