//! Testing one commit at a time, on a board of one's own.
ghost use Rattle.std.specs.Prelude.{◌≡◌, false, ◌≤◌, ◌<◌, [], length, OnOk, IfOk};
ghost use Rattle.bf_farm.specs.Answering.{HasHistory, IsAlone, Halves, IsReportOver};
ghost use Rattle.bf_farm.specs.Cases.{setting_of, IsReportOn, HasHistoryOn};
ghost use Rattle.bf_farm.specs.Cores.{IsSameStart, IsSameLength};
ghost use Rattle.bf_farm.specs.Ends.{IsAsking, IsNext, GainsClaim, MissesFewer};
ghost use Rattle.bf_farm.specs.Reports.{TableIn, TableFollows};
ghost use Rattle.bf_farm.specs.Sound.{IsSound, KeepsSound};
ghost use Rattle.bf_farm.specs.Testers.{KeepsManner, HasAnswersOf, StaysSound, GainsBy, EndsBy, TurnEndsBy};
ghost use Rattle.bf_farm.specs.Testers.{TestsOnBy, TurnTestsBy, TestsClaimedBy, ReportsTestsBy};
ghost use Rattle.bf_farm.specs.Testers.{IsSoundBy, HasFaultBy, GainsLacking, GainsPostsBy};
ghost use Rattle.bf_state.specs.Ends.{HasEnds};

use crate::board::Board;
use crate::case::Case;
use crate::report::{Report, report_of};
use bf_core::Pick;
use bf_oid::Oid;
use bf_tester::{Host, StopView, TestReply, Tester};
use std::alloc::{AllocError, Global};

// The number of the calling thread among the workers.
const ALONE: u32 = 0;

/// What one turn of testing leaves.
#[derive(Clone, Copy)]
enum Turn {
    /// A place was tested.
    GoesOn,
    /// The run has ended.
    Ended,
    /// The test of this place failed.
    Failed(u32),
}

/// Claims the place that the run waits for. There is none where the run has ended.
fn next_place(board: &mut Board<'_>) -> Result<Option<u32>, AllocError>
    requires { board.old.core.farm.claims ≡ [] }
    ensures next { IfOk result (IsNext board.new.core) }
    ensures sound { OnOk result (KeepsSound board.old board.new) }
    ensures start { OnOk result (IsSameStart board.old.core board.new.core) }
    ensures first { OnOk result (board.new.first ≡ board.old.first) }
    ensures table { OnOk result (board.new.core.farm.table ≡ board.old.core.farm.table) }
    ensures noted { IfOk result (GainsClaim board.old.events board.new.events) }
{
    board.pick(ALONE)?;
    match board.first_claim() {
        Some(claim) => Ok(Some(claim.place)),
        None => Ok(None),
    }
}

/// Tests a place that the calling thread has claimed.
fn test_claimed<R: Host, T: Tester>(
    rt: &R,
    board: &mut Board<'_>,
    names: &[Oid],
    tester: &mut T,
    place: u32,
) -> Result<Turn, AllocError>
    requires named { place < length names.now }
    requires within { place < length board.old.core.farm.table }
    requires asking { IsAsking board.old.core place }
    ensures sound { OnOk result
        (StaysSound T.Tester tester.old tester.new names.now board.old board.new) }
    ensures gains { OnOk result
        (GainsBy T.Tester tester.old tester.new names.now board.old board.new) }
    ensures start { OnOk result (IsSameStart board.old.core board.new.core) }
    ensures first { OnOk result (board.new.first ≡ board.old.first) }
    ensures manner { KeepsManner T.Tester tester.old tester.new }
    ensures own { HasAnswersOf T.Tester tester.new tester.old }
    ensures is_split { T.is_split tester.new ≡ T.is_split tester.old }
    ensures faults { T.faults tester.old ≤ T.faults tester.new }
    ensures ends { IfOk result (TurnEndsBy T.Tester tester.old tester.new board.new) }
    ensures fewer { IfOk result (MissesFewer board.old.core board.new.core) }
    ensures len { OnOk result (IsSameLength board.old.core board.new.core) }
    ensures alone { IfOk result
        (TestsClaimedBy T.Tester tester.old tester.new place board.old board.new) }
{
    let name = names[place as usize];
    match tester.test(rt, place, name, &mut StopView::none()) {
        TestReply::Done(outcome) => {
            board.post(ALONE, place, outcome)?;
            Ok(Turn::GoesOn)
        }
        TestReply::Failed => {
            board.give(ALONE, place);
            Ok(Turn::Failed(place))
        }
        TestReply::NoMemory => Err(AllocError),
        TestReply::Dropped => unreachable!(),
    }
}

/// Tests what the run waits for, where it has not ended.
fn take_turn<R: Host, T: Tester>(
    rt: &R,
    board: &mut Board<'_>,
    names: &[Oid],
    tester: &mut T,
) -> Result<Turn, AllocError>
    requires named { length names.now ≡ length board.old.core.farm.table }
    requires claims { board.old.core.farm.claims ≡ [] }
    ensures sound { OnOk result
        (StaysSound T.Tester tester.old tester.new names.now board.old board.new) }
    ensures gains { OnOk result
        (GainsBy T.Tester tester.old tester.new names.now board.old board.new) }
    ensures start { OnOk result (IsSameStart board.old.core board.new.core) }
    ensures first { OnOk result (board.new.first ≡ board.old.first) }
    ensures manner { KeepsManner T.Tester tester.old tester.new }
    ensures own { HasAnswersOf T.Tester tester.new tester.old }
    ensures is_split { T.is_split tester.new ≡ T.is_split tester.old }
    ensures faults { T.faults tester.old ≤ T.faults tester.new }
    ensures ends { IfOk result (TurnEndsBy T.Tester tester.old tester.new board.new) }
    ensures fewer { IfOk result (MissesFewer board.old.core board.new.core) }
    ensures len { OnOk result (IsSameLength board.old.core board.new.core) }
    ensures alone { IfOk result (TurnTestsBy T.Tester tester.old tester.new board.old board.new) }
{
    match next_place(board)? {
        Some(place) => test_claimed(rt, board, names, tester, place),
        None => Ok(Turn::Ended),
    }
}

/// Tests one commit after another until the run has ended or a test fails; then it returns the place of
/// that test.
pub(crate) fn go_on<R: Host, T: Tester>(
    rt: &R,
    board: &mut Board<'_>,
    names: &[Oid],
    tester: &mut T,
) -> Result<Option<u32>, AllocError>
    requires named { length names.now ≡ length board.old.core.farm.table }
    requires claims { board.old.core.farm.claims ≡ [] }
    ensures sound { OnOk result
        (StaysSound T.Tester tester.old tester.new names.now board.old board.new) }
    ensures gains { OnOk result
        (GainsBy T.Tester tester.old tester.new names.now board.old board.new) }
    ensures start { OnOk result (IsSameStart board.old.core board.new.core) }
    ensures first { OnOk result (board.new.first ≡ board.old.first) }
    ensures manner { KeepsManner T.Tester tester.old tester.new }
    ensures own { HasAnswersOf T.Tester tester.new tester.old }
    ensures is_split { T.is_split tester.new ≡ T.is_split tester.old }
    ensures later { T.faults tester.old ≤ T.faults tester.new }
    ensures ends { IfOk result (EndsBy T.Tester tester.old tester.new board.new) }
    ensures claims { OnOk result (board.new.core.farm.claims ≡ []) }
    ensures len { OnOk result (IsSameLength board.old.core board.new.core) }
    ensures alone { IfOk result (TestsOnBy T.Tester tester.old tester.new board.old board.new) }
{
    loop {
        match take_turn(rt, board, names, tester)? {
            Turn::GoesOn => {}
            Turn::Ended => return Ok(None),
            Turn::Failed(place) => return Ok(Some(place)),
        }
    }
}

/// Goes on alone over a board without claims, and reports.
pub(crate) fn finish<R: Host, T: Tester>(
    rt: &R,
    alloc: Global,
    board: Board<'_>,
    names: &[Oid],
    tester: &mut T,
) -> Result<Report, AllocError>
    requires named { length names.now ≡ length board.core.farm.table }
    requires claims { board.core.farm.claims ≡ [] }
    requires sound { IsSound (T.told tester.old) names.now (T.answers tester.old) board }
    ensures report { IfOk result (IsReportOver board.entry.core names.now) }
    ensures history { IfOk result (HasHistory board.entry.core.setting board.entry.first) }
    ensures sound { IfOk result (IsSoundBy T.Tester tester.old tester.new names.now) }
    ensures fault { IfOk result (HasFaultBy T.Tester tester.old tester.new) }
    ensures later { T.faults tester.old ≤ T.faults tester.new }
    ensures lacking { IfOk result
        (GainsLacking T.Tester tester.old tester.new board.entry.core.farm.table) }
    ensures halving { IfOk result (Halves board.entry.core.setting) }
    ensures alone { IfOk result (ReportsTestsBy T.Tester tester.old tester.new board.entry) }
    ensures manner { KeepsManner T.Tester tester.old tester.new }
    ensures own { HasAnswersOf T.Tester tester.new tester.old }
    ensures is_split { T.is_split tester.new ≡ T.is_split tester.old }
{
    let mut board = board;
    let failed = go_on(rt, &mut board, names, tester)?;
    let report = report_of(alloc, board, names, failed)?;
    Ok(report)
}

/// Tests one commit after another until the run has ended or a test fails, and reports. What is reported
/// is the run on the answers that were used. It is the calling thread alone that tests.
///
/// After want of memory the tester may have more answers and faults than before.
pub fn run_alone<R: Host, T: Tester>(
    rt: &R,
    alloc: Global,
    case: Case<'_>,
    tester: &mut T,
) -> Result<Report, AllocError>
    requires len { length case.reach.now ≡ case.state.len }
    requires table { length case.table ≡ case.state.len }
    requires named { length case.names.now ≡ case.state.len }
    requires ends { HasEnds case.state.search }
    requires known { TableIn case.names.now (T.answers tester.old) case.table }
    requires plan { TableFollows (T.told tester.old) case.table }
    requires is_split { T.is_split tester.old ≡ false }
    ensures report { IfOk result (IsReportOn case.entry) }
    ensures history { IfOk result (HasHistoryOn case.entry) }
    ensures sound { IfOk result (IsSoundBy T.Tester tester.old tester.new case.entry.names.now) }
    ensures fault { IfOk result (HasFaultBy T.Tester tester.old tester.new) }
    ensures later { T.faults tester.old ≤ T.faults tester.new }
    ensures lacking { IfOk result (GainsLacking T.Tester tester.old tester.new case.entry.table) }
    ensures halving { IfOk result (Halves (setting_of case.entry)) }
    ensures alone { IfOk result (IsAlone case.entry.table) }
    ensures posted { IfOk result
        (GainsPostsBy T.Tester tester.old tester.new case.entry.names.now) }
    ensures manner { KeepsManner T.Tester tester.old tester.new }
    ensures own { HasAnswersOf T.Tester tester.new tester.old }
    ensures is_split { T.is_split tester.new ≡ false }
{
    let Case {
        reach,
        names,
        state,
        table,
        leg,
    } = case;
    let board = Board::start(alloc, reach, state, table, leg)?;
    let report = finish(rt, alloc, board, names, tester)?;
    Ok(report)
}
