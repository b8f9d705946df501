//! A search over a history, whose commits are tested.
ghost use Rattle.std.specs.Prelude.{◌≡◌, ◌≤◌, false, length, IfOk};
ghost use Rattle.bf_farm.specs.Answering.{IsAlone, IsByWorkers};
ghost use Rattle.bf_farm.specs.Cases.{IsReportOn, HasHistoryOn};
ghost use Rattle.bf_farm.specs.Reports.{TableIn, TableFollows};
ghost use Rattle.bf_farm.specs.Testers.{KeepsManner, HasAnswersOf, IsSoundBy, HasFaultBy, GainsLacking, GainsPostsBy};
ghost use Rattle.bf_state.specs.Ends.{HasEnds};

use bf_farm::{Case, Report, run_alone, run_farm};
use bf_import::History;
use bf_reach::Reach;
use bf_tester::{Host, Tester};
use std::alloc::{AllocError, Global};

/// The most workers that test at once.
const MOST: u32 = 64;

/// A history with its graph, how many commits may be tested at once, and after how many marks a run ends;
/// 0 stands for no legs.
#[derive(Clone, Copy)]
pub struct RunSettings<'a> {
    pub history: &'a History,
    pub reach: &'a Reach,
    pub workers: u32,
    pub leg: u32,
}

/// Runs a case by so many workers, at most 64; the calling thread tests alone where there is one, or none.
/// What is reported is the run on the answers that were used, whatever the number of workers.
pub fn run_case<R: Host, T: Tester>(
    rt: &R,
    alloc: Global,
    case: Case<'_>,
    workers: u32,
    tester: &mut T,
) -> Result<Report, AllocError>
    requires len { length case.reach.now ≡ case.state.len }
    requires table { length case.table ≡ case.state.len }
    requires named { length case.names.now ≡ case.state.len }
    requires ends { HasEnds case.state.search }
    requires known { TableIn case.names.now (T.answers tester.old) case.table }
    requires plan { TableFollows (T.told tester.old) case.table }
    requires is_split { T.is_split tester.old ≡ false }
    ensures report { IfOk result (IsReportOn case.entry) }
    ensures history { IfOk result (HasHistoryOn case.entry) }
    ensures sound { IfOk result (IsSoundBy T.Tester tester.old tester.new case.entry.names.now) }
    ensures workers { IfOk result (IsByWorkers workers) }
    ensures posted { IfOk result
        (GainsPostsBy T.Tester tester.old tester.new case.entry.names.now) }
    ensures fault { IfOk result (HasFaultBy T.Tester tester.old tester.new) }
    ensures later { T.faults tester.old ≤ T.faults tester.new }
    ensures alone { workers ≤ 1 → IfOk result (IsAlone case.entry.table) }
    ensures lacking { workers ≤ 1 →
        IfOk result (GainsLacking T.Tester tester.old tester.new case.entry.table) }
    ensures manner { KeepsManner T.Tester tester.old tester.new }
    ensures own { HasAnswersOf T.Tester tester.new tester.old }
    ensures is_split { T.is_split tester.new ≡ false }
{
    if workers > 1 {
        run_farm(rt, alloc, case, workers.min(MOST), tester)
    } else {
        run_alone(rt, alloc, case, tester)
    }
}
