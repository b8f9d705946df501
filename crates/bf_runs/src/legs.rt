//! A leg of a run.
ghost use Rattle.std.specs.Prelude.{◌≡◌, ◌≤◌, false, IfOk};
ghost use Rattle.bf_farm.specs.Testers.{KeepsManner, HasAnswersOf, HasFaultBy};
ghost use Rattle.bf_runs.specs.Courses.{KnowsNothing, CanBegin, IsRunOfLeg, LeavesFewer, LegLeads, LeavesReady};
ghost use Rattle.bf_runs.specs.Within.{HasEntriesWithin, HasEndingWithin};

use crate::case::{RunSettings, run_case};
use bf_farm::{Case, Report};
use bf_import::History;
use bf_spec::Table;
use bf_state::State;
use bf_tester::{Host, Tester};
use std::alloc::{AllocError, Global};

/// Where a leg of a run begins: the search, and what is known of its commits.
#[derive(Drop)]
pub struct Standing {
    pub state: State,
    pub table: Table,
}

impl Standing {
    /// Where the first leg begins: no outcome is known.
    pub fn first(alloc: Global, history: &History, state: State) -> Result<Standing, AllocError>
        ensures state { IfOk result (λ standing. standing.state ≡ state) }
        ensures table { IfOk result (KnowsNothing history.now.parents) }
    {
        let table = Table::new(alloc, history.len())?;
        Ok(Standing { state, table })
    }
}

/// Tests what a search asks for, until it has ended, so many marks were made as a leg has, or a test has failed.
///
/// The report is the run on what is known at its end, whatever the number of workers. After the last leg the
/// runs of all legs are, in sequence, the run without legs. Each leg but the last leaves fewer places to ask for.
pub fn run_leg<R: Host, T: Tester>(
    rt: &R,
    alloc: Global,
    search: RunSettings<'_>,
    standing: Standing,
    tester: &mut T,
) -> Result<Report, AllocError>
    requires reach { search.reach.now ≡ search.history.now.parents }
    requires ready { CanBegin T.Tester tester.old search standing.state standing.table }
    requires is_split { T.is_split tester.old ≡ false }
    // On success: the report, and where the next leg begins.
    ensures run { IfOk result (IsRunOfLeg search.entry standing) }
    ensures leads_on { IfOk result (LegLeads T.Tester tester.old tester.new search.entry standing) }
    ensures fewer { IfOk result (LeavesFewer search.entry.history.now.parents standing) }
    ensures ready { IfOk result (LeavesReady T.Tester tester.old tester.new search.entry) }
    ensures places { IfOk result (HasEntriesWithin search.entry.history.now.parents) }
    ensures end { IfOk result (HasEndingWithin search.entry.history.now.parents) }
    ensures fault { IfOk result (HasFaultBy T.Tester tester.old tester.new) }
    // Whatever comes: the tester is of its manner, and keeps its answers.
    ensures later { T.faults tester.old ≤ T.faults tester.new }
    ensures manner { KeepsManner T.Tester tester.old tester.new }
    ensures own { HasAnswersOf T.Tester tester.new tester.old }
    ensures is_split { T.is_split tester.new ≡ false }
{
    // What the lengths tell is needed: the graph is sorted, and the places of the search are places of it.
    let _commits = search.reach.len();
    let _places = standing.state.len();
    let Standing { state, table } = standing;
    let case = Case {
        reach: search.reach,
        names: search.history.names(),
        state,
        table,
        leg: search.leg,
    };
    let report = run_case(rt, alloc, case, search.workers, tester)?;
    Ok(report)
}
