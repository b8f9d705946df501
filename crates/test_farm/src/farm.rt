//! Runs on a line of eight commits, of the calling thread alone and of several workers.
ghost use Rattle.std.specs.Prelude.{◌≡◌, ◌≤◌, false, length, replicate, None, IfOk};
ghost use Rattle.bf_state.specs.Ends.{HasEnds};

use crate::late::{Late, Watch};
use crate::line::{line, search};
use bf_farm::{Case, Report, run_alone, run_farm};
use bf_oid::Oid;
use bf_reach::Reach;
use bf_search::{Ending, Entry, Event, Mark};
use bf_spec::Table;
use bf_state::State;
use bf_tester::{FailRule, Gate, PlanTester, ScriptTester, Side, Tester};
use std::alloc::{AllocError, Global};
use std::process::{Abort, Processes, SystemProcess};
use std::sync::{Arc, Wait};
use std::test::Fail;
use std::thread::Threads;
use std::time::Clock;

static NAMES: [Oid; 8] = [
    Oid([0; 20]),
    Oid([1; 20]),
    Oid([2; 20]),
    Oid([3; 20]),
    Oid([4; 20]),
    Oid([5; 20]),
    Oid([6; 20]),
    Oid([7; 20]),
];

/// That search over the line, of which no outcome is known.
fn case_of<'r>(alloc: Global, reach: &'r Reach, leg: u32) -> Result<Case<'r>, AllocError>
    requires { length reach.now ≡ 8 }
    ensures reach { IfOk result (λ case. length case.reach.now ≡ 8) }
    ensures len { IfOk result (λ case. case.state.len ≡ 8) }
    ensures ends { IfOk result (λ case. HasEnds case.state.search) }
    ensures table { IfOk result (λ case. case.table ≡ replicate 8 None) }
    ensures names { IfOk result (λ case. length case.names.now ≡ 8) }
{
    Ok(Case {
        reach,
        names: &NAMES,
        state: search(alloc)?,
        table: Table::new(alloc, 8)?,
        leg,
    })
}

/// What so many workers report; where there are none, the calling thread tests alone.
fn reported<R, T>(
    rt: &R,
    alloc: Global,
    workers: u32,
    leg: u32,
    tester: &mut T,
) -> Result<Report, AllocError>
where
    R: Threads + Wait + Processes<Started = SystemProcess> + Clock + Eprint + Sync,
    T: Tester,
    requires is_split { T.is_split tester.old ≡ false }
    requires most { workers ≤ 64 }
{
    let reach = line(alloc)?;
    let case = case_of(alloc, &reach, leg)?;
    let report = if workers == 0 {
        run_alone(rt, alloc, case, tester)?
    } else {
        run_farm(rt, alloc, case, workers, tester)?
    };
    Ok(report)
}

/// Asserts that a run found the first bad commit at place 4.
fn has_found(rt: &impl Abort, report: &Report) {
    assert!(rt; report.ending == Ending::FirstBad(4));
    assert_eq!(rt; report.used.len(), 3);
    let entries = [
        Entry::Marked {
            mark: Mark::Good,
            place: 3,
        },
        Entry::Marked {
            mark: Mark::Bad,
            place: 5,
        },
        Entry::Marked {
            mark: Mark::Bad,
            place: 4,
        },
        Entry::FirstBadFound { place: 4 },
    ];
    assert!(rt; report.entries.as_slice() == entries.as_slice());
}

/// Asserts that so many workers find it.
fn finds<R, T>(rt: &R, workers: u32, tester: &mut T) -> Result<(), AllocError>
where
    R: Threads
        + Wait
        + Processes<Started = SystemProcess>
        + Clock
        + Eprint
        + Sync
        + Alloc<A = Global>
        + Abort,
    T: Tester,
    requires is_split { T.is_split tester.old ≡ false }
    requires most { workers ≤ 64 }
{
    has_found(rt, &reported(rt, rt.alloc(), workers, 0, tester)?);
    Ok(())
}

/// Asserts that a leg of two marks ends behind them.
fn ends_its_leg<R, T>(rt: &R, workers: u32, tester: &mut T) -> Result<(), AllocError>
where
    R: Threads
        + Wait
        + Processes<Started = SystemProcess>
        + Clock
        + Eprint
        + Sync
        + Alloc<A = Global>
        + Abort,
    T: Tester,
    requires is_split { T.is_split tester.old ≡ false }
    requires most { workers ≤ 64 }
{
    let report = reported(rt, rt.alloc(), workers, 2, tester)?;
    assert!(rt; report.ending == Ending::Leg);
    assert_eq!(rt; report.entries.len(), 2);
    Ok(())
}

#[test]
fn any_number_of_workers(rt: HostRuntime) -> Result<(), Fail> {
    for workers in 0..5 {
        finds(&rt, workers, &mut PlanTester::new(rt.alloc(), b"ggggbbbb")?)?;
        finds(&rt, workers, &mut PlanTester::new(rt.alloc(), b"gaggbbbb")?)?;
        ends_its_leg(&rt, workers, &mut PlanTester::new(rt.alloc(), b"ggggbbbb")?)?;
    }
    Ok(())
}

/// A tester whose tests of place 3 fail on a side.
fn failing(alloc: Global, side: Side) -> Result<ScriptTester, AllocError>
    ensures { IfOk result (λ t. ⟦<ScriptTester as Tester>⟧.is_split t ≡ false) }
{
    let rules = [FailRule { place: 3, side }].to_vec(alloc)?;
    ScriptTester::new(alloc, b"ggggbbbb", rules, None)
}

/// Asserts that the run ends with the test of place 3.
fn ends_at_a_test<R, T>(rt: &R, tester: &mut T) -> Result<(), AllocError>
where
    R: Threads
        + Wait
        + Processes<Started = SystemProcess>
        + Clock
        + Eprint
        + Sync
        + Alloc<A = Global>
        + Abort,
    T: Tester,
    requires { T.is_split tester.old ≡ false }
{
    let report = reported(rt, rt.alloc(), 2, 0, tester)?;
    assert!(rt; report.ending == Ending::TestFault(3));
    assert!(rt; report.entries.is_empty());
    Ok(())
}

#[test]
fn two_workers_that_fail(rt: HostRuntime) -> Result<(), Fail> {
    finds(&rt, 2, &mut failing(rt.alloc(), Side::Splits)?)?;
    ends_at_a_test(&rt, &mut failing(rt.alloc(), Side::All)?)?;
    Ok(())
}

/// Asserts that no event is of the calling thread, that place 3 is not given back, and that it is posted.
fn workers_post(rt: &impl Abort, events: &[Event]) {
    let mut posted = false;
    for event in events {
        match *event {
            Event::Claim { worker, .. } => assert!(rt; worker > 0),
            Event::Give { worker, place } => assert!(rt; worker > 0 && place != 3),
            Event::Post { worker, place, .. } => {
                assert!(rt; worker > 0);
                posted = posted || place == 3;
            }
        }
    }
    assert!(rt; posted);
}

#[test]
fn two_tests_overlap(rt: HostRuntime) -> Result<(), Fail> {
    let gate = Arc::new(rt.alloc(), Gate::new())?;
    let none = Vec::new(rt.alloc());
    let mut tester = ScriptTester::new(rt.alloc(), b"ggggbbbb", none, Some(gate))?;
    let report = reported(&rt, rt.alloc(), 2, 0, &mut tester)?;
    workers_post(&rt, report.events.as_slice());
    Ok(())
}

/// Asserts that place 5 was claimed and given back by one worker, and never posted.
fn gives_back(rt: &impl Abort, events: &[Event]) {
    let mut claims = 0;
    let mut gives = 0;
    for event in events {
        match *event {
            Event::Claim { worker, place } if place == 5 => claims = worker,
            Event::Give { worker, place } if place == 5 => gives = worker,
            Event::Post { place, .. } => assert!(rt; place != 5),
            Event::Claim { .. } | Event::Give { .. } => {}
        }
    }
    assert!(rt; claims > 0 && gives == claims);
}

// While one worker tests place 3, the other one tests place 5, for the case that 3 is good. It is bad.
#[test]
fn a_needless_test_sees_its_flag_raised(rt: HostRuntime) -> Result<(), Fail> {
    let watch = Arc::new(rt.alloc(), Watch::new(3, 5))?;
    let mut tester = Late {
        inner: PlanTester::new(rt.alloc(), b"gbbbbbbb")?,
        watch: watch.clone()?,
    };
    let report = reported(&rt, rt.alloc(), 2, 0, &mut tester)?;
    assert!(rt; watch.was_raised());
    assert!(rt; report.ending == Ending::FirstBad(1));
    gives_back(&rt, report.events.as_slice());
    Ok(())
}
