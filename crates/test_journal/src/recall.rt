//! Remembered outcomes are not tested again.
ghost use Rattle.std.specs.Prelude.{◌≡◌};

use bf_journal::Recall;
use bf_oid::Oid;
use bf_search::Outcome;
use bf_tester::{Answer, PlanTester, StopView, TestReply, Tester};
use std::alloc::AllocError;
use std::process::{Processes, SystemProcess};
use std::sync::Wait;
use std::test::Fail;
use std::thread::Threads;
use std::time::Clock;

const NAME: Oid = Oid([7; 20]);

/// The reply to a test that no flag withdraws.
fn reply<R, T>(rt: &R, tester: &mut T, place: u32) -> TestReply
where
    R: Threads + Wait + Processes<Started = SystemProcess> + Clock + Eprint + Sync,
    T: Tester,
    ensures command { T.command tester.new ≡ T.command tester.old }
    ensures is_lenient { T.is_lenient tester.new ≡ T.is_lenient tester.old }
    ensures grounds { T.grounds tester.new ≡ T.grounds tester.old }
    ensures recalled { T.recalled tester.new ≡ T.recalled tester.old }
{
    tester.test(rt, place, NAME, &mut StopView::none())
}

fn kept(place: u32, outcome: Outcome) -> Answer
    ensures { result.place ≡ place }
{
    Answer {
        place,
        name: NAME,
        outcome,
    }
}

#[test]
fn a_remembered_place_is_not_tested(rt: HostRuntime) -> Result<(), Fail> {
    let alloc = rt.alloc();
    let mut tester = Recall::new(alloc, PlanTester::new(alloc, b"ggg")?);
    tester.remember(&[kept(2, Outcome::Exit(1))])?;
    assert_eq!(rt;
        reply(&rt, &mut tester, 2),
        TestReply::Done(Outcome::Exit(1))
    );
    assert_eq!(rt;
        reply(&rt, &mut tester, 1),
        TestReply::Done(Outcome::Exit(0))
    );
    assert_eq!(rt; tester.answer(0), Some(kept(2, Outcome::Exit(1))));
    assert_eq!(rt; tester.answer(1), Some(kept(1, Outcome::Exit(0))));
    assert_eq!(rt; tester.inner().answer(0), Some(kept(1, Outcome::Exit(0))));
    assert_eq!(rt; tester.inner().answer(1), None);
    Ok(())
}

#[test]
fn a_remembered_outcome_is_read_leniently(rt: HostRuntime) -> Result<(), Fail> {
    let alloc = rt.alloc();
    let mut tester = Recall::new(alloc, PlanTester::new(alloc, b"g")?);
    tester.remember(&[kept(4, Outcome::Exit(127)), kept(3, Outcome::Killed)])?;
    assert_eq!(rt;
        reply(&rt, &mut tester.split()?, 4),
        TestReply::Done(Outcome::Exit(127))
    );
    tester.prepare(&[], true)?;
    let mut split = tester.split()?;
    assert_eq!(rt;
        reply(&rt, &mut split, 4),
        TestReply::Done(Outcome::Exit(1))
    );
    assert_eq!(rt; reply(&rt, &mut split, 3), TestReply::Done(Outcome::Killed));
    assert!(rt; tester.absorb(split).is_ok());
    assert_eq!(rt; tester.answer(1), Some(kept(3, Outcome::Killed)));
    Ok(())
}
