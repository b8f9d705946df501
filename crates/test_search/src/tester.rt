//! Testers, with a flag, with threads, and with a command of the system.
ghost use Rattle.std.specs.Prelude.{◌≡◌, []};

use bf_io::{Bytes, Word};
use bf_oid::Oid;
use bf_search::Outcome;
use bf_tester::{
    Answer, FailRule, Gate, PlanTester, ProcessTester, ScriptTester, Side, StopView, TestReply,
    Tester,
};
use std::alloc::{AllocError, Global};
use std::process::{Abort, Processes, SystemProcess};
use std::sync::atomic::{AtomicBool, Ordering};
use std::sync::{Arc, Wait};
use std::test::Fail;
use std::thread;
use std::thread::Threads;
use std::time::{Clock, Duration};

const NAME: Oid = Oid([7; 20]);

#[test]
fn a_view_of_no_flag_sees_nothing(rt: HostRuntime) {
    let mut view = StopView::none();
    assert!(rt; !view.raised());
}

#[test]
fn a_lowered_flag_is_not_seen(rt: HostRuntime) {
    let flag = AtomicBool::new(false);
    assert!(rt; !StopView::over(&flag).raised());
}

#[test]
fn a_raised_flag_is_seen(rt: HostRuntime) {
    let flag = AtomicBool::new(true);
    let mut view = StopView::over(&flag);
    assert!(rt; view.raised());
    assert!(rt; view.raised());
}

/// The reply to a test that no flag withdraws.
fn reply<R, T>(rt: &R, tester: &mut T, place: u32) -> TestReply
where
    R: Threads + Wait + Processes<Started = SystemProcess> + Clock + Eprint + Sync,
    T: Tester,
{
    tester.test(rt, place, NAME, &mut StopView::none())
}

/// The reply to a test whose flag stands so.
fn reply_at_flag<R, T>(rt: &R, tester: &mut T, flag: &AtomicBool) -> TestReply
where
    R: Threads + Wait + Processes<Started = SystemProcess> + Clock + Eprint + Sync,
    T: Tester,
{
    tester.test(rt, 0, NAME, &mut StopView::over(flag))
}

/// The reply of a tester that is split off, whose answer is absorbed.
fn reply_of_split<R, T>(rt: &R, tester: &mut T, place: u32) -> Result<TestReply, AllocError>
where
    R: Threads + Wait + Processes<Started = SystemProcess> + Clock + Eprint + Sync,
    T: Tester,
{
    let mut split = tester.split()?;
    let reply = split.test(rt, place, NAME, &mut StopView::none());
    match tester.absorb(split) {
        Ok(()) => Ok(reply),
        Err(_) => Err(AllocError),
    }
}

fn push_words(alloc: Global, texts: &[&[u8]], words: &mut Vec<Word>) -> Result<(), AllocError> {
    for text in texts {
        words.push(Bytes::from_slice(alloc, text)?)?;
    }
    Ok(())
}

/// Prepares a tester for a command of these words.
fn prepare<T: Tester>(
    alloc: Global,
    tester: &mut T,
    texts: &[&[u8]],
    lenient: bool,
) -> Result<(), AllocError>
    requires { T.answers tester.old ≡ [] }
{
    let mut words = Vec::new(alloc);
    push_words(alloc, texts, &mut words)?;
    tester.prepare(words.as_slice(), lenient)
}

/// Asserts the outcomes of a plan `gbsakn`, past whose end it skips.
fn outcomes_of_letters<R>(rt: &R, tester: &mut PlanTester)
where
    R: Threads + Wait + Processes<Started = SystemProcess> + Clock + Eprint + Sync + Abort,
{
    let table = [
        (0, Outcome::Exit(0)),
        (1, Outcome::Exit(1)),
        (2, Outcome::Exit(125)),
        (3, Outcome::Exit(128)),
        (4, Outcome::Killed),
        (5, Outcome::Exit(127)),
        (6, Outcome::Exit(125)),
    ];
    for (place, outcome) in table {
        assert_eq!(rt; reply(rt, tester, place), TestReply::Done(outcome));
    }
    let last = Answer {
        place: 6,
        name: NAME,
        outcome: Outcome::Exit(125),
    };
    assert_eq!(rt; tester.answer(6), Some(last));
    assert_eq!(rt; tester.answer(7), None);
}

#[test]
fn letters_of_a_plan(rt: HostRuntime) -> Result<(), Fail> {
    let mut tester = PlanTester::new(rt.alloc(), b"gbsakn")?;
    outcomes_of_letters(&rt, &mut tester);
    let flag = AtomicBool::new(true);
    let dropped = reply_at_flag(&rt, &mut tester, &flag);
    assert_eq!(rt; dropped, TestReply::Dropped);
    Ok(())
}

/// Asserts the reply of a tester that is split off to a test of a place. Its answer is absorbed at the
/// index of the same number.
fn split_replies<R, T>(
    rt: &R,
    tester: &mut T,
    place: u32,
    expected: TestReply,
) -> Result<(), AllocError>
where
    R: Threads + Wait + Processes<Started = SystemProcess> + Clock + Eprint + Sync + Abort,
    T: Tester,
{
    assert_eq!(rt; reply_of_split(rt, tester, place)?, expected);
    assert!(rt; tester.answer(place as usize).is_some());
    Ok(())
}

#[test]
fn a_lenient_plan_and_its_split(rt: HostRuntime) -> Result<(), Fail> {
    let mut tester = PlanTester::new(rt.alloc(), b"nb")?;
    prepare(rt.alloc(), &mut tester, &[b"make", b"test"], true)?;
    split_replies(&rt, &mut tester, 0, TestReply::Done(Outcome::Exit(1)))?;
    Ok(())
}

/// A script of three good commits, of which two have rules.
fn script_with_rules(alloc: Global) -> Result<ScriptTester, AllocError> {
    let splits = FailRule {
        place: 1,
        side: Side::Splits,
    };
    let all = FailRule {
        place: 2,
        side: Side::All,
    };
    let rules = Vec::from_slice(alloc, &[splits, all])?;
    ScriptTester::new(alloc, b"ggg", rules, None)
}

fn rules_are_followed<R>(rt: &R, tester: &mut ScriptTester) -> Result<(), AllocError>
where
    R: Threads + Wait + Processes<Started = SystemProcess> + Clock + Eprint + Sync + Abort,
{
    let good = TestReply::Done(Outcome::Exit(0));
    let table = [
        (0, good, good),
        (1, good, TestReply::Failed),
        (2, TestReply::Failed, TestReply::Failed),
    ];
    for (place, own, other) in table {
        assert_eq!(rt; reply(rt, tester, place), own);
        assert_eq!(rt; reply_of_split(rt, tester, place)?, other);
    }
    assert!(rt; tester.answer(2).is_some());
    assert!(rt; tester.answer(3).is_none());
    Ok(())
}

#[test]
fn rules_of_a_script(rt: HostRuntime) -> Result<(), Fail> {
    let mut tester = script_with_rules(rt.alloc())?;
    rules_are_followed(&rt, &mut tester)?;
    Ok(())
}

fn gated_script(alloc: Global) -> Result<ScriptTester, AllocError> {
    let gate = Arc::new(alloc, Gate::new())?;
    ScriptTester::new(alloc, b"gb", Vec::new(alloc), Some(gate))
}

fn both_reply<R>(rt: &R, tester: &mut ScriptTester, other: &mut ScriptTester)
where
    R: Threads + Wait + Processes<Started = SystemProcess> + Clock + Eprint + Sync + Abort,
{
    let (first, second) = thread::join(rt, || reply(rt, tester, 0), || reply(rt, other, 1));
    assert_eq!(rt; first, TestReply::Done(Outcome::Exit(0)));
    assert_eq!(rt; second, TestReply::Done(Outcome::Exit(1)));
}

#[test]
fn two_tests_overlap_at_a_gate(rt: HostRuntime) -> Result<(), Fail> {
    let mut tester = gated_script(rt.alloc())?;
    let mut other = tester.split()?;
    both_reply(&rt, &mut tester, &mut other);
    Ok(())
}

/// Asserts the replies to tests by a command of a shell, which are read leniently.
fn shell_replies<R>(
    rt: &R,
    alloc: Global,
    script: &[u8],
    expected: TestReply,
) -> Result<(), AllocError>
where
    R: Threads + Wait + Processes<Started = SystemProcess> + Clock + Eprint + Sync + Abort,
{
    let mut tester = ProcessTester::new(alloc).silent();
    prepare(alloc, &mut tester, &[b"sh", b"-c", script], true)?;
    assert_eq!(rt; reply(rt, &mut tester, 0), expected);
    split_replies(rt, &mut tester, 1, expected)
}

#[test]
fn commands_of_a_shell(rt: HostRuntime) -> Result<(), Fail> {
    let table: [(&[u8], TestReply); 4] = [
        (
            b"test $0 = 0707070707070707070707070707070707070707",
            TestReply::Done(Outcome::Exit(0)),
        ),
        (b"exit 3", TestReply::Done(Outcome::Exit(3))),
        (b"exit 127", TestReply::Done(Outcome::Exit(1))),
        (b"kill -9 $$", TestReply::Done(Outcome::Killed)),
    ];
    for (script, expected) in table {
        shell_replies(&rt, rt.alloc(), script, expected)?;
    }
    Ok(())
}

/// The reply to a test whose flag is raised after so many milliseconds, by another thread.
fn reply_withdrawn<R>(rt: &R, tester: &mut ProcessTester, after: u64) -> TestReply
where
    R: Threads + Wait + Processes<Started = SystemProcess> + Clock + Eprint + Sync,
{
    let flag = AtomicBool::new(false);
    let shared = &flag;
    let (reply, _) = thread::join(
        rt,
        || tester.test(rt, 0, NAME, &mut StopView::over(shared)),
        || {
            thread::sleep(rt, Duration::from_millis(after));
            shared.store(true, Ordering::SeqCst);
        },
    );
    reply
}

#[test]
fn a_command_is_ended_once_nobody_waits_for_it(rt: HostRuntime) -> Result<(), Fail> {
    // The second one does not end when it is asked to.
    let scripts: [&[u8]; 2] = [
        b"exec sleep 100",
        b"trap '' TERM; while :; do sleep 0.1; done",
    ];
    for script in scripts {
        let mut tester = ProcessTester::new(rt.alloc()).silent();
        prepare(rt.alloc(), &mut tester, &[b"sh", b"-c", script], false)?;
        let reply = reply_withdrawn(&rt, &mut tester, 200);
        assert_eq!(rt; reply, TestReply::Dropped);
        assert!(rt; tester.answer(0).is_none());
    }
    Ok(())
}

#[test]
fn a_command_that_ends_before_its_flag_is_raised_is_not_dropped(
    rt: HostRuntime,
) -> Result<(), Fail> {
    let mut tester = ProcessTester::new(rt.alloc()).silent();
    prepare(rt.alloc(), &mut tester, &[b"sh", b"-c", b"exit 4"], false)?;
    let reply = reply_withdrawn(&rt, &mut tester, 2_000);
    assert_eq!(rt; reply, TestReply::Done(Outcome::Exit(4)));
    Ok(())
}

#[test]
fn a_patient_tester_waits_for_a_command_that_nobody_needs(rt: HostRuntime) -> Result<(), Fail> {
    let mut tester = ProcessTester::new(rt.alloc()).silent().patient();
    prepare(
        rt.alloc(),
        &mut tester,
        &[b"sh", b"-c", b"sleep 1; exit 4"],
        false,
    )?;
    let reply = reply_withdrawn(&rt, &mut tester, 200);
    assert_eq!(rt; reply, TestReply::Done(Outcome::Exit(4)));
    Ok(())
}

#[test]
fn a_tester_of_no_command_fails(rt: HostRuntime) {
    let mut plain = ProcessTester::new(rt.alloc()).silent();
    assert_eq!(rt; reply(&rt, &mut plain, 0), TestReply::Failed);
}

#[test]
fn a_telling_tester_replies(rt: HostRuntime) -> Result<(), Fail> {
    let mut telling = ProcessTester::new(rt.alloc());
    prepare(rt.alloc(), &mut telling, &[b"true"], false)?;
    assert_eq!(rt;
        reply(&rt, &mut telling, 0),
        TestReply::Done(Outcome::Exit(0))
    );
    Ok(())
}
