//! Runs that test commits by several workers: tests that fail, tests that overlap, a real command, and large histories.
use crate::line::{EIGHT, FOUND, THREE};
use crate::program::{run, test};
use bf_io::{Bytes, MemSource, PlainSink};
use bf_program::Status;
use bf_tester::{FailRule, Gate, ProcessTester, ScriptTester, Side};
use std::alloc::{AllocError, Global};
use std::process::{Abort, Processes, SystemProcess};
use std::sync::{Arc, Wait};
use std::test::Fail;
use std::thread::Threads;
use std::time::Clock;

/// The status and the text of a run by so many workers over the line of eight, where tests fail by a rule.
fn ruled<R>(rt: &R, workers: &[u8], rule: FailRule) -> Result<(Status, Bytes), AllocError>
where
    R: Threads
        + Wait
        + Processes<Started = SystemProcess>
        + Clock
        + Eprint
        + Sync
        + Alloc<A = Global>,
{
    let alloc = rt.alloc();
    let line: [&[u8]; 7] = [
        b"run",
        b"--workers",
        workers,
        b"main",
        b"main~7",
        b"--",
        b"t",
    ];
    let mut tester = ScriptTester::new(alloc, b"ggggbbbb", [rule].to_vec(alloc)?, None)?;
    let mut out = PlainSink::new(alloc);
    let status = test(rt, &line, EIGHT, &mut tester, &mut out)?;
    Ok((status, out.into_bytes()))
}

/// Asserts that a run found the first bad commit.
fn has_found(rt: &impl Abort, place: u32, ran: &(Status, Bytes)) {
    assert_eq!(rt; ran.0, Status::Done, "place {place}");
    assert_eq!(rt; ran.1.as_slice(), FOUND, "place {place}");
}

/// Asserts how a run ends where all tests of a place fail.
fn has_no_test_of(rt: &impl Abort, place: u32, ran: &(Status, Bytes)) {
    if [3, 4, 5].contains(&place) {
        assert_eq!(rt; ran.0, Status::TestFault { place });
    } else {
        has_found(rt, place, ran);
    }
}

// Where the tests of one place fail by the workers alone, the calling thread tests it. Where all of them fail, the run
// ends exactly at the places that it asks for.
#[test]
fn each_place_fails(rt: HostRuntime) -> Result<(), Fail> {
    for workers in [b"1", b"2"] {
        for place in 0..8 {
            let side = Side::Splits;
            has_found(&rt, place, &ruled(&rt, workers, FailRule { place, side })?);
            let side = Side::All;
            has_no_test_of(&rt, place, &ruled(&rt, workers, FailRule { place, side })?);
        }
    }
    Ok(())
}

const FAILED: &[u8] = b"# bad: [38d7eeaa2c641133c0a59de3e3515352366303d6] c7
# good: [56b29d9c130e2ec4b506a48d4fe5a18d92d8d1e3] c0
git bisect start '38d7eeaa2c641133c0a59de3e3515352366303d6' '56b29d9c130e2ec4b506a48d4fe5a18d92d8d1e3'
test fault on 771edca49728d8c78d5b371976ec2debc7c92b35
";

#[test]
fn a_failed_test_is_told_behind_the_log(rt: HostRuntime) -> Result<(), Fail> {
    let rule = FailRule {
        place: 3,
        side: Side::All,
    };
    let (status, text) = ruled(&rt, b"2", rule)?;
    assert_eq!(rt;
        (status, text.as_slice()),
        (Status::TestFault { place: 3 }, FAILED)
    );
    Ok(())
}

/// Whether a line of a trace says that one of the two workers posted that the third commit is good.
fn is_post(line: &[u8]) -> bool {
    line == b"post 1 771edca49728d8c78d5b371976ec2debc7c92b35 exit 0".as_slice()
        || line == b"post 2 771edca49728d8c78d5b371976ec2debc7c92b35 exit 0".as_slice()
}

/// Whether a line of a trace names the calling thread, or gives the third commit back.
fn is_alone(line: &[u8]) -> bool {
    line.starts_with(b"claim 0 ")
        || line.starts_with(b"post 0 ")
        || line.starts_with(b"give 0 ")
        || (line.starts_with(b"give ")
            && line.ends_with(b"771edca49728d8c78d5b371976ec2debc7c92b35"))
}

/// Asserts that the workers alone test, and that one of them posts the third commit.
fn workers_post(rt: &impl Abort, text: &[u8]) {
    let mut is_posted = false;
    for line in text.split(|byte| *byte == b'\n') {
        assert!(rt; !is_alone(line));
        is_posted = is_posted || is_post(line);
    }
    assert!(rt; is_posted);
}

// The first of all tests ends only after a second one has begun.
#[test]
fn tests_overlap(rt: HostRuntime) -> Result<(), Fail> {
    let alloc = rt.alloc();
    let line: [&[u8]; 8] = [
        b"run",
        b"--workers",
        b"2",
        b"--trace",
        b"main",
        b"main~7",
        b"--",
        b"t",
    ];
    let gate = Some(Arc::new(alloc, Gate::new())?);
    let mut tester = ScriptTester::new(alloc, b"ggggbbbb", Vec::new(alloc), gate)?;
    let mut out = PlainSink::new(alloc);
    let status = test(&rt, &line, EIGHT, &mut tester, &mut out)?;
    assert_eq!(rt; status, Status::Done);
    assert!(rt; out.bytes().starts_with(FOUND));
    workers_post(&rt, out.bytes());
    Ok(())
}

/// Asserts that the first event is a claim of the third commit by one of the two workers.
fn third_is_claimed(rt: &impl Abort, trace: &[u8]) {
    assert!(rt;
        trace.starts_with(b"claim 1 771edca49728d8c78d5b371976ec2debc7c92b35\n")
            || trace.starts_with(b"claim 2 771edca49728d8c78d5b371976ec2debc7c92b35\n")
    );
}

// Two workers make the tests of a plan, too: the trace is theirs alone, and begins with what the search asks first.
#[test]
fn two_workers_are_traced(rt: HostRuntime) -> Result<(), Fail> {
    let alloc = rt.alloc();
    let line: [&[u8]; 7] = [
        b"simulate",
        b"--workers",
        b"2",
        b"--trace",
        b"main",
        b"main~7",
        b"ggggbbbb",
    ];
    let mut stream = MemSource::new(Bytes::from_slice(alloc, EIGHT)?, 65_536, Vec::new(alloc));
    let mut out = PlainSink::new(alloc);
    let status = run(&rt, &line, &mut stream, &mut out)?;
    assert_eq!(rt; status, Status::Done);
    let trace = out.bytes().strip_prefix(FOUND).unwrap_or_default();
    third_is_claimed(&rt, trace);
    workers_post(&rt, trace);
    Ok(())
}

const SECOND_IS_BAD: &[u8] = b"f570778fec974dd2b05ee862e235ff38a61118d3 is the first bad commit\n";

const IS_ANOTHER: &[u8] = b"test \"$0\" != f570778fec974dd2b05ee862e235ff38a61118d3";

// The command gets the name as its last word, and its status is the outcome.
#[test]
fn a_command_tests_commits(rt: HostRuntime) -> Result<(), Fail> {
    let alloc = rt.alloc();
    let line: [&[u8]; 7] = [b"run", b"main", b"main~2", b"--", b"sh", b"-c", IS_ANOTHER];
    let mut tester = ProcessTester::new(alloc).silent();
    let mut out = PlainSink::new(alloc);
    let status = test(&rt, &line, THREE, &mut tester, &mut out)?;
    assert_eq!(rt; status, Status::Done);
    assert!(rt; out.bytes().ends_with(SECOND_IS_BAD));
    Ok(())
}

/// What a search over a generated history prints.
fn sampled<R>(rt: &R, words: &[&[u8]]) -> Result<Bytes, AllocError>
where
    R: Threads
        + Wait
        + Processes<Started = SystemProcess>
        + Clock
        + Eprint
        + Sync
        + Alloc<A = Global>,
{
    let alloc = rt.alloc();
    let mut stream = MemSource::new(Bytes::new(alloc), 16, Vec::new(alloc));
    let mut out = PlainSink::new(alloc);
    run(rt, words, &mut stream, &mut out)?;
    Ok(out.into_bytes())
}

#[test]
fn large_histories_are_searched(rt: HostRuntime) -> Result<(), Fail> {
    let one = sampled(&rt, &[b"sample", b"1", b"4000"])?;
    assert!(rt; one.as_slice().starts_with(b"commits 4000\n"));
    let many = sampled(&rt, &[b"sample", b"--workers", b"8", b"1", b"4000"])?;
    assert_eq!(rt; one.as_slice(), many.as_slice());
    Ok(())
}

#[test]
fn a_larger_history_is_searched(rt: HostRuntime) -> Result<(), Fail> {
    let most = sampled(&rt, &[b"sample", b"1", b"20000"])?;
    assert!(rt; most.as_slice().starts_with(b"commits 20000\n"));
    Ok(())
}
