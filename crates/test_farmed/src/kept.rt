//! Runs whose outcomes are kept on a disk, from which the same line goes on.
use crate::devices::{Call, disk_of, make_call, told_on};
use crate::line::{EIGHT, FOUND};
use bf_io::MemSink;
use bf_output::Status;
use bf_tester::{FailRule, Side, Tester};
use std::test::Fail;

/// A run over the line of eight.
static RUN: [&[u8]; 6] = [b"journal", b"run", b"main", b"main~7", b"--", b"t"];

/// A call of it, whose tests fail by these rules.
fn run_with(rules: &[FailRule]) -> Call<'_> {
    Call {
        words: &RUN,
        stream: EIGHT,
        file: b"",
        rules,
        folder: &[],
    }
}

/// Each test of a place fails.
fn fails_at(place: u32) -> FailRule {
    FailRule {
        place,
        side: Side::All,
    }
}

#[test]
fn what_is_kept_is_not_tested_again(rt: HostRuntime) -> Result<(), Fail> {
    let mut disk = disk_of(rt.alloc(), &[], None)?;
    let first = told_on(&rt, run_with(&[]), &mut disk)?;
    assert_eq!(rt; first.0, Status::Done);
    assert_eq!(rt; first.1.as_slice(), FOUND);
    let second = told_on(
        &rt,
        run_with(&[fails_at(3), fails_at(4), fails_at(5)]),
        &mut disk,
    )?;
    assert_eq!(rt; second.0, Status::Done);
    assert_eq!(rt; second.1.as_slice(), FOUND);
    Ok(())
}

#[test]
fn the_journal_of_another_command_is_refused(rt: HostRuntime) -> Result<(), Fail> {
    let mut disk = disk_of(rt.alloc(), &[], None)?;
    told_on(&rt, run_with(&[]), &mut disk)?;
    let words: [&[u8]; 6] = [b"journal", b"run", b"main", b"main~7", b"--", b"u"];
    let other = Call {
        words: &words,
        ..run_with(&[])
    };
    let told = told_on(&rt, other, &mut disk)?;
    assert_eq!(rt; told.0.number(), 21);
    assert_eq!(rt; told.1.as_slice(), b"journal of another run\n".as_slice());
    Ok(())
}

// Eight calls open the journal on an empty disk, and four keep each of the three outcomes.
#[test]
fn a_run_goes_on_after_a_crash_at_each_call(rt: HostRuntime) -> Result<(), Fail> {
    for stop in 0..20 {
        for fill in [0, 1] {
            let mut disk = disk_of(rt.alloc(), &[], Some(stop))?;
            let told = told_on(&rt, run_with(&[]), &mut disk)?;
            assert_eq!(rt; told.0, Status::JournalFault, "after {stop} calls");
            assert!(rt; is_cut(told.1.as_slice()), "after {stop} calls");
            let mut later = disk.crash(fill);
            let whole = told_on(&rt, run_with(&[]), &mut later)?;
            assert_eq!(rt; whole.0, Status::Done, "after {stop} calls");
            assert_eq!(rt; whole.1.as_slice(), FOUND, "after {stop} calls");
        }
    }
    Ok(())
}

/// Whether a text has the first lines of the log and then the line of the fault.
fn is_cut(text: &[u8]) -> bool {
    match text.strip_suffix(b"journal fault\n") {
        Some(log) => FOUND.starts_with(log),
        None => false,
    }
}

// A test that could not be made has no outcome that is kept: the next run makes it again.
#[test]
fn a_failed_test_is_made_again(rt: HostRuntime) -> Result<(), Fail> {
    let mut disk = disk_of(rt.alloc(), &[], None)?;
    let failed = told_on(&rt, run_with(&[fails_at(3)]), &mut disk)?;
    assert_eq!(rt; failed.0, Status::TestFault { place: 3 });
    let again = told_on(&rt, run_with(&[]), &mut disk)?;
    assert_eq!(rt; again.0, Status::Done);
    assert_eq!(rt; again.1.as_slice(), FOUND);
    Ok(())
}

// Each leg is kept before its lines are flushed: where the first flush fails, one commit was tested, and the disk
// stands for its outcome alone.
#[test]
fn each_leg_is_kept(rt: HostRuntime) -> Result<(), Fail> {
    let alloc = rt.alloc();
    let mut disk = disk_of(alloc, &[], None)?;
    let mut out = MemSink::new(alloc, 65_536, [2].to_vec(alloc)?);
    let made = make_call(&rt, run_with(&[]), &mut disk, &mut out)?;
    assert_eq!(rt; made.status, Status::WriteFault);
    assert!(rt; made.tester.answer(0).is_some() && made.tester.answer(1).is_none());
    assert!(rt; FOUND.starts_with(out.bytes()) && out.bytes().len() > 300);
    let later = told_on(&rt, run_with(&[fails_at(3), fails_at(5)]), &mut disk)?;
    assert_eq!(rt; later.0, Status::TestFault { place: 5 });
    Ok(())
}
