//! A log and an answer, whole.
ghost use Rattle.std.specs.Prelude.{◌≡◌, length, All};
ghost use Rattle.bf_log.specs.Labels.{AreCommits};
ghost use Rattle.bf_search.specs.Within.{IsEntryWithin};

use bf_graph::Places;
use bf_io::Bytes;
use bf_log::*;
use bf_oid::Oid;
use bf_search::{Ask, Entry, Mark, Outcome};
use std::alloc::{AllocError, Global};
use std::test::Fail;

fn write_waits(sides: Sides<'_>, out: &mut Bytes) -> Result<(), AllocError> {
    write_waiting(sides, false, 0, out)?;
    write_waiting(sides, false, 12, out)?;
    write_waiting(sides, true, 0, out)
}

// What a search waits for, by whether a bad commit is known and how many good ones are.
#[test]
fn what_a_search_waits_for_is_said(rt: HostRuntime) -> Result<(), Fail> {
    let sides = Sides {
        new: b"slow",
        old: b"fast",
    };
    let mut out = Bytes::new(rt.alloc());
    write_waits(sides, &mut out)?;
    assert_eq!(rt;
        out.as_slice(),
        b"waiting for both fast and slow commits
waiting for slow commit, 12 fast known
waiting for fast commits, slow commit known
"
            .as_slice()
    );
    Ok(())
}

fn two_subjects(alloc: Global) -> Result<[Bytes; 2], AllocError> {
    Ok([
        Bytes::from_slice(alloc, b"c1")?,
        Bytes::from_slice(alloc, b"c2")?,
    ])
}

fn write_search(
    alloc: Global,
    commits: Commits<'_>,
    sides: Sides<'_>,
    entries: &[Entry],
    out: &mut Bytes,
) -> Result<(), AllocError>
    requires commits { AreCommits commits }
    requires two { length commits.names.now ≡ 2 }
    requires places { All (IsEntryWithin (length commits.names.now)) entries.now }
{
    write_entries(alloc, commits, sides, entries, out)?;
    write_ask(commits, sides, &Ask::FirstBad(1), out)?;
    write_aborted(commits, 0, Outcome::Exit(128), out)
}

// A search in which a commit is marked after the start, skipped, and found.
#[test]
fn a_log_and_its_answer(rt: HostRuntime) -> Result<(), Fail> {
    let names = [Oid([0x11; 20]), Oid([0x2a; 20])];
    let subjects = two_subjects(rt.alloc())?;
    let commits = Commits {
        names: &names,
        subjects: &subjects,
    };
    let sides = Sides {
        new: b"bad",
        old: b"good",
    };
    let entries = [
        Entry::Start {
            first_parent: true,
            terms_given: false,
            bad: Some(1),
            goods: Places::new(rt.alloc()),
        },
        Entry::Marked {
            mark: Mark::Good,
            place: 0,
        },
        Entry::FirstBadFound { place: 1 },
    ];
    let mut out = Bytes::new(rt.alloc());
    write_search(rt.alloc(), commits, sides, &entries, &mut out)?;
    assert_eq!(rt;
        out.as_slice(),
        b"# bad: [2a2a2a2a2a2a2a2a2a2a2a2a2a2a2a2a2a2a2a2a] c2
git bisect start '--first-parent' '2a2a2a2a2a2a2a2a2a2a2a2a2a2a2a2a2a2a2a2a'
# status: waiting for good commits, bad commit known
# good: [1111111111111111111111111111111111111111] c1
git bisect good 1111111111111111111111111111111111111111
# first bad commit: [2a2a2a2a2a2a2a2a2a2a2a2a2a2a2a2a2a2a2a2a] c2
2a2a2a2a2a2a2a2a2a2a2a2a2a2a2a2a2a2a2a2a is the first bad commit
bisect aborted: exit 128 on 1111111111111111111111111111111111111111
"
            .as_slice()
    );
    Ok(())
}

// What is known where a start names a good commit.
fn known_good(alloc: Global) -> Result<Known, AllocError> {
    let first = [Entry::Start {
        first_parent: false,
        terms_given: false,
        bad: None,
        goods: Places::from_slice(alloc, &[0])?,
    }];
    let mut known = Known::nothing(alloc);
    known.learn_all(&first)?;
    Ok(known)
}

fn write_later(
    known: &Known,
    commits: Commits<'_>,
    sides: Sides<'_>,
    out: &mut Bytes,
) -> Result<(), AllocError>
    requires commits { AreCommits commits }
    requires one { length commits.names.now ≡ 1 }
{
    let later = [Entry::Marked {
        mark: Mark::Bad,
        place: 0,
    }];
    write_more(&mut known.try_clone()?, commits, sides, &later, out)
}

// The good commit of the start is known already, so the mark has no status line.
#[test]
fn later_entries_go_on_from_what_is_known(rt: HostRuntime) -> Result<(), Fail> {
    let names = [Oid([0x11; 20])];
    let subjects = [Bytes::from_slice(rt.alloc(), b"c1")?];
    let commits = Commits {
        names: &names,
        subjects: &subjects,
    };
    let sides = Sides {
        new: b"bad",
        old: b"good",
    };
    let known = known_good(rt.alloc())?;
    let mut out = Bytes::new(rt.alloc());
    write_later(&known, commits, sides, &mut out)?;
    assert_eq!(rt;
        out.as_slice(),
        b"# bad: [1111111111111111111111111111111111111111] c1
git bisect bad 1111111111111111111111111111111111111111
"
            .as_slice()
    );
    Ok(())
}

#[test]
fn a_state_is_told(rt: HostRuntime) -> Result<(), Fail> {
    let names = [Oid([0x11; 20]), Oid([0x2a; 20]), Oid([0x33; 20])];
    let subjects = [
        Bytes::new(rt.alloc()),
        Bytes::new(rt.alloc()),
        Bytes::new(rt.alloc()),
    ];
    let commits = Commits {
        names: &names,
        subjects: &subjects,
    };
    let sides = Sides {
        new: b"slow",
        old: b"fast",
    };
    let marked = MarkedPlaces {
        bad: Some(2),
        goods: &[1],
        skipped: &[0],
    };
    let mut out = Bytes::new(rt.alloc());
    write_state(commits, sides, marked, &mut out)?;
    assert_eq!(rt;
        out.as_slice(),
        b"slow: 3333333333333333333333333333333333333333
fast: 2a2a2a2a2a2a2a2a2a2a2a2a2a2a2a2a2a2a2a2a
skip: 1111111111111111111111111111111111111111
"
            .as_slice()
    );
    Ok(())
}
