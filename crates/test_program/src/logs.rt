//! Runs that go on from a log, and logs that are told again or refused, all over a line of eight commits.
use crate::line::EIGHT;
use crate::program::words_of;
use bf_io::{Bytes, MemShelf, PlainShelf, PlainSink, PlainSource, Shelf, ShelfFile};
use bf_program::{Status, bisect_main};
use bf_tester::PlanTester;
use std::alloc::{AllocError, Global};
use std::process::{Processes, SystemProcess};
use std::sync::Wait;
use std::test::Fail;
use std::thread::Threads;
use std::time::Clock;

/// Words, the file that they name, and what they are answered.
struct Row {
    words: &'static [&'static [u8]],
    name: &'static [u8],
    file: &'static [u8],
    status: u8,
    text: &'static [u8],
}

// The log of a search after two tests.
const PART: &[u8] = b"# bad: [38d7eeaa2c641133c0a59de3e3515352366303d6] c7
# good: [56b29d9c130e2ec4b506a48d4fe5a18d92d8d1e3] c0
git bisect start '38d7eeaa2c641133c0a59de3e3515352366303d6' '56b29d9c130e2ec4b506a48d4fe5a18d92d8d1e3'
# good: [771edca49728d8c78d5b371976ec2debc7c92b35] c3
git bisect good 771edca49728d8c78d5b371976ec2debc7c92b35
# bad: [3dff7cbfbc1ec2409d1dc7dba41ba991437e56aa] c5
git bisect bad 3dff7cbfbc1ec2409d1dc7dba41ba991437e56aa
";

// Logs that lead to a state.
static GOING_ON: [Row; 8] = [
    Row {
        words: &[b"simulate", b"--replay", b"part.log", b"ggggbbbb"],
        name: b"part.log",
        file: PART,
        status: 0,
        text: b"# bad: [271bb9a08b2d5aa03871aa65fdadc01c488fa408] c4
git bisect bad 271bb9a08b2d5aa03871aa65fdadc01c488fa408
# first bad commit: [271bb9a08b2d5aa03871aa65fdadc01c488fa408] c4
271bb9a08b2d5aa03871aa65fdadc01c488fa408 is the first bad commit
",
    },
    Row {
        words: &[b"replay", b"--replay", b"part.log"],
        name: b"part.log",
        file: PART,
        status: 0,
        text: b"# bad: [38d7eeaa2c641133c0a59de3e3515352366303d6] c7
# good: [56b29d9c130e2ec4b506a48d4fe5a18d92d8d1e3] c0
git bisect start '38d7eeaa2c641133c0a59de3e3515352366303d6' '56b29d9c130e2ec4b506a48d4fe5a18d92d8d1e3'
# good: [771edca49728d8c78d5b371976ec2debc7c92b35] c3
git bisect good 771edca49728d8c78d5b371976ec2debc7c92b35
# bad: [3dff7cbfbc1ec2409d1dc7dba41ba991437e56aa] c5
git bisect bad 3dff7cbfbc1ec2409d1dc7dba41ba991437e56aa
bad: 3dff7cbfbc1ec2409d1dc7dba41ba991437e56aa
good: 56b29d9c130e2ec4b506a48d4fe5a18d92d8d1e3
good: 771edca49728d8c78d5b371976ec2debc7c92b35
",
    },
    Row {
        words: &[b"replay", b"--replay", b"s.log"],
        name: b"s.log",
        file: b"git bisect start
git bisect bad main
git bisect good main~7
",
        status: 0,
        text: b"git bisect start
# status: waiting for both good and bad commits
# bad: [38d7eeaa2c641133c0a59de3e3515352366303d6] c7
git bisect bad 38d7eeaa2c641133c0a59de3e3515352366303d6
# status: waiting for good commits, bad commit known
# good: [56b29d9c130e2ec4b506a48d4fe5a18d92d8d1e3] c0
git bisect good 56b29d9c130e2ec4b506a48d4fe5a18d92d8d1e3
bad: 38d7eeaa2c641133c0a59de3e3515352366303d6
good: 56b29d9c130e2ec4b506a48d4fe5a18d92d8d1e3
",
    },
    Row {
        words: &[b"replay", b"--replay", b"o.log"],
        name: b"o.log",
        file: b"git bisect start
git bisect new main
git bisect old main~7
git bisect skip main~3
",
        status: 0,
        text: b"git bisect start
# status: waiting for both old and new commits
# new: [38d7eeaa2c641133c0a59de3e3515352366303d6] c7
git bisect new 38d7eeaa2c641133c0a59de3e3515352366303d6
# status: waiting for old commits, new commit known
# old: [56b29d9c130e2ec4b506a48d4fe5a18d92d8d1e3] c0
git bisect old 56b29d9c130e2ec4b506a48d4fe5a18d92d8d1e3
# skip: [271bb9a08b2d5aa03871aa65fdadc01c488fa408] c4
git bisect skip 271bb9a08b2d5aa03871aa65fdadc01c488fa408
new: 38d7eeaa2c641133c0a59de3e3515352366303d6
old: 56b29d9c130e2ec4b506a48d4fe5a18d92d8d1e3
skip: 271bb9a08b2d5aa03871aa65fdadc01c488fa408
",
    },
    Row {
        words: &[b"next", b"--replay", b"o.log"],
        name: b"o.log",
        file: b"git bisect start --term-bad=fixed '--term-good' broken main 'main~7'
\tgit-bisect broken main~5
",
        status: 0,
        text: b"next: 271bb9a08b2d5aa03871aa65fdadc01c488fa408
",
    },
    Row {
        words: &[b"next", b"--replay", b"w.log"],
        name: b"w.log",
        file: b"git bisect start
",
        status: 17,
        text: b"waiting for both good and bad commits
",
    },
    Row {
        words: &[b"next", b"--replay", b"n.log"],
        name: b"n.log",
        file: b"# bad: [38d7eeaa2c641133c0a59de3e3515352366303d6] c7
# good: [56b29d9c130e2ec4b506a48d4fe5a18d92d8d1e3] c0
git bisect start 'main' 'main~7'
# good: [771edca49728d8c78d5b371976ec2debc7c92b35] c3
git bisect good 771edca49728d8c78d5b371976ec2debc7c92b35
",
        status: 0,
        text: b"next: 3dff7cbfbc1ec2409d1dc7dba41ba991437e56aa
",
    },
    Row {
        words: &[
            b"simulate",
            b"--replay",
            b"part.log",
            b"--skip",
            b"main~3",
            b"ggggbbbb",
        ],
        name: b"part.log",
        file: PART,
        status: 2,
        text: b"# skip: [271bb9a08b2d5aa03871aa65fdadc01c488fa408] c4
git bisect skip 271bb9a08b2d5aa03871aa65fdadc01c488fa408
# only skipped commits left to test
# possible first bad commit: [271bb9a08b2d5aa03871aa65fdadc01c488fa408] c4
# possible first bad commit: [3dff7cbfbc1ec2409d1dc7dba41ba991437e56aa] c5
There are only 'skip'ped commits left to test.
The first bad commit could be any of:
271bb9a08b2d5aa03871aa65fdadc01c488fa408
3dff7cbfbc1ec2409d1dc7dba41ba991437e56aa
We cannot bisect more!
",
    },
];

// Logs that are refused.
static REFUSED: [Row; 9] = [
    Row {
        words: &[b"simulate", b"--replay", b"bad.log", b"ggggbbbb"],
        name: b"bad.log",
        file: b"# bad: [38d7eeaa2c641133c0a59de3e3515352366303d6] c7
# good: [56b29d9c130e2ec4b506a48d4fe5a18d92d8d1e3] c0
git bisect start '38d7eeaa2c641133c0a59de3e3515352366303d6' '56b29d9c130e2ec4b506a48d4fe5a18d92d8d1e3'
git bisect good 0123456789012345678901234567890123456789
",
        status: 10,
        text: b"log refused at line 4
",
    },
    Row {
        words: &[b"simulate", b"--replay", b"none.log", b"g"],
        name: b"",
        file: b"",
        status: 16,
        text: b"no such file
",
    },
    Row {
        words: &[b"next", b"--replay", b"one.log"],
        name: b"one.log",
        file: b"",
        status: 10,
        text: b"log refused at line 1
",
    },
    Row {
        words: &[b"next", b"--replay", b"one.log"],
        name: b"one.log",
        file: b"git bisect good
",
        status: 10,
        text: b"log refused at line 1
",
    },
    Row {
        words: &[b"next", b"--replay", b"one.log"],
        name: b"one.log",
        file: b"git bisect good a b
",
        status: 10,
        text: b"log refused at line 1
",
    },
    Row {
        words: &[b"next", b"--replay", b"one.log"],
        name: b"one.log",
        file: b"git bisect start 'abc
",
        status: 10,
        text: b"log refused at line 1
",
    },
    Row {
        words: &[b"next", b"--replay", b"one.log"],
        name: b"one.log",
        file: b"git bisect start --term-new
",
        status: 10,
        text: b"log refused at line 1
",
    },
    Row {
        words: &[b"next", b"--replay", b"one.log"],
        name: b"one.log",
        file: b"git bisect start -x
",
        status: 10,
        text: b"log refused at line 1
",
    },
    Row {
        words: &[b"next", b"--replay", b"one.log"],
        name: b"one.log",
        file: b"git bisect start a -- b
",
        status: 10,
        text: b"log refused at line 1
",
    },
];

/// The file of a row alone, on a shelf.
fn files_of(alloc: Global, row: &Row) -> Result<Vec<ShelfFile>, AllocError> {
    let mut files = Vec::new(alloc);
    files.push(ShelfFile {
        name: Bytes::from_slice(alloc, row.name)?,
        bytes: Bytes::from_slice(alloc, row.file)?,
    })?;
    Ok(files)
}

/// The status of the program over a shelf.
fn run<R, F: Shelf>(
    rt: &R,
    alloc: Global,
    words: &[&[u8]],
    shelf: &mut F,
    out: &mut PlainSink,
) -> Result<Status, AllocError>
where
    R: Threads + Wait + Processes<Started = SystemProcess> + Clock + Eprint + Sync,
{
    let words = words_of(alloc, words)?;
    let mut stream = PlainSource::new(Bytes::from_slice(alloc, EIGHT)?);
    let mut tester = PlanTester::new(alloc, b"")?;
    let status = bisect_main(
        rt,
        alloc,
        words.as_slice(),
        &mut stream,
        shelf,
        &mut tester,
        out,
    );
    Ok(status)
}

/// Whether a row holds.
fn holds<R>(rt: &R, alloc: Global, row: &Row) -> Result<bool, AllocError>
where
    R: Threads + Wait + Processes<Started = SystemProcess> + Clock + Eprint + Sync,
{
    let mut shelf = PlainShelf::new(files_of(alloc, row)?);
    let mut out = PlainSink::new(alloc);
    let status = run(rt, alloc, row.words, &mut shelf, &mut out)?;
    Ok(status.number() == row.status && out.bytes() == row.text)
}

#[test]
fn runs_go_on_from_logs(rt: HostRuntime) -> Result<(), Fail> {
    for row in &GOING_ON {
        assert!(rt; holds(&rt, rt.alloc(), row)?, "{:?}", row.words);
    }
    Ok(())
}

#[test]
fn logs_that_are_refused(rt: HostRuntime) -> Result<(), Fail> {
    for row in &REFUSED {
        assert!(rt; holds(&rt, rt.alloc(), row)?, "{:?}", row.words);
    }
    Ok(())
}

#[test]
fn a_shelf_that_fails(rt: HostRuntime) -> Result<(), Fail> {
    let alloc = rt.alloc();
    let row = &GOING_ON[0];
    let mut shelf = MemShelf::new(files_of(alloc, row)?, [1].to_vec(alloc)?);
    let mut out = PlainSink::new(alloc);
    let status = run(&rt, alloc, row.words, &mut shelf, &mut out)?;
    assert_eq!(rt; status, Status::ShelfFault);
    assert_eq!(rt; out.bytes(), b"file fault\n".as_slice());
    Ok(())
}
