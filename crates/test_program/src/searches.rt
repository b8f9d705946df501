//! Whole runs over small streams, each with its words, its status and what it writes.
ghost use Rattle.std.specs.Prelude.{◌<◌};

use crate::line::{EIGHT, FOUND, THREE};
use crate::program::run;
use bf_io::{Bytes, MemSource, PlainSink};
use std::alloc::{AllocError, Global};
use std::process::{Processes, SystemProcess};
use std::sync::Wait;
use std::test::Fail;
use std::thread::Threads;
use std::time::Clock;

pub(crate) const FIRST: &[u8] = b"commit refs/heads/old
mark :1
committer T <t@e> 0 +0000
data 2
c0
commit refs/heads/main
mark :2
committer T <t@e> 1 +0000
data 2
c1
from :1
commit refs/heads/main
mark :3
committer T <t@e> 2 +0000
data 2
c2
commit refs/heads/main
mark :4
committer T <t@e> 3 +0000
data 2
c3
";

const FORK: &[u8] = b"commit refs/heads/main
mark :1
committer T <t@e> 0 +0000
data 2
c0
commit refs/heads/main
mark :2
committer T <t@e> 1 +0000
data 2
c1
commit refs/heads/side
mark :3
committer T <t@e> 2 +0000
data 2
c2
from :1
";

const DIAMOND: &[u8] = b"commit refs/heads/main
mark :1
committer T <t@e> 0 +0000
data 2
c0
commit refs/heads/main
mark :2
committer T <t@e> 1 +0000
data 2
c1
commit refs/heads/side
mark :3
committer T <t@e> 2 +0000
data 2
c2
from :1
commit refs/heads/main
mark :4
committer T <t@e> 3 +0000
data 2
c3
merge :3
";

const TWO: &[u8] = b"commit refs/heads/main
mark :1
committer T <t@e> 0 +0000
data 2
c0
commit refs/heads/main
mark :2
committer T <t@e> 1 +0000
data 2
c1
";

const EMPTY: &[u8] = b"";

const CUT: &[u8] = b"commit refs/heads/main
committer A <a@b> 0 +0000
data 10
abc
";

const CHECKPOINT: &[u8] = b"checkpoint
";

/// Words over a stream, and what is answered and written.
struct Row {
    words: &'static [&'static [u8]],
    stream: &'static [u8],
    status: u8,
    text: &'static [u8],
}

// Searches, each with its end. Past the end of the plan a test is skipped. Some are made by several workers, or in
// legs, and the trace of one worker tells the tests of the log.
static SEARCHES: [Row; 12] = [
    Row {
        words: &[
            b"simulate",
            b"--leg",
            b"2",
            b"--workers",
            b"8",
            b"main",
            b"main~7",
            b"ggggbbbb",
        ],
        stream: EIGHT,
        status: 0,
        text: FOUND,
    },
    Row {
        words: &[
            b"simulate",
            b"--trace",
            b"--leg",
            b"1",
            b"main",
            b"main~7",
            b"ggggbbbb",
        ],
        stream: EIGHT,
        status: 0,
        text: TRACED,
    },
    Row {
        words: &[b"simulate", b"refs/heads/main", b"refs/heads/old", b"ggbb"],
        stream: FIRST,
        status: 0,
        text: b"# bad: [771edca49728d8c78d5b371976ec2debc7c92b35] c3
# good: [56b29d9c130e2ec4b506a48d4fe5a18d92d8d1e3] c0
git bisect start '771edca49728d8c78d5b371976ec2debc7c92b35' '56b29d9c130e2ec4b506a48d4fe5a18d92d8d1e3'
# good: [f570778fec974dd2b05ee862e235ff38a61118d3] c1
git bisect good f570778fec974dd2b05ee862e235ff38a61118d3
# bad: [2a83eb598262042db81ddad6b0c3b6c0d200c521] c2
git bisect bad 2a83eb598262042db81ddad6b0c3b6c0d200c521
# first bad commit: [2a83eb598262042db81ddad6b0c3b6c0d200c521] c2
2a83eb598262042db81ddad6b0c3b6c0d200c521 is the first bad commit
",
    },
    Row {
        words: &[b"simulate", b"--workers", b"2", b"main", b"side", b"bbg"],
        stream: FORK,
        status: 3,
        text: b"# bad: [f570778fec974dd2b05ee862e235ff38a61118d3] c1
# good: [cf280beb8e59855da6095186b2544590849cd8dd] c2
git bisect start 'f570778fec974dd2b05ee862e235ff38a61118d3' 'cf280beb8e59855da6095186b2544590849cd8dd'
# bad: [56b29d9c130e2ec4b506a48d4fe5a18d92d8d1e3] c0
git bisect bad 56b29d9c130e2ec4b506a48d4fe5a18d92d8d1e3
The merge base 56b29d9c130e2ec4b506a48d4fe5a18d92d8d1e3 is bad.
The change was undone between it and one of the good commits.
",
    },
    Row {
        words: &[b"simulate", b"main", b"--workers", b"4", b"side", b"sbg"],
        stream: FORK,
        status: 0,
        text: b"# bad: [f570778fec974dd2b05ee862e235ff38a61118d3] c1
# good: [cf280beb8e59855da6095186b2544590849cd8dd] c2
git bisect start 'f570778fec974dd2b05ee862e235ff38a61118d3' 'cf280beb8e59855da6095186b2544590849cd8dd'
# skip: [56b29d9c130e2ec4b506a48d4fe5a18d92d8d1e3] c0
git bisect skip 56b29d9c130e2ec4b506a48d4fe5a18d92d8d1e3
# skipped merge base: [56b29d9c130e2ec4b506a48d4fe5a18d92d8d1e3] c0
# first bad commit: [f570778fec974dd2b05ee862e235ff38a61118d3] c1
f570778fec974dd2b05ee862e235ff38a61118d3 is the first bad commit
",
    },
    Row {
        words: &[
            b"simulate",
            b"--first-parent",
            b"--workers",
            b"64",
            b"main",
            b"main~2",
            b"gggb",
        ],
        stream: DIAMOND,
        status: 0,
        text: b"# bad: [5cd6ff3c76dd421bcbf1c51e84af82d13c982912] c3
# good: [56b29d9c130e2ec4b506a48d4fe5a18d92d8d1e3] c0
git bisect start '--first-parent' '5cd6ff3c76dd421bcbf1c51e84af82d13c982912' '56b29d9c130e2ec4b506a48d4fe5a18d92d8d1e3'
# good: [f570778fec974dd2b05ee862e235ff38a61118d3] c1
git bisect good f570778fec974dd2b05ee862e235ff38a61118d3
# first bad commit: [5cd6ff3c76dd421bcbf1c51e84af82d13c982912] c3
5cd6ff3c76dd421bcbf1c51e84af82d13c982912 is the first bad commit
",
    },
    Row {
        words: &[
            b"simulate",
            b"--term-new",
            b"fixed",
            b"--term-old",
            b"broken",
            b"main",
            b"main~1",
            b"gb",
        ],
        stream: TWO,
        status: 0,
        text: b"# fixed: [f570778fec974dd2b05ee862e235ff38a61118d3] c1
# broken: [56b29d9c130e2ec4b506a48d4fe5a18d92d8d1e3] c0
git bisect start '--term-new' 'fixed' '--term-old' 'broken' 'f570778fec974dd2b05ee862e235ff38a61118d3' '56b29d9c130e2ec4b506a48d4fe5a18d92d8d1e3'
# first fixed commit: [f570778fec974dd2b05ee862e235ff38a61118d3] c1
f570778fec974dd2b05ee862e235ff38a61118d3 is the first fixed commit
",
    },
    Row {
        words: &[
            b"simulate",
            b"--skip",
            b"main~5..main~3",
            b"main",
            b"main~7",
            b"ggggbbbb",
        ],
        stream: EIGHT,
        status: 2,
        text: b"# bad: [38d7eeaa2c641133c0a59de3e3515352366303d6] c7
# good: [56b29d9c130e2ec4b506a48d4fe5a18d92d8d1e3] c0
git bisect start '38d7eeaa2c641133c0a59de3e3515352366303d6' '56b29d9c130e2ec4b506a48d4fe5a18d92d8d1e3'
# skip: [771edca49728d8c78d5b371976ec2debc7c92b35] c3
git bisect skip 771edca49728d8c78d5b371976ec2debc7c92b35
# skip: [271bb9a08b2d5aa03871aa65fdadc01c488fa408] c4
git bisect skip 271bb9a08b2d5aa03871aa65fdadc01c488fa408
# good: [2a83eb598262042db81ddad6b0c3b6c0d200c521] c2
git bisect good 2a83eb598262042db81ddad6b0c3b6c0d200c521
# bad: [3dff7cbfbc1ec2409d1dc7dba41ba991437e56aa] c5
git bisect bad 3dff7cbfbc1ec2409d1dc7dba41ba991437e56aa
# only skipped commits left to test
# possible first bad commit: [771edca49728d8c78d5b371976ec2debc7c92b35] c3
# possible first bad commit: [271bb9a08b2d5aa03871aa65fdadc01c488fa408] c4
# possible first bad commit: [3dff7cbfbc1ec2409d1dc7dba41ba991437e56aa] c5
There are only 'skip'ped commits left to test.
The first bad commit could be any of:
771edca49728d8c78d5b371976ec2debc7c92b35
271bb9a08b2d5aa03871aa65fdadc01c488fa408
3dff7cbfbc1ec2409d1dc7dba41ba991437e56aa
We cannot bisect more!
",
    },
    Row {
        words: &[
            b"simulate",
            b"--lenient-exit",
            b"main",
            b"main~7",
            b"gggnbbbb",
        ],
        stream: EIGHT,
        status: 0,
        text: b"# bad: [38d7eeaa2c641133c0a59de3e3515352366303d6] c7
# good: [56b29d9c130e2ec4b506a48d4fe5a18d92d8d1e3] c0
git bisect start '38d7eeaa2c641133c0a59de3e3515352366303d6' '56b29d9c130e2ec4b506a48d4fe5a18d92d8d1e3'
# bad: [771edca49728d8c78d5b371976ec2debc7c92b35] c3
git bisect bad 771edca49728d8c78d5b371976ec2debc7c92b35
# good: [f570778fec974dd2b05ee862e235ff38a61118d3] c1
git bisect good f570778fec974dd2b05ee862e235ff38a61118d3
# good: [2a83eb598262042db81ddad6b0c3b6c0d200c521] c2
git bisect good 2a83eb598262042db81ddad6b0c3b6c0d200c521
# first bad commit: [771edca49728d8c78d5b371976ec2debc7c92b35] c3
771edca49728d8c78d5b371976ec2debc7c92b35 is the first bad commit
",
    },
    Row {
        words: &[b"simulate", b"main", b"main~7", b"gggkbbbb"],
        stream: EIGHT,
        status: 6,
        text: b"# bad: [38d7eeaa2c641133c0a59de3e3515352366303d6] c7
# good: [56b29d9c130e2ec4b506a48d4fe5a18d92d8d1e3] c0
git bisect start '38d7eeaa2c641133c0a59de3e3515352366303d6' '56b29d9c130e2ec4b506a48d4fe5a18d92d8d1e3'
bisect aborted: killed on 771edca49728d8c78d5b371976ec2debc7c92b35
",
    },
    Row {
        words: &[b"simulate", b"main~2", b"main", b"bbb"],
        stream: THREE,
        status: 4,
        text: b"# bad: [56b29d9c130e2ec4b506a48d4fe5a18d92d8d1e3] c0
# good: [2a83eb598262042db81ddad6b0c3b6c0d200c521] c2
git bisect start '56b29d9c130e2ec4b506a48d4fe5a18d92d8d1e3' '2a83eb598262042db81ddad6b0c3b6c0d200c521'
Some good commits are not ancestors of the bad commit 56b29d9c130e2ec4b506a48d4fe5a18d92d8d1e3.
",
    },
    Row {
        words: &[b"simulate", b"main~1", b"main^", b"bbb"],
        stream: THREE,
        status: 5,
        text: b"# bad: [f570778fec974dd2b05ee862e235ff38a61118d3] c1
# good: [f570778fec974dd2b05ee862e235ff38a61118d3] c1
git bisect start 'f570778fec974dd2b05ee862e235ff38a61118d3' 'f570778fec974dd2b05ee862e235ff38a61118d3'
f570778fec974dd2b05ee862e235ff38a61118d3 was both good and bad
",
    },
];

// Words, streams and names that are refused.
static REFUSALS: [Row; 9] = [
    Row {
        words: &[],
        stream: EMPTY,
        status: 1,
        text: b"usage fault at word 0
",
    },
    Row {
        words: &[b"simulate", b"main"],
        stream: EIGHT,
        status: 1,
        text: b"usage fault at word 2
",
    },
    Row {
        words: &[b"simulate", b"--workers", b"65", b"main", b"main~1", b"g"],
        stream: EIGHT,
        status: 1,
        text: b"usage fault at word 2
",
    },
    Row {
        words: &[b"simulate", b"main", b"main~1", b"gx"],
        stream: EIGHT,
        status: 1,
        text: b"usage fault at word 3
",
    },
    Row {
        words: &[
            b"simulate",
            b"--term-old",
            b"x",
            b"--term-new",
            b"x",
            b"main",
            b"main~1",
            b"g",
        ],
        stream: EIGHT,
        status: 1,
        text: b"usage fault at word 4
",
    },
    Row {
        words: &[b"simulate", b"main", b"main~1", b"g"],
        stream: CUT,
        status: 7,
        text: b"stream refused at line 3: truncated
",
    },
    Row {
        words: &[b"simulate", b"refs/heads/none", b"refs/heads/old", b"ggbb"],
        stream: FIRST,
        status: 8,
        text: b"name refused at word 1: unknown
",
    },
    Row {
        words: &[b"simulate", b"main", b"main~7", b"ggggbbbb"],
        stream: CHECKPOINT,
        status: 7,
        text: b"stream refused at line 1: unsupported
",
    },
    Row {
        words: &[b"simulate", b"main", b"main~1", b"g"],
        stream: EMPTY,
        status: 8,
        text: b"name refused at word 1: unknown
",
    },
];

// What is asked next.
static ASKS: [Row; 3] = [
    Row {
        words: &[b"next", b"main", b"main~7"],
        stream: EIGHT,
        status: 0,
        text: b"# bad: [38d7eeaa2c641133c0a59de3e3515352366303d6] c7
# good: [56b29d9c130e2ec4b506a48d4fe5a18d92d8d1e3] c0
git bisect start '38d7eeaa2c641133c0a59de3e3515352366303d6' '56b29d9c130e2ec4b506a48d4fe5a18d92d8d1e3'
next: 771edca49728d8c78d5b371976ec2debc7c92b35
",
    },
    Row {
        words: &[b"next", b"main^^", b"main~7"],
        stream: EIGHT,
        status: 0,
        text: b"# bad: [3dff7cbfbc1ec2409d1dc7dba41ba991437e56aa] c5
# good: [56b29d9c130e2ec4b506a48d4fe5a18d92d8d1e3] c0
git bisect start '3dff7cbfbc1ec2409d1dc7dba41ba991437e56aa' '56b29d9c130e2ec4b506a48d4fe5a18d92d8d1e3'
next: 2a83eb598262042db81ddad6b0c3b6c0d200c521
",
    },
    Row {
        words: &[b"next", b"main~8", b"main~7"],
        stream: EIGHT,
        status: 8,
        text: b"name refused at word 1: no parent
",
    },
];

// Streams that numbers give, and searches over them.
static MADE: [Row; 4] = [
    Row {
        words: &[b"gen", b"0", b"3"],
        stream: EMPTY,
        status: 0,
        text: b"commit refs/heads/main
mark :1
committer gen <gen> 0 +0000
data 3
c0
commit refs/heads/main
mark :2
committer gen <gen> 1 +0000
data 3
c1
from :1
commit refs/heads/main
mark :3
committer gen <gen> 2 +0000
data 3
c2
from :1
",
    },
    Row {
        words: &[b"gen", b"18446744073709551615", b"1"],
        stream: EMPTY,
        status: 0,
        text: b"commit refs/heads/main
mark :1
committer gen <gen> 0 +0000
data 3
c0
",
    },
    Row {
        words: &[b"sample", b"0", b"1"],
        stream: EMPTY,
        status: 5,
        text: b"commits 1
marks 0
feddf99a2aecb29553504f1b52e2e3f09835aa16 was both good and bad
",
    },
    Row {
        words: &[b"sample", b"0", b"5"],
        stream: EMPTY,
        status: 0,
        text: b"commits 5
marks 1
f787b661a09be3b12ce49117534de60c034a8fc3 is the first bad commit
",
    },
];

/// Whether the row holds, with the stream in pieces of so many bytes.
fn holds<R>(rt: &R, row: &Row, piece: usize) -> Result<bool, AllocError>
where
    R: Threads
        + Wait
        + Processes<Started = SystemProcess>
        + Clock
        + Eprint
        + Sync
        + Alloc<A = Global>,
    requires { 0 < piece }
{
    let alloc = rt.alloc();
    let bytes = Bytes::from_slice(alloc, row.stream)?;
    let mut stream = MemSource::new(bytes, piece, Vec::new(alloc));
    let mut out = PlainSink::new(alloc);
    let status = run(rt, row.words, &mut stream, &mut out)?;
    Ok(status.number() == row.status && out.bytes() == row.text)
}

#[test]
fn searches_and_their_ends(rt: HostRuntime) -> Result<(), Fail> {
    for row in &SEARCHES {
        assert!(rt; holds(&rt, row, 65_536)?, "{:?}", row.words);
    }
    Ok(())
}

#[test]
fn words_streams_and_names_that_are_refused(rt: HostRuntime) -> Result<(), Fail> {
    for row in &REFUSALS {
        assert!(rt; holds(&rt, row, 7)?, "{:?}", row.words);
    }
    Ok(())
}

#[test]
fn asks_and_made_streams(rt: HostRuntime) -> Result<(), Fail> {
    for row in &ASKS {
        assert!(rt; holds(&rt, row, 65_536)?, "{:?}", row.words);
    }
    for row in &MADE {
        assert!(rt; holds(&rt, row, 65_536)?, "{:?}", row.words);
    }
    Ok(())
}

const TRACED: &[u8] = b"# bad: [38d7eeaa2c641133c0a59de3e3515352366303d6] c7
# good: [56b29d9c130e2ec4b506a48d4fe5a18d92d8d1e3] c0
git bisect start '38d7eeaa2c641133c0a59de3e3515352366303d6' '56b29d9c130e2ec4b506a48d4fe5a18d92d8d1e3'
# good: [771edca49728d8c78d5b371976ec2debc7c92b35] c3
git bisect good 771edca49728d8c78d5b371976ec2debc7c92b35
# bad: [3dff7cbfbc1ec2409d1dc7dba41ba991437e56aa] c5
git bisect bad 3dff7cbfbc1ec2409d1dc7dba41ba991437e56aa
# bad: [271bb9a08b2d5aa03871aa65fdadc01c488fa408] c4
git bisect bad 271bb9a08b2d5aa03871aa65fdadc01c488fa408
# first bad commit: [271bb9a08b2d5aa03871aa65fdadc01c488fa408] c4
271bb9a08b2d5aa03871aa65fdadc01c488fa408 is the first bad commit
claim 0 771edca49728d8c78d5b371976ec2debc7c92b35
post 0 771edca49728d8c78d5b371976ec2debc7c92b35 exit 0
leg
claim 0 3dff7cbfbc1ec2409d1dc7dba41ba991437e56aa
post 0 3dff7cbfbc1ec2409d1dc7dba41ba991437e56aa exit 1
leg
claim 0 271bb9a08b2d5aa03871aa65fdadc01c488fa408
post 0 271bb9a08b2d5aa03871aa65fdadc01c488fa408 exit 1
leg
";
