//! What `certify` writes.
use crate::calls::{certified, certified_by};
use crate::streams::{DIAMOND, EIGHT, FORK};
use bf_output::Status;
use bf_tester::PlanTester;
use std::test::Fail;

/// Words over a stream, and what is answered and written.
struct Row {
    words: &'static [&'static [u8]],
    stream: &'static [u8],
    status: Status,
    text: &'static [u8],
}

const OF_EIGHT: &[u8] = b"certificate 1
bad 271bb9a08b2d5aa03871aa65fdadc01c488fa408
good 56b29d9c130e2ec4b506a48d4fe5a18d92d8d1e3
good 771edca49728d8c78d5b371976ec2debc7c92b35
end
";

const OF_FORK: &[u8] = b"certificate 1
bad f570778fec974dd2b05ee862e235ff38a61118d3
good cf280beb8e59855da6095186b2544590849cd8dd
reach 56b29d9c130e2ec4b506a48d4fe5a18d92d8d1e3 from cf280beb8e59855da6095186b2544590849cd8dd
end
";

const ROWS: [Row; 7] = [
    Row {
        words: &[b"certify", b"simulate", b"main", b"main~7", b"ggggbbbb"],
        stream: EIGHT,
        status: Status::Done,
        text: OF_EIGHT,
    },
    Row {
        words: &[
            b"certify",
            b"simulate",
            b"--workers",
            b"4",
            b"main",
            b"main~7",
            b"ggggbbbb",
        ],
        stream: EIGHT,
        status: Status::Done,
        text: OF_EIGHT,
    },
    Row {
        words: &[b"certify", b"simulate", b"main", b"side", b"sbg"],
        stream: FORK,
        status: Status::Done,
        text: OF_FORK,
    },
    Row {
        words: &[b"certify", b"simulate", b"main", b"late", b"gggbggg"],
        stream: DIAMOND,
        status: Status::Done,
        text: b"certificate 1
bad 1c3bba1990f3973691795afdbf94db3b3a8bfffd
good 05643ab48a3b12a4006228df29358b6a983b6bff
good f570778fec974dd2b05ee862e235ff38a61118d3
good cf280beb8e59855da6095186b2544590849cd8dd
reach ed6e93fe7cc301fdf6b8a6b476fba3f40463d97d from 05643ab48a3b12a4006228df29358b6a983b6bff
end
",
    },
    Row {
        words: &[
            b"certify",
            b"simulate",
            b"--first-parent",
            b"main",
            b"late",
            b"gggbggg",
        ],
        stream: DIAMOND,
        status: Status::Done,
        text: b"certificate 1
bad 1c3bba1990f3973691795afdbf94db3b3a8bfffd
first-parent
good 05643ab48a3b12a4006228df29358b6a983b6bff
good f570778fec974dd2b05ee862e235ff38a61118d3
good cf280beb8e59855da6095186b2544590849cd8dd
end
",
    },
    Row {
        words: &[b"certify", b"simulate", b"main", b"main~7", b"gggaaabb"],
        stream: EIGHT,
        status: Status::Aborted,
        text: b"# bad: [38d7eeaa2c641133c0a59de3e3515352366303d6] c7
# good: [56b29d9c130e2ec4b506a48d4fe5a18d92d8d1e3] c0
git bisect start '38d7eeaa2c641133c0a59de3e3515352366303d6' '56b29d9c130e2ec4b506a48d4fe5a18d92d8d1e3'
bisect aborted: exit 128 on 771edca49728d8c78d5b371976ec2debc7c92b35
",
    },
    Row {
        words: &[b"certify", b"simulate", b"main", b"side", b"bbg"],
        stream: FORK,
        status: Status::MergeBaseBad,
        text: b"# bad: [f570778fec974dd2b05ee862e235ff38a61118d3] c1
# good: [cf280beb8e59855da6095186b2544590849cd8dd] c2
git bisect start 'f570778fec974dd2b05ee862e235ff38a61118d3' 'cf280beb8e59855da6095186b2544590849cd8dd'
# bad: [56b29d9c130e2ec4b506a48d4fe5a18d92d8d1e3] c0
git bisect bad 56b29d9c130e2ec4b506a48d4fe5a18d92d8d1e3
The merge base 56b29d9c130e2ec4b506a48d4fe5a18d92d8d1e3 is bad.
The change was undone between it and one of the good commits.
",
    },
];

/// Words that are refused, and the word at fault.
const USAGES: [(&[&[u8]], u32, &[u8]); 9] = [
    (&[b"certify"], 1, b"usage fault at word 1\n"),
    (
        &[b"certify", b"next", b"main", b"side"],
        1,
        b"usage fault at word 1\n",
    ),
    (
        &[b"certify", b"simulate", b"main"],
        3,
        b"usage fault at word 3\n",
    ),
    (
        &[
            b"certify",
            b"simulate",
            b"--leg",
            b"2",
            b"main",
            b"side",
            b"sbg",
        ],
        2,
        b"usage fault at word 2\n",
    ),
    (
        &[
            b"certify", b"run", b"--leg", b"2", b"main", b"side", b"--", b"true",
        ],
        2,
        b"usage fault at word 2\n",
    ),
    (
        &[
            b"certify",
            b"simulate",
            b"main",
            b"side",
            b"--trace",
            b"sbg",
        ],
        4,
        b"usage fault at word 4\n",
    ),
    (
        &[
            b"certify",
            b"simulate",
            b"--trace",
            b"--leg",
            b"2",
            b"main",
            b"side",
            b"sbg",
        ],
        2,
        b"usage fault at word 2\n",
    ),
    (
        &[
            b"certify",
            b"simulate",
            b"--leg",
            b"2",
            b"--workers",
            b"0",
            b"main",
            b"side",
            b"sbg",
        ],
        5,
        b"usage fault at word 5\n",
    ),
    (
        &[
            b"certify",
            b"simulate",
            b"--leg",
            b"2",
            b"nobody",
            b"side",
            b"sbg",
        ],
        2,
        b"usage fault at word 2\n",
    ),
];

#[test]
fn certificates_and_other_ends(rt: HostRuntime) -> Result<(), Fail> {
    for row in &ROWS {
        let answered = certified(&rt, row.words, row.stream)?;
        assert!(rt; answered.is(row.status, row.text), "{:?}", row.words);
    }
    Ok(())
}

#[test]
fn words_at_fault(rt: HostRuntime) -> Result<(), Fail> {
    for &(words, word, text) in &USAGES {
        let answered = certified(&rt, words, FORK)?;
        assert!(rt; answered.is(Status::Usage { word }, text), "{words:?}");
    }
    Ok(())
}

#[test]
fn certificate_by_tests(rt: HostRuntime) -> Result<(), Fail> {
    let words: [&[u8]; 6] = [b"certify", b"run", b"main", b"main~7", b"--", b"true"];
    let mut tester = PlanTester::new(rt.alloc(), b"ggggbbbb")?;
    let answered = certified_by(&rt, &words, EIGHT, &mut tester)?;
    assert!(rt; answered.is(Status::Done, OF_EIGHT));
    Ok(())
}
