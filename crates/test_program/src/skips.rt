//! Searches that ask for no test, or find but skipped commits: what they tell of what is left.
use crate::program::run;
use crate::searches::FIRST;
use bf_io::{Bytes, MemSource, PlainSink, put_decimal};
use std::alloc::{AllocError, Global};
use std::process::Abort;
use std::test::Fail;

/// Words over a stream, and what is answered and written.
#[derive(Clone, Copy)]
struct Row<'a> {
    words: &'a [&'a [u8]],
    stream: &'a [u8],
    status: u8,
    text: &'a [u8],
}

/// So many commits, each the child of the one before, with their numbers as messages.
fn line_of(alloc: Global, commits: u64) -> Result<Bytes, AllocError> {
    let mut stream = Bytes::new(alloc);
    for number in 0..commits {
        let mut message = Bytes::from_slice(alloc, b"c")?;
        put_decimal(&mut message, number)?;
        stream.append(b"commit refs/heads/main\nmark :")?;
        put_decimal(&mut stream, number + 1)?;
        stream.append(b"\ncommitter T <t@e> ")?;
        put_decimal(&mut stream, number)?;
        stream.append(b" +0000\ndata ")?;
        put_decimal(&mut stream, message.as_slice().len() as u64)?;
        stream.append(b"\n")?;
        stream.append(message.as_slice())?;
        stream.append(b"\n")?;
    }
    Ok(stream)
}

const NO_TEST: &[u8] = b"# bad: [f570778fec974dd2b05ee862e235ff38a61118d3] c1
# good: [56b29d9c130e2ec4b506a48d4fe5a18d92d8d1e3] c0
git bisect start 'f570778fec974dd2b05ee862e235ff38a61118d3' '56b29d9c130e2ec4b506a48d4fe5a18d92d8d1e3'
# first bad commit: [f570778fec974dd2b05ee862e235ff38a61118d3] c1
f570778fec974dd2b05ee862e235ff38a61118d3 is the first bad commit
";

const THREE_LEFT: &[u8] = b"# bad: [771edca49728d8c78d5b371976ec2debc7c92b35] c3
# good: [56b29d9c130e2ec4b506a48d4fe5a18d92d8d1e3] c0
git bisect start '771edca49728d8c78d5b371976ec2debc7c92b35' '56b29d9c130e2ec4b506a48d4fe5a18d92d8d1e3'
# skip: [f570778fec974dd2b05ee862e235ff38a61118d3] c1
git bisect skip f570778fec974dd2b05ee862e235ff38a61118d3
# skip: [2a83eb598262042db81ddad6b0c3b6c0d200c521] c2
git bisect skip 2a83eb598262042db81ddad6b0c3b6c0d200c521
# only skipped commits left to test
# possible first bad commit: [f570778fec974dd2b05ee862e235ff38a61118d3] c1
# possible first bad commit: [2a83eb598262042db81ddad6b0c3b6c0d200c521] c2
# possible first bad commit: [771edca49728d8c78d5b371976ec2debc7c92b35] c3
There are only 'skip'ped commits left to test.
The first bad commit could be any of:
f570778fec974dd2b05ee862e235ff38a61118d3
2a83eb598262042db81ddad6b0c3b6c0d200c521
771edca49728d8c78d5b371976ec2debc7c92b35
We cannot bisect more!
";

const TWO_LEFT: &[u8] = b"# bad: [771edca49728d8c78d5b371976ec2debc7c92b35] c3
# good: [56b29d9c130e2ec4b506a48d4fe5a18d92d8d1e3] c0
git bisect start '771edca49728d8c78d5b371976ec2debc7c92b35' '56b29d9c130e2ec4b506a48d4fe5a18d92d8d1e3'
# skip: [f570778fec974dd2b05ee862e235ff38a61118d3] c1
git bisect skip f570778fec974dd2b05ee862e235ff38a61118d3
# bad: [2a83eb598262042db81ddad6b0c3b6c0d200c521] c2
git bisect bad 2a83eb598262042db81ddad6b0c3b6c0d200c521
# only skipped commits left to test
# possible first bad commit: [f570778fec974dd2b05ee862e235ff38a61118d3] c1
# possible first bad commit: [2a83eb598262042db81ddad6b0c3b6c0d200c521] c2
There are only 'skip'ped commits left to test.
The first bad commit could be any of:
f570778fec974dd2b05ee862e235ff38a61118d3
2a83eb598262042db81ddad6b0c3b6c0d200c521
We cannot bisect more!
";

const PLAN_ENDED: &[u8] = b"# bad: [771edca49728d8c78d5b371976ec2debc7c92b35] c3
# good: [56b29d9c130e2ec4b506a48d4fe5a18d92d8d1e3] c0
git bisect start '771edca49728d8c78d5b371976ec2debc7c92b35' '56b29d9c130e2ec4b506a48d4fe5a18d92d8d1e3'
# good: [f570778fec974dd2b05ee862e235ff38a61118d3] c1
git bisect good f570778fec974dd2b05ee862e235ff38a61118d3
# skip: [2a83eb598262042db81ddad6b0c3b6c0d200c521] c2
git bisect skip 2a83eb598262042db81ddad6b0c3b6c0d200c521
# only skipped commits left to test
# possible first bad commit: [2a83eb598262042db81ddad6b0c3b6c0d200c521] c2
# possible first bad commit: [771edca49728d8c78d5b371976ec2debc7c92b35] c3
There are only 'skip'ped commits left to test.
The first bad commit could be any of:
2a83eb598262042db81ddad6b0c3b6c0d200c521
771edca49728d8c78d5b371976ec2debc7c92b35
We cannot bisect more!
";

const SEVEN_LEFT: &[u8] = b"# bad: [232e82a0f2f3c6b5f3621facfe14a508e76d3cc8] c20000
# good: [61f8b9c390ac8411e8e3a526ef84fb5c4f7a0f0b] c19993
git bisect start '232e82a0f2f3c6b5f3621facfe14a508e76d3cc8' '61f8b9c390ac8411e8e3a526ef84fb5c4f7a0f0b'
# skip: [27736d0a35e80323638320fefc391fbe44318c12] c19996
git bisect skip 27736d0a35e80323638320fefc391fbe44318c12
# skip: [c361b0526a787ffa97627bd241c66f775c51947e] c19997
git bisect skip c361b0526a787ffa97627bd241c66f775c51947e
# skip: [7ca98a133934c591fdd593ebae37ebe16ac29e84] c19995
git bisect skip 7ca98a133934c591fdd593ebae37ebe16ac29e84
# skip: [dadf66d9ade25514f7b6525e9a9a38675cb67187] c19998
git bisect skip dadf66d9ade25514f7b6525e9a9a38675cb67187
# skip: [5fe2cd77f221e9e5ebf719a10dd06c10c0992f88] c19994
git bisect skip 5fe2cd77f221e9e5ebf719a10dd06c10c0992f88
# skip: [42ae4981c78b9af3ff2c718ce783e9099b2cdbb2] c19999
git bisect skip 42ae4981c78b9af3ff2c718ce783e9099b2cdbb2
# only skipped commits left to test
# possible first bad commit: [5fe2cd77f221e9e5ebf719a10dd06c10c0992f88] c19994
# possible first bad commit: [7ca98a133934c591fdd593ebae37ebe16ac29e84] c19995
# possible first bad commit: [27736d0a35e80323638320fefc391fbe44318c12] c19996
# possible first bad commit: [c361b0526a787ffa97627bd241c66f775c51947e] c19997
# possible first bad commit: [dadf66d9ade25514f7b6525e9a9a38675cb67187] c19998
# possible first bad commit: [42ae4981c78b9af3ff2c718ce783e9099b2cdbb2] c19999
# possible first bad commit: [232e82a0f2f3c6b5f3621facfe14a508e76d3cc8] c20000
There are only 'skip'ped commits left to test.
The first bad commit could be any of:
5fe2cd77f221e9e5ebf719a10dd06c10c0992f88
7ca98a133934c591fdd593ebae37ebe16ac29e84
27736d0a35e80323638320fefc391fbe44318c12
c361b0526a787ffa97627bd241c66f775c51947e
dadf66d9ade25514f7b6525e9a9a38675cb67187
42ae4981c78b9af3ff2c718ce783e9099b2cdbb2
232e82a0f2f3c6b5f3621facfe14a508e76d3cc8
We cannot bisect more!
";

/// Asserts that what the row is due is answered and written.
fn holds(rt: &impl Abort, row: &Row<'_>, status: u8, text: &[u8]) {
    assert_eq!(rt; status, row.status, "{:?}", row.words);
    assert_eq!(rt; text, row.text, "{:?}", row.words);
}

#[test]
fn searches_without_a_test_or_with_skips_alone(rt: HostRuntime) -> Result<(), Fail> {
    let alloc = rt.alloc();
    let two = line_of(alloc, 2)?;
    let four = line_of(alloc, 4)?;
    let many = line_of(alloc, 20_001)?;
    let rows = [
        Row {
            words: &[b"simulate", b"main", b"main~1", b"gb"],
            stream: two.as_slice(),
            status: 0,
            text: NO_TEST,
        },
        Row {
            words: &[b"simulate", b"main", b"main~3", b"gssb"],
            stream: four.as_slice(),
            status: 2,
            text: THREE_LEFT,
        },
        Row {
            words: &[b"simulate", b"main", b"main~3", b"gsbb"],
            stream: four.as_slice(),
            status: 2,
            text: TWO_LEFT,
        },
        Row {
            words: &[b"simulate", b"refs/heads/main", b"refs/heads/old", b"gg"],
            stream: FIRST,
            status: 2,
            text: PLAN_ENDED,
        },
        Row {
            words: &[b"simulate", b"refs/heads/main", b"refs/heads/old", b"gssb"],
            stream: FIRST,
            status: 2,
            text: THREE_LEFT,
        },
        Row {
            words: &[b"simulate", b"main", b"main~7", b"ggggbbbb"],
            stream: many.as_slice(),
            status: 2,
            text: SEVEN_LEFT,
        },
    ];
    for row in &rows {
        let bytes = Bytes::from_slice(alloc, row.stream)?;
        let mut stream = MemSource::new(bytes, 65_536, Vec::new(alloc));
        let mut out = PlainSink::new(alloc);
        let status = run(&rt, row.words, &mut stream, &mut out)?;
        holds(&rt, row, status.number(), out.bytes());
    }
    Ok(())
}
