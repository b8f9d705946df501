//! The commits that names and ranges mean in the history of a stream.
ghost use Rattle.std.specs.Prelude.{◌≡◌};

use bf_import::{History, ImportFault, Limits, import};
use bf_io::{Bytes, MemSource};
use bf_names::{NameFault, resolve, resolve_range};
use bf_reach::{Reach, Row};
use std::alloc::{AllocError, Global};
use std::process::Abort;
use std::test::Fail;

type Named = (&'static [u8], Result<u32, NameFault>);

type Ranged = (&'static [u8], Result<&'static [u32], NameFault>);

fn load(alloc: Global) -> Result<History, ImportFault> {
    let stream = Bytes::from_slice(alloc, STREAM)?;
    let mut source = MemSource::new(stream, 4096, Vec::new(alloc));
    import(alloc, &mut source, Limits::standard())
}

// Adds the places of a row, in order.
fn push_places(row: &Row, places: &mut Vec<u32>) -> Result<(), AllocError> {
    for place in 0..row.len() {
        if row.get(place) {
            places.push(place)?;
        }
    }
    Ok(())
}

fn places_of(alloc: Global, row: &Row) -> Result<Vec<u32>, AllocError> {
    let mut places = Vec::new(alloc);
    push_places(row, &mut places)?;
    Ok(places)
}

// The places that a text means, in order.
fn places_meant(
    alloc: Global,
    history: &History,
    reach: &Reach,
    text: &[u8],
) -> Result<Vec<u32>, NameFault>
    requires { reach.now ≡ history.now.parents }
{
    let row = resolve_range(alloc, history, reach, text)?;
    Ok(places_of(alloc, &row)?)
}

fn named() -> &'static [Named] {
    &NAMED
}

fn ranged() -> &'static [Ranged] {
    &RANGED
}

fn mean_their_commits(rt: &impl Abort, alloc: Global, history: &History) {
    for &(text, meant) in named() {
        assert_eq!(rt; resolve(alloc, history, text), meant, "{text:?}");
    }
}

#[test]
fn names_mean_their_commits(rt: HostRuntime) -> Result<(), Fail> {
    let history = load(rt.alloc())?;
    mean_their_commits(&rt, rt.alloc(), &history);
    Ok(())
}

// Asserts that the text of a row means its places, or is refused so.
fn means(rt: &impl Abort, alloc: Global, history: &History, reach: &Reach, row: &Ranged)
    requires { reach.now ≡ history.now.parents }
{
    let (text, meant) = *row;
    match places_meant(alloc, history, reach, text) {
        Ok(places) => assert_eq!(rt; Ok(places.as_slice()), meant, "{text:?}"),
        Err(fault) => assert_eq!(rt; Err(fault), meant, "{text:?}"),
    }
}

fn ranges_mean_theirs(rt: &impl Abort, alloc: Global, history: &History, reach: &Reach)
    requires { reach.now ≡ history.now.parents }
{
    for row in ranged() {
        means(rt, alloc, history, reach, row);
    }
}

#[test]
fn ranges_mean_their_commits(rt: HostRuntime) -> Result<(), Fail> {
    let history = load(rt.alloc())?;
    let reach = Reach::build(rt.alloc(), history.graph())?;
    ranges_mean_theirs(&rt, rt.alloc(), &history, &reach);
    Ok(())
}

// A line of eight commits, a branch from its first, their merge, and a commit whose name begins as that of
// place 4. A tag and a branch have one name, and some refs look like names of commits.
const STREAM: &[u8] = b"\
commit refs/heads/main
mark :1
committer T <t@e> 0 +0000
data 2
c0
commit refs/heads/main
mark :2
committer T <t@e> 1 +0000
data 2
c1
commit refs/heads/main
mark :3
committer T <t@e> 2 +0000
data 2
c2
commit refs/heads/main
mark :4
committer T <t@e> 3 +0000
data 2
c3
commit refs/heads/main
mark :5
committer T <t@e> 4 +0000
data 2
c4
commit refs/heads/main
mark :6
committer T <t@e> 5 +0000
data 2
c5
commit refs/heads/main
mark :7
committer T <t@e> 6 +0000
data 2
c6
commit refs/heads/main
mark :8
committer T <t@e> 7 +0000
data 2
c7
commit refs/heads/side
mark :9
committer T <t@e> 8 +0000
data 2
c8
from :1
commit HEAD
mark :10
committer T <t@e> 9 +0000
data 2
c9
from :8
merge :9
commit refs/heads/twin
mark :11
committer T <t@e> 10 +0000
data 6
t68454
from :1
reset refs/tags/a
from :9
reset refs/heads/a
from :2
reset refs/remotes/far/HEAD
from :3
reset refs/f570778
from :9
reset refs/heads/0123456789012345678901234567890123456789
from :1
";

// Names, each with its place.
static NAMED: [Named; 34] = [
    (b"main", Ok(7)),
    (b"heads/main", Ok(7)),
    (b"refs/heads/main^0", Ok(7)),
    (b"main~0", Ok(7)),
    (b"main^{}", Ok(7)),
    (b"main^{commit}~", Ok(6)),
    (b"main^^", Ok(5)),
    (b"main~2^1~", Ok(3)),
    (b"main~00000000000000000007", Ok(0)),
    (b"a", Ok(8)),
    (b"heads/a", Ok(1)),
    (b"far", Ok(2)),
    (b"@", Ok(9)),
    (b"@^2", Ok(8)),
    (b"HEAD^2~", Ok(0)),
    (b"f570778", Ok(8)),
    (b"f570778f", Ok(1)),
    (b"271bb", Ok(4)),
    (b"271BE", Ok(10)),
    (b"2a83eb598262042db81ddad6b0c3b6c0d200c52", Ok(2)),
    (b"2a83eb598262042db81ddad6b0c3b6c0d200c521^", Ok(1)),
    (b"271b", Err(NameFault::Ambiguous { count: 2 })),
    (b"2a8", Err(NameFault::Unknown)),
    (b"none~9", Err(NameFault::Unknown)),
    (
        b"0123456789012345678901234567890123456789",
        Err(NameFault::Unknown),
    ),
    (b"main~8", Err(NameFault::NoParent)),
    (b"main^2", Err(NameFault::NoParent)),
    (b"main^18446744073709551615", Err(NameFault::NoParent)),
    (b"main^18446744073709551616", Err(NameFault::BadForm)),
    (b"none^{tree}", Err(NameFault::BadForm)),
    (b"~1", Err(NameFault::BadForm)),
    (b"a b", Err(NameFault::BadForm)),
    (b":/c0", Err(NameFault::BadForm)),
    (b"main@{1}", Err(NameFault::BadForm)),
];

// Ranges, each with its places.
static RANGED: [Ranged; 11] = [
    (b"main~5..main~3", Ok(&[3, 4])),
    (b"main~2", Ok(&[5])),
    (b"main..main~3", Ok(&[])),
    (b"a..@", Ok(&[1, 2, 3, 4, 5, 6, 7, 9])),
    (b"twin..side", Ok(&[8])),
    (b"main~3...main", Err(NameFault::BadForm)),
    (b"main~3..main~2..main", Err(NameFault::BadForm)),
    (b"..main", Err(NameFault::BadForm)),
    (b"none..~1", Err(NameFault::BadForm)),
    (b"main~9..none", Err(NameFault::NoParent)),
    (b"main..none", Err(NameFault::Unknown)),
];
