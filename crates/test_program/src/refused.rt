//! Streams that are refused, and for what.
ghost use Rattle.bf_grammar.specs.Limits.{IsWithin};

use crate::imports::load;
use bf_import::{ImportFault, Limit, Limits, StreamFault, import};
use bf_io::{Bytes, MemSource};
use std::alloc::{AllocError, Global};
use std::test::Fail;

// What is said of a stream.
fn said(alloc: Global, stream: &[u8], limits: Limits) -> Result<String, AllocError>
    requires { IsWithin limits }
{
    match load(alloc, stream, 16, limits) {
        Ok(_) => format!(in alloc; "loaded"),
        Err(fault) => format!(in alloc; "{fault}"),
    }
}

fn refused_streams() -> &'static [(&'static str, &'static [u8], &'static str)] {
    &REFUSED
}

#[test]
fn streams_are_refused_for_their_first_fault(rt: HostRuntime) -> Result<(), Fail> {
    for &(name, stream, text) in refused_streams() {
        let found = said(rt.alloc(), stream, Limits::standard())?;
        assert_eq!(rt; found.as_str(), text, "{name}");
    }
    Ok(())
}

// Two commits, the first with one entry and the second with two more.
const TWO_COMMITS: &[u8] = b"\
commit refs/heads/main
committer A <a@b> 0 +0000
data 0
M 100644 e69de29bb2d1d6434b8b29ae775ad8c2e48c5391 a
commit refs/heads/main
committer A <a@b> 1 +0000
data 0
M 100644 e69de29bb2d1d6434b8b29ae775ad8c2e48c5391 b
commit refs/heads/copy
committer A <a@b> 0 +0000
data 0
M 100644 e69de29bb2d1d6434b8b29ae775ad8c2e48c5391 a
";

#[test]
fn commits_and_entries_have_limits(rt: HostRuntime) -> Result<(), Fail> {
    let table: [(u32, u32, &str); 5] = [
        (2, 3, "loaded"),
        (1, 3, "too large: Commits"),
        (2, 2, "too large: Entries"),
        (1, 2, "too large: Entries"),
        (0, 0, "too large: Entries"),
    ];
    for (commits, entries, text) in table {
        let limits = Limits {
            line: 65_535,
            part: 100,
            stream: 1_000,
            commits: commits.min(100_000),
            entries: entries.min(40_000_000),
            original_names: false,
        };
        let found = said(rt.alloc(), TWO_COMMITS, limits)?;
        assert_eq!(rt; found.as_str(), text, "{commits} and {entries}");
    }
    Ok(())
}

#[test]
fn a_source_that_fails_is_no_refusal(rt: HostRuntime) -> Result<(), Fail> {
    let stream = Bytes::from_slice(rt.alloc(), TWO_COMMITS)?;
    let mut source = MemSource::new(stream, 16, vec![in rt.alloc(); 3]?);
    let found = import(rt.alloc(), &mut source, Limits::standard()).err();
    assert_eq!(rt; found, Some(ImportFault::Stream(StreamFault::Read)));
    Ok(())
}

// A stream of two commits, with these lines before the committer of each.
fn named(alloc: Global, first: &[u8], second: &[u8]) -> Result<Bytes, AllocError> {
    let mut stream = Bytes::from_slice(alloc, b"commit refs/heads/main\n")?;
    stream.append(first)?;
    stream.append(b"committer A <a@b> 0 +0000\ndata 0\ncommit refs/heads/main\n")?;
    stream.append(second)?;
    stream.append(b"committer A <a@b> 1 +0000\ndata 0\n")?;
    Ok(stream)
}

const ONE_NAME: &[u8] = b"original-oid 0123456789012345678901234567890123456789\n";

const OTHER_NAME: &[u8] = b"original-oid abcdefABCDEF01234567890123456789abcdefab\n";

// Lines of original names, and what becomes of a stream where these are asked for.
static ORIGINAL: [(&[u8], &[u8], &str); 6] = [
    (ONE_NAME, OTHER_NAME, "loaded"),
    (ONE_NAME, ONE_NAME, "line 5: syntax"),
    (ONE_NAME, b"", "line 5: syntax"),
    (b"", OTHER_NAME, "line 1: syntax"),
    (b"original-oid 0123\n", OTHER_NAME, "line 1: syntax"),
    (
        ONE_NAME,
        b"original-oid g123456789012345678901234567890123456789\n",
        "line 5: syntax",
    ),
];

fn original_names() -> &'static [(&'static [u8], &'static [u8], &'static str)] {
    &ORIGINAL
}

#[test]
fn commits_keep_the_names_that_they_had(rt: HostRuntime) -> Result<(), Fail> {
    for &(first, second, text) in original_names() {
        let stream = named(rt.alloc(), first, second)?;
        let found = said(
            rt.alloc(),
            stream.as_slice(),
            Limits::standard().with_original_names(),
        )?;
        assert_eq!(rt; found.as_str(), text, "{text}");
        let found = said(rt.alloc(), stream.as_slice(), Limits::standard())?;
        assert_eq!(rt; found.as_str(), "loaded", "where they are not asked for");
    }
    Ok(())
}

// Streams that are refused, with what is said of them.
static REFUSED: [(&str, &[u8], &str); 32] = [
    (
        "file from unknown mark",
        b"\
commit refs/heads/main
committer A <a@b> 0 +0000
data 0
M 100644 :5 a
",
        "line 4: bad mark",
    ),
    (
        "path with empty part",
        b"\
commit refs/heads/main
committer A <a@b> 0 +0000
data 0
D a//b
",
        "line 4: bad path",
    ),
    (
        "reset from unknown mark",
        b"\
reset refs/heads/x
from :9
",
        "line 2: bad from",
    ),
    (
        "bad form before unknown from",
        b"\
commit refs/heads/main
mark :1
committer T <t@e> 0 +0000
data 2
c0
commit refs/heads/x
committer T <t@e> 0 +0000
data 2
c1
from :7
M 100644 x
",
        "line 11: syntax",
    ),
    (
        "committer after empty line",
        b"\
commit refs/heads/main
mark :1

committer T <t@e> 0 +0000
data 2
c0
",
        "line 3: syntax",
    ),
    (
        "copy is unsupported",
        b"\
blob
mark :9
data 1
x
commit refs/heads/main
mark :1
committer T <t@e> 0 +0000
data 2
c0
M 100644 :9 a
C a b
",
        "line 11: unsupported",
    ),
    (
        "delimited open",
        b"\
commit refs/heads/main
mark :1
committer T <t@e> 0 +0000
data <<END
c0
",
        "line 4: truncated",
    ),
    (
        "ends after commit line",
        b"\
commit refs/heads/main
",
        "line 2: truncated",
    ),
    (
        "feature other",
        b"\
feature notes
commit refs/heads/main
mark :1
committer T <t@e> 0 +0000
data 2
c0
",
        "line 1: unsupported",
    ),
    (
        "file from a commit mark",
        b"\
commit refs/heads/main
mark :1
committer T <t@e> 0 +0000
data 2
c0
M 100644 :1 a
",
        "line 6: bad mark",
    ),
    (
        "from digits unknown",
        b"\
commit refs/heads/main
mark :1
committer T <t@e> 0 +0000
data 2
c0
reset refs/heads/x
from 1111111111111111111111111111111111111111
",
        "line 7: unsupported",
    ),
    (
        "gpgsig",
        b"\
commit refs/heads/main
mark :1
committer T <t@e> 0 +0000
gpgsig sha1 x
data 2
c0
",
        "line 4: unsupported",
    ),
    (
        "ident without email",
        b"\
commit refs/heads/main
mark :1
committer T 0 +0000
data 2
c0
",
        "line 3: syntax",
    ),
    (
        "mark too wide",
        b"\
commit refs/heads/main
mark :18446744073709551616
committer T <t@e> 0 +0000
data 2
c0
",
        "line 2: syntax",
    ),
    (
        "mark zero",
        b"\
commit refs/heads/main
mark :0
committer T <t@e> 0 +0000
data 2
c0
",
        "line 2: syntax",
    ),
    (
        "mode of a directory",
        b"\
commit refs/heads/main
mark :1
committer T <t@e> 0 +0000
data 2
c0
M 040000 1111111111111111111111111111111111111111 a
",
        "line 6: unsupported",
    ),
    (
        "mode unknown",
        b"\
commit refs/heads/main
mark :1
committer T <t@e> 0 +0000
data 2
c0
M 100600 1111111111111111111111111111111111111111 a
",
        "line 6: syntax",
    ),
    (
        "module from a mark",
        b"\
blob
mark :9
data 1
x
commit refs/heads/main
mark :1
committer T <t@e> 0 +0000
data 2
c0
M 160000 :9 a
",
        "line 10: bad mark",
    ),
    (
        "module inline",
        b"\
commit refs/heads/main
mark :1
committer T <t@e> 0 +0000
data 2
c0
M 160000 inline a
data 1
x
",
        "line 6: bad mark",
    ),
    (
        "no committer",
        b"\
commit refs/heads/main
mark :1
data 2
c0
",
        "line 3: syntax",
    ),
    (
        "no done after commit",
        b"\
feature done
commit refs/heads/main
mark :1
committer T <t@e> 0 +0000
data 2
c0
",
        "line 7: no done",
    ),
    (
        "path dot dot",
        b"\
commit refs/heads/main
mark :1
committer T <t@e> 0 +0000
data 2
c0
D a/../b
",
        "line 6: bad path",
    ),
    (
        "path nul",
        b"\
commit refs/heads/main
mark :1
committer T <t@e> 0 +0000
data 2
c0
D \"a\\000b\"
",
        "line 6: bad path",
    ),
    (
        "path octal too great",
        b"\
commit refs/heads/main
mark :1
committer T <t@e> 0 +0000
data 2
c0
D \"\\400\"
",
        "line 6: bad path",
    ),
    (
        "path quote open",
        b"\
commit refs/heads/main
mark :1
committer T <t@e> 0 +0000
data 2
c0
D \"a
",
        "line 6: bad path",
    ),
    (
        "second from",
        b"\
commit refs/heads/main
mark :1
committer T <t@e> 0 +0000
data 2
c0
commit refs/heads/x
committer T <t@e> 0 +0000
data 2
c1
from :1
from :1
",
        "line 11: syntax",
    ),
    (
        "tag of a blob",
        b"\
blob
mark :9
data 1
x
commit refs/heads/main
mark :1
committer T <t@e> 0 +0000
data 2
c0
tag t
from :9
data 0
",
        "line 11: unsupported",
    ),
    (
        "tag without from",
        b"\
commit refs/heads/main
mark :1
committer T <t@e> 0 +0000
data 2
c0
tag t
data 0
",
        "line 7: syntax",
    ),
    (
        "time in words",
        b"\
commit refs/heads/main
mark :1
committer T <t@e> now
data 2
c0
",
        "line 3: unsupported",
    ),
    (
        "time of 19 digits",
        b"\
commit refs/heads/main
mark :1
committer T <t@e> 1111111111111111111 +0000
data 2
c0
",
        "line 3: unsupported",
    ),
    (
        "unknown from before second from",
        b"\
commit refs/heads/main
mark :1
committer T <t@e> 0 +0000
data 2
c0
commit refs/heads/x
committer T <t@e> 0 +0000
data 2
c1
from :7
from :1
",
        "line 10: bad from",
    ),
    (
        "zone 1401",
        b"\
commit refs/heads/main
mark :1
committer T <t@e> 0 +1401
data 2
c0
",
        "line 3: unsupported",
    ),
];
