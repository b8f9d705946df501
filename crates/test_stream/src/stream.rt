//! Streams with their commands and how they end, after git-fast-import(1) and the limits of the program.
ghost use Rattle.std.specs.Prelude.{◌≡◌, ◌<◌, false};
ghost use Rattle.bf_grammar.specs.Limits.{IsWithin};
ghost use Rattle.bf_stream.specs.Standing.{is_over};

use bf_io::{Bytes, MemSource};
use bf_stream::{Command, Commit, Limit, Limits, Reader, StreamFault};
use std::alloc::{AllocError, Global};
use std::process::Abort;
use std::test::Fail;

// What a reader gave: each command in short and in full, and how the stream ends.
#[derive(Drop)]
struct Reading {
    short: String,
    full: String,
    end: Option<StreamFault>,
}

fn short_marked(
    alloc: Global,
    kind: &str,
    line: u64,
    mark: Option<u64>,
    number: u64,
) -> Result<String, AllocError> {
    format!(in alloc; "{kind} {line} {mark:?} {number}\n")
}

fn short_commit(alloc: Global, commit: &Commit) -> Result<String, AllocError> {
    let Commit { line, mark, .. } = commit;
    let bytes = commit.header.message.len();
    let merges = commit.merges.as_slice().len();
    let changes = commit.changes.as_slice().len();
    format!(in alloc; "commit {line} {mark:?} {bytes} {merges} {changes}\n")
}

// A command as one line of its numbers.
fn short(alloc: Global, command: &Command) -> Result<String, AllocError> {
    match command {
        Command::Blob {
            line,
            mark,
            content,
        } => short_marked(alloc, "blob", *line, *mark, content.len() as u64),
        Command::Commit(commit) => short_commit(alloc, commit),
        Command::Tag {
            line,
            mark,
            from,
            ..
        } => short_marked(alloc, "tag", *line, *mark, from.line),
        Command::Reset { line, from, .. } => {
            let is_set = from.is_some();
            format!(in alloc; "reset {line} {is_set}\n")
        }
        Command::Progress { line } => format!(in alloc; "progress {line}\n"),
        Command::Feature { line } => format!(in alloc; "feature {line}\n"),
    }
}

fn note(alloc: Global, reading: &mut Reading, command: &Command) -> Result<(), AllocError> {
    reading.short.push_str(short(alloc, command)?.as_str())?;
    reading
        .full
        .push_str(format!(in alloc; "{command:?}\n")?.as_str())
}

fn read_next(
    alloc: Global,
    reader: &mut Reader<'_, MemSource>,
    reading: &mut Reading,
) -> Result<(), AllocError>
    requires { is_over reader.old ≡ false }
{
    match reader.next() {
        Ok(Some(command)) => note(alloc, reading, &command)?,
        Ok(None) => {}
        Err(fault) => reading.end = Some(fault),
    }
    Ok(())
}

fn read_rest(
    alloc: Global,
    reader: &mut Reader<'_, MemSource>,
    reading: &mut Reading,
) -> Result<(), AllocError> {
    for _ in 0..u64::MAX {
        if reader.over() {
            break;
        }
        read_next(alloc, reader, reading)?;
    }
    Ok(())
}

fn read_source(
    alloc: Global,
    source: &mut MemSource,
    limits: Limits,
    reading: &mut Reading,
) -> Result<(), AllocError>
    requires { IsWithin limits }
{
    let mut reader = Reader::new(alloc, source, limits)?;
    read_rest(alloc, &mut reader, reading)
}

// Reads a stream that comes in pieces.
fn read(alloc: Global, stream: &[u8], piece: usize, limits: Limits) -> Result<Reading, AllocError>
    requires piece { 0 < piece }
    requires limits { IsWithin limits }
{
    let mut source = MemSource::new(Bytes::from_slice(alloc, stream)?, piece, Vec::new(alloc));
    let mut reading = Reading {
        short: String::new(alloc),
        full: String::new(alloc),
        end: None,
    };
    read_source(alloc, &mut source, limits, &mut reading)?;
    Ok(reading)
}

// How a stream ends that comes in pieces.
pub(crate) fn end_of(
    alloc: Global,
    stream: &[u8],
    piece: usize,
    limits: Limits,
) -> Result<Option<StreamFault>, AllocError>
    requires piece { 0 < piece }
    requires limits { IsWithin limits }
{
    Ok(read(alloc, stream, piece, limits)?.end)
}

fn syntax(line: u64) -> Option<StreamFault> {
    Some(StreamFault::Syntax { line })
}

fn unsupported(line: u64) -> Option<StreamFault> {
    Some(StreamFault::Unsupported { line })
}

fn truncated(line: u64) -> Option<StreamFault> {
    Some(StreamFault::Truncated { line })
}

fn too_large(what: Limit) -> Option<StreamFault> {
    Some(StreamFault::TooLarge { what })
}

// The front of a stream with a commit, up to its data.
const COMMIT: &str = "commit refs/heads/main\nmark :1\ncommitter A <a@b> 0 +0000\n";

#[test]
fn streams_are_read_to_their_end(rt: HostRuntime) -> Result<(), Fail> {
    let streams = [
        "",
        "blob\ndata 3\nabc\n",
        "feature done\ndone\nnot looked at\n",
        "blob\ndata <<END\n# text\nEND\n",
        "# a comment\n\nblob\n# another\nmark :1\n# one more\ndata 1\n#\n",
        "reset refs/heads/main\nfrom :1",
        "progress a\noption git quiet\nfeature date-format=raw\n",
    ];
    for stream in streams {
        let end = end_of(rt.alloc(), stream.as_bytes(), 65_536, Limits::standard())?;
        assert_eq!(rt; end, None, "{stream:?}");
    }
    Ok(())
}

fn end_of_parts(alloc: Global, parts: &str) -> Result<Option<StreamFault>, AllocError> {
    let stream = format!(in alloc; "{COMMIT}data 2\nc0\n{parts}")?;
    end_of(alloc, stream.as_bytes(), 65_536, Limits::standard())
}

#[test]
fn the_parts_of_a_commit_have_their_order(rt: HostRuntime) -> Result<(), Fail> {
    let table: [(&str, Option<StreamFault>); 7] = [
        (
            "from :1\nmerge :2\nmerge :3\nM 644 :4 a\nD b\ndeleteall\n",
            None,
        ),
        ("merge :2\nfrom :1\n", syntax(7)),
        ("from :1\nfrom :2\n", syntax(7)),
        ("D a\nmerge :2\n", syntax(7)),
        ("M 100644 inline a\ndata 1\nx\n", None),
        ("M 100644 inline a\n", truncated(7)),
        ("deleteall a\n", syntax(6)),
    ];
    for (parts, end) in table {
        assert_eq!(rt; end_of_parts(rt.alloc(), parts)?, end, "{parts:?}");
    }
    Ok(())
}

fn end_of_word(alloc: Global, word: &str) -> Result<Option<StreamFault>, AllocError> {
    let stream = format!(in alloc; "progress x\n{word}\n")?;
    end_of(alloc, stream.as_bytes(), 7, Limits::standard())
}

#[test]
fn commands_that_are_left_out_are_unsupported(rt: HostRuntime) -> Result<(), Fail> {
    let words = [
        "C a b",
        "R a b",
        "N :1 :2",
        "ls :1 a",
        "cat-blob :1",
        "get-mark :1",
        "alias",
        "checkpoint",
        "gpgsig sha1",
    ];
    for word in words {
        assert_eq!(rt; end_of_word(rt.alloc(), word)?, unsupported(2), "{word:?}");
    }
    Ok(())
}

// A stream as git fast-export writes it, with a merge and a tag.
const EXPORT: &[u8] = b"\
reset refs/heads/main
commit refs/heads/main
mark :1
author Ann Lee <ann@example.org> 1700000000 +0100
committer Ann Lee <ann@example.org> 1700000000 +0100
data 5
init
M 100644 ce013625030ba8dba906f756967f9e9ca394464a hello.txt
M 100755 e69de29bb2d1d6434b8b29ae775ad8c2e48c5391 \"tools/b\\303\\244r.sh\"
M 160000 1111111111111111111111111111111111111111 lib/ext

commit refs/heads/topic
mark :2
author Bo <bo@example.org> 1700000100 -0530
committer Ann Lee <ann@example.org> 1700000200 +0100
data 6
topic
from :1
D hello.txt

commit refs/heads/main
mark :3
author Ann Lee <ann@example.org> 1700000300 +0100
committer Ann Lee <ann@example.org> 1700000300 +0100
data 5
work
from :1
M 120000 e69de29bb2d1d6434b8b29ae775ad8c2e48c5391 link

commit refs/heads/main
mark :4
author Ann Lee <ann@example.org> 1700000400 +0100
committer Ann Lee <ann@example.org> 1700000400 +0100
data 6
merge
from :3
merge :2
D hello.txt

tag v1.0
from :1
tagger Ann Lee <ann@example.org> 1700000500 +0100
data 5
v1.0

reset refs/heads/topic
from :2

";

// Kind and line, the mark, and the bytes of its message, its merges and its changes; or the line of its
// `from`, or whether it has one.
const EXPORTED: &str = "\
reset 1 false
commit 2 Some(1) 5 0 3
commit 12 Some(2) 6 0 1
commit 21 Some(3) 5 0 1
commit 30 Some(4) 6 1 1
tag 40 None 41
reset 46 true
";

fn is_told(rt: &impl Abort, exported: &Reading) {
    assert_eq!(rt; exported.end, None);
    assert_eq!(rt; exported.short.as_str(), EXPORTED);
}

fn are_same(rt: &impl Abort, whole: &Reading, split: &Reading, length: usize) {
    assert_eq!(rt; whole.end, split.end, "at {length}");
    assert_eq!(rt; whole.full.as_str(), split.full.as_str(), "at {length}");
}

// Asserts that a stream reads the same in one piece and in pieces of a byte.
fn may_be_split(rt: &impl Abort, alloc: Global, stream: &[u8]) -> Result<(), AllocError> {
    let whole = read(alloc, stream, 65_536, Limits::standard())?;
    let split = read(alloc, stream, 1, Limits::standard())?;
    are_same(rt, &whole, &split, stream.len());
    Ok(())
}

#[test]
fn pieces_do_not_matter(rt: HostRuntime) -> Result<(), Fail> {
    is_told(&rt, &read(rt.alloc(), EXPORT, 65_536, Limits::standard())?);
    for length in 0..=EXPORT.len() {
        may_be_split(&rt, rt.alloc(), &EXPORT[..length])?;
    }
    Ok(())
}

fn end_of_longest(alloc: Global) -> Result<Option<StreamFault>, AllocError> {
    let mut stream = vec![in alloc; b'#'; 65_536]?;
    stream[65_535] = b'\n';
    end_of(alloc, stream.as_slice(), 65_536, Limits::standard())
}

#[test]
fn lines_and_streams_have_limits(rt: HostRuntime) -> Result<(), Fail> {
    assert_eq!(rt; end_of_longest(rt.alloc())?, None);
    let limits = Limits {
        line: 10,
        part: 2,
        stream: 20,
        commits: 1,
        entries: 1,
        original_names: false,
    };
    let table: [(&str, Option<StreamFault>); 5] = [
        ("progress x", None),
        ("progress xy", too_large(Limit::Line)),
        ("blob\ndata 3\nabc\n", too_large(Limit::Data)),
        ("\n\n\n\n\n\n\n\n\n\n\n\n\n\n\n\n\n\n\n\n", None),
        (
            "\n\n\n\n\n\n\n\n\n\n\n\n\n\n\n\n\n\n\n\n\n",
            too_large(Limit::Stream),
        ),
    ];
    for (stream, end) in table {
        let found = end_of(rt.alloc(), stream.as_bytes(), 3, limits)?;
        assert_eq!(rt; found, end, "{stream:?}");
    }
    Ok(())
}
