//! Sessions in any pieces, lines that are no requests, streams that are refused, and devices that fail.
ghost use Rattle.std.specs.Prelude.{◌<◌};

use crate::session::{READY, REPLIES, REQUESTS, STREAM};
use bf_io::{Bytes, MemSink, MemSource, PlainShelf, ShelfFile, Word};
use bf_output::Status;
use bf_serve_run::serve;
use std::alloc::{AllocError, Global};
use std::test::Fail;

/// What came of an input.
#[derive(Drop)]
struct Outcome {
    status: u8,
    output: Bytes,
    reads: u64,
    calls: u64,
}

/// The calls at which the devices fail, counted from 1; at 0 none does.
#[derive(Clone, Copy)]
struct Fails {
    read: u64,
    write: u64,
}

const NEVER: Fails = Fails { read: 0, write: 0 };

/// Bytes, one text behind the other.
fn joined(alloc: Global, texts: &[&[u8]]) -> Result<Bytes, AllocError> {
    let mut all = Bytes::new(alloc);
    for text in texts {
        all.append(text)?;
    }
    Ok(all)
}

/// Serves an input that comes in pieces of so many bytes. The shelf has one file, named `file`.
fn served(
    alloc: Global,
    input: &[&[u8]],
    file: &[u8],
    piece: usize,
    fails: Fails,
) -> Result<Outcome, AllocError>
    requires { 0 < piece }
{
    let mut words: Vec<Word> = Vec::new(alloc);
    words.push(Bytes::from_slice(alloc, b"serve")?)?;
    let mut files = Vec::new(alloc);
    files.push(ShelfFile {
        name: Bytes::from_slice(alloc, b"file")?,
        bytes: Bytes::from_slice(alloc, file)?,
    })?;
    let mut shelf = PlainShelf::new(files);
    let reads = Vec::from_slice(alloc, &[fails.read])?;
    let writes = Vec::from_slice(alloc, &[fails.write])?;
    let mut source = MemSource::new(joined(alloc, input)?, piece, reads);
    let mut sink = MemSink::new(alloc, 1_048_576, writes);
    let status = serve(alloc, words.as_slice(), &mut source, &mut shelf, &mut sink);
    Ok(Outcome {
        status: status.number(),
        reads: source.calls(),
        calls: sink.calls(),
        output: sink.into_bytes(),
    })
}

#[test]
fn a_session_is_the_same_in_any_pieces(rt: HostRuntime) -> Result<(), Fail> {
    let due = joined(rt.alloc(), &[READY, REPLIES])?;
    for piece in [1, 2, 7, 1_000] {
        let told = served(rt.alloc(), &[STREAM, REQUESTS], b"", piece, NEVER)?;
        assert_eq!(rt; told.status, 0);
        assert_eq!(rt; told.output.as_slice(), due.as_slice());
        // A write and a flush for the first line and for each of the five replies.
        assert_eq!(rt; told.calls, 12);
    }
    Ok(())
}

#[test]
fn a_line_that_is_torn_is_no_request(rt: HostRuntime) -> Result<(), Fail> {
    let due = joined(rt.alloc(), &[READY, REPLIES])?;
    let told = served(rt.alloc(), &[STREAM, REQUESTS, b"pick 9"], b"", 5, NEVER)?;
    assert_eq!(rt; told.status, 0);
    assert_eq!(rt; told.output.as_slice(), due.as_slice());
    let told = served(rt.alloc(), &[STREAM], b"", 5, NEVER)?;
    assert_eq!(rt; told.output.as_slice(), READY);
    Ok(())
}

/// So many bytes.
fn bytes_of(alloc: Global, size: usize) -> Result<Bytes, AllocError> {
    let mut bytes = Vec::new(alloc);
    bytes.resize(size, b'x')?;
    Ok(Bytes::from_vec(alloc, bytes))
}

#[test]
fn a_line_that_is_too_long_is_refused(rt: HostRuntime) -> Result<(), Fail> {
    let short = bytes_of(rt.alloc(), 65_535)?;
    let long = bytes_of(rt.alloc(), 65_536)?;
    let input = &[
        STREAM,
        short.as_slice(),
        b"\n",
        long.as_slice(),
        b"\nover\n",
    ];
    let told = served(rt.alloc(), input, b"", 1_000, NEVER)?;
    assert_eq!(rt; told.status, 0);
    let refused = b"refused unknown request\nrefused line too long\nrefused unknown request\n";
    let due = joined(rt.alloc(), &[READY, refused])?;
    assert_eq!(rt; told.output.as_slice(), due.as_slice());
    Ok(())
}

#[test]
fn a_log_is_gone_on_from(rt: HostRuntime) -> Result<(), Fail> {
    let log = b"git bisect start\ngit bisect bad main\ngit bisect good main~2\n";
    let told = served(
        rt.alloc(),
        &[
            STREAM,
            b"search --replay none\nsearch --replay file\npick 1\n",
        ],
        log,
        64,
        NEVER,
    )?;
    assert_eq!(rt; told.status, 0);
    let missing = joined(rt.alloc(), &[READY, b"refused no such file\n"])?;
    assert!(rt; told.output.as_slice().starts_with(missing.as_slice()));
    let test = b"search 1\ntest 1 f570778fec974dd2b05ee862e235ff38a61118d3\n";
    assert!(rt; told.output.as_slice().ends_with(test));
    Ok(())
}

#[test]
fn a_stream_may_be_refused(rt: HostRuntime) -> Result<(), Fail> {
    let told = served(rt.alloc(), &[b"none\n", REQUESTS], b"", 3, NEVER)?;
    assert_eq!(rt; told.status, 7);
    let due = b"stream refused at line 1: syntax\n".as_slice();
    assert_eq!(rt; told.output.as_slice(), due);
    Ok(())
}

#[test]
fn a_sink_that_fails_cuts_the_replies(rt: HostRuntime) -> Result<(), Fail> {
    let whole = joined(rt.alloc(), &[READY, REPLIES])?;
    for call in 1..=12 {
        let fails = Fails {
            write: call,
            ..NEVER
        };
        let told = served(rt.alloc(), &[STREAM, REQUESTS], b"", 64, fails)?;
        assert_eq!(rt; told.status, 13);
        assert!(rt; whole.as_slice().starts_with(told.output.as_slice()));
        assert_eq!(rt; told.calls, call);
    }
    Ok(())
}

/// Behind the stream a source that fails leaves the replies to what came before, each whole.
#[test]
fn a_source_that_fails_ends_the_replies(rt: HostRuntime) -> Result<(), Fail> {
    let whole = joined(rt.alloc(), &[READY, REPLIES])?;
    let all = served(rt.alloc(), &[STREAM, REQUESTS], b"", 9, NEVER)?;
    let mut unread: u64 = 0;
    for read in 1..=all.reads {
        let fails = Fails { read, ..NEVER };
        let told = served(rt.alloc(), &[STREAM, REQUESTS], b"", 9, fails)?;
        assert_eq!(rt; told.status, 12);
        if told.output.as_slice() == b"read fault\n".as_slice() {
            unread = unread.saturating_add(1);
        } else {
            assert!(rt; whole.as_slice().starts_with(told.output.as_slice()));
            assert!(rt; told.output.as_slice().ends_with(b"\n"));
        }
    }
    assert!(rt; 0 < unread && unread < all.reads);
    Ok(())
}
