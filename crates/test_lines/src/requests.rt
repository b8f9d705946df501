//! Lines in pieces, long ones, and devices that fail.
ghost use Rattle.std.specs.Prelude.{◌<◌};

use crate::late::Late;
use bf_io::{Bytes, MemSink, MemSource};
use bf_lines::{ServeFault, serve_lines};
use std::alloc::{AllocError, Global};
use std::test::Fail;

/// What came of an input.
#[derive(Drop)]
struct Outcome {
    result: Result<(), ServeFault>,
    output: Bytes,
    reads: u64,
    calls: u64,
    replies: u64,
}

/// Serves what is held, and then a source that gives so many bytes a read. The devices fail at these calls.
fn serve_held(
    alloc: Global,
    held: &[u8],
    input: &[u8],
    piece: usize,
    fails: (u64, u64),
) -> Result<Outcome, AllocError>
    requires { 0 < piece }
{
    let fails_read = Vec::from_slice(alloc, &[fails.0])?;
    let fails_write = Vec::from_slice(alloc, &[fails.1])?;
    let mut source = MemSource::new(Bytes::from_slice(alloc, input)?, piece, fails_read);
    let mut sink = MemSink::new(alloc, 1_048_576, fails_write);
    let mut late = Late::new(alloc);
    let held = Bytes::from_slice(alloc, held)?;
    let mut replies = 0;
    let result = serve_lines(alloc, held, &mut source, &mut sink, &mut late, &mut replies);
    Ok(Outcome {
        result,
        replies,
        reads: source.calls(),
        calls: sink.calls(),
        output: sink.into_bytes(),
    })
}

#[test]
fn each_line_has_its_reply_in_any_pieces(rt: HostRuntime) -> Result<(), Fail> {
    for piece in 1..=9 {
        let told = serve_held(rt.alloc(), b"a\nb", b"b\n\nccc", piece, (0, 0))?;
        assert_eq!(rt; told.result, Ok(()));
        assert_eq!(rt; told.output.as_slice(), b"\na\nbb\n".as_slice());
        // A write and a flush for each line.
        assert_eq!(rt; told.replies, 3);
        assert_eq!(rt; told.calls, 6);
    }
    Ok(())
}

#[test]
fn what_is_held_is_answered_before_a_read(rt: HostRuntime) -> Result<(), Fail> {
    let told = serve_held(rt.alloc(), b"a\nb\n", b"c\n", 9, (1, 0))?;
    assert_eq!(rt; told.result, Err(ServeFault::Read));
    assert_eq!(rt; told.output.as_slice(), b"\na\n".as_slice());
    let told = serve_held(rt.alloc(), b"", b"a\nb\n", 9, (2, 0))?;
    assert_eq!(rt; told.result, Err(ServeFault::Read));
    assert_eq!(rt; told.output.as_slice(), b"\na\n".as_slice());
    assert_eq!(rt; told.reads, 2);
    Ok(())
}

#[test]
fn a_sink_that_fails_cuts_the_replies(rt: HostRuntime) -> Result<(), Fail> {
    let whole = b"\na\nbb\n".as_slice();
    for call in 1..=6 {
        let told = serve_held(rt.alloc(), b"", b"a\nbb\nccc\n", 4, (0, call))?;
        assert_eq!(rt; told.result, Err(ServeFault::Write));
        assert!(rt; whole.starts_with(told.output.as_slice()));
        assert_eq!(rt; told.calls, call);
    }
    Ok(())
}

/// A line of so many bytes, and two behind it.
fn long_input(alloc: Global, size: usize) -> Result<Bytes, AllocError> {
    let mut input = Vec::new(alloc);
    input.resize(size, b'x')?;
    input.extend_from_slice(b"\ny\nz")?;
    Ok(Bytes::from_vec(alloc, input))
}

#[test]
fn a_line_is_short_up_to_65_535_bytes(rt: HostRuntime) -> Result<(), Fail> {
    for piece in [1_000, 65_536, 200_000] {
        let input = long_input(rt.alloc(), 65_535)?;
        let told = serve_held(rt.alloc(), b"", input.as_slice(), piece, (0, 0))?;
        assert_eq!(rt; told.result, Ok(()));
        // An empty line and the long one; that behind them is torn.
        assert_eq!(rt; told.output.len(), 1 + 65_536);
        let input = long_input(rt.alloc(), 65_536)?;
        let told = serve_held(rt.alloc(), b"", input.as_slice(), piece, (0, 0))?;
        assert_eq!(rt; told.result, Ok(()));
        assert_eq!(rt; told.output.as_slice(), b"\nlong\n".as_slice());
        let told = serve_held(rt.alloc(), input.as_slice(), b"", piece, (0, 0))?;
        assert_eq!(rt; told.output.as_slice(), b"\nlong\n".as_slice());
    }
    Ok(())
}
