//! Devices that fail at each of their calls, streams that end anywhere, and what a fault leaves behind.
ghost use Rattle.std.specs.Prelude.{◌<◌};

use crate::imports::EXPORT;
use crate::line::{EIGHT, FOUND};
use crate::program::{run, test};
use bf_io::{Bytes, MemSink, MemSource, PlainSink};
use bf_program::Status;
use bf_tester::{ScriptTester, Tester};
use std::alloc::{AllocError, Global};
use std::process::{Abort, Processes, SystemProcess};
use std::sync::Wait;
use std::test::Fail;
use std::thread::Threads;
use std::time::Clock;

/// A search over the line of eight.
static SEARCH: [&[u8]; 4] = [b"simulate", b"main", b"main~7", b"ggggbbbb"];

/// Such a search by tests, leg by leg.
static LEGS: [&[u8]; 7] = [b"run", b"--leg", b"1", b"main", b"main~7", b"--", b"t"];

// The 536 bytes of the stream come in 34 reads, and one more finds its end.
#[test]
fn each_read_fails(rt: HostRuntime) -> Result<(), Fail> {
    let alloc = rt.alloc();
    for call in 1..36 {
        let fails = [call].to_vec(alloc)?;
        let mut stream = MemSource::new(Bytes::from_slice(alloc, EIGHT)?, 16, fails);
        let mut out = PlainSink::new(alloc);
        let status = run(&rt, &SEARCH, &mut stream, &mut out)?;
        assert_eq!(rt; status, Status::ReadFault, "read {call}");
        assert_eq!(rt; out.bytes(), b"read fault\n".as_slice(), "read {call}");
    }
    Ok(())
}

// The 670 bytes of the text go out in 96 writes, and are flushed then.
#[test]
fn each_write_fails(rt: HostRuntime) -> Result<(), Fail> {
    let alloc = rt.alloc();
    for call in 1..98 {
        let mut stream = MemSource::new(Bytes::from_slice(alloc, EIGHT)?, 65_536, Vec::new(alloc));
        let mut out = MemSink::new(alloc, 7, [call].to_vec(alloc)?);
        let status = run(&rt, &SEARCH, &mut stream, &mut out)?;
        assert_eq!(rt; status, Status::WriteFault, "call {call}");
        assert!(rt; FOUND.starts_with(out.bytes()), "call {call}");
    }
    Ok(())
}

/// The status and the text of a search over the export, in pieces of so many bytes, where it ends early.
fn cut<R>(rt: &R, len: usize, piece: usize) -> Result<(Status, Bytes), AllocError>
where
    R: Threads
        + Wait
        + Processes<Started = SystemProcess>
        + Clock
        + Eprint
        + Sync
        + Alloc<A = Global>,
    requires { 0 < piece }
{
    let alloc = rt.alloc();
    let front = EXPORT.get(..len).unwrap_or_default();
    let mut stream = MemSource::new(Bytes::from_slice(alloc, front)?, piece, Vec::new(alloc));
    let mut out = PlainSink::new(alloc);
    let words: [&[u8]; 4] = [b"simulate", b"main", b"v1.0", b"gbgb"];
    let status = run(rt, &words, &mut stream, &mut out)?;
    Ok((status, out.into_bytes()))
}

/// Asserts that a stream that ends behind so many bytes is answered, and alike where it comes byte by byte.
fn are_alike(rt: &impl Abort, len: usize, whole: &(Status, Bytes), split: &(Status, Bytes)) {
    assert!(rt; [0, 7, 8].contains(&whole.0.number()), "{len} bytes");
    assert_eq!(rt; whole.0, split.0, "{len} bytes");
    assert_eq!(rt; whole.1.as_slice(), split.1.as_slice(), "{len} bytes");
}

#[test]
fn streams_end_anywhere(rt: HostRuntime) -> Result<(), Fail> {
    for len in 0..EXPORT.len() + 1 {
        let whole = cut(&rt, len, 65_536)?;
        are_alike(&rt, len, &whole, &cut(&rt, len, 1)?);
    }
    Ok(())
}

// Words alone are answered before the stream is read; the answer is flushed, and a flush that fails is told.
#[test]
fn answers_are_flushed(rt: HostRuntime) -> Result<(), Fail> {
    let alloc = rt.alloc();
    let mut stream = MemSource::new(Bytes::new(alloc), 16, Vec::new(alloc));
    let mut out = MemSink::new(alloc, 65_536, [2].to_vec(alloc)?);
    let status = run(&rt, &[], &mut stream, &mut out)?;
    assert_eq!(rt; status, Status::WriteFault);
    assert_eq!(rt; out.bytes(), b"usage fault at word 0\n".as_slice());
    assert_eq!(rt; stream.calls(), 0);
    Ok(())
}

// After each leg its lines are written and flushed: where the first flush fails, one commit was tested.
#[test]
fn legs_go_out(rt: HostRuntime) -> Result<(), Fail> {
    let alloc = rt.alloc();
    let mut tester = ScriptTester::new(alloc, b"ggggbbbb", Vec::new(alloc), None)?;
    let mut out = MemSink::new(alloc, 65_536, [2].to_vec(alloc)?);
    let status = test(&rt, &LEGS, EIGHT, &mut tester, &mut out)?;
    assert_eq!(rt; status, Status::WriteFault);
    assert!(rt; tester.answer(0).is_some() && tester.answer(1).is_none());
    assert!(rt; FOUND.starts_with(out.bytes()) && out.bytes().len() > 300);
    Ok(())
}
