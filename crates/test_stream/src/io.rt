//! Values from outside, and each call that allocates with ample memory.
use bf_io::*;
use std::alloc::{AllocError, Global};
use std::io;
use std::io::{Read, Write};
use std::process::Abort;
use std::test::Fail;

#[test]
fn decimal_reads_numbers_below_two_to_the_64(rt: HostRuntime) {
    let table: [(&[u8], Option<u64>); 10] = [
        (b"", None),
        (b"0", Some(0)),
        (b"42", Some(42)),
        (b"00000000000000000007", Some(7)),
        (b"000000000000000000007", None),
        (b"18446744073709551615", Some(18_446_744_073_709_551_615)),
        (b"18446744073709551616", None),
        (b"+1", None),
        (b"1 ", None),
        (b"1:", None),
    ];
    for (text, value) in table {
        assert_eq!(rt; decimal(text), value, "{text:?}");
    }
}

fn put_decimals(out: &mut Bytes) -> Result<(), AllocError> {
    put_decimal(out, 0)?;
    out.push(b',')?;
    put_decimal(out, 18_446_744_073_709_551_615)
}

fn has_clone(rt: &impl Abort, bytes: &Bytes) -> Result<(), AllocError> {
    let clone = bytes.try_clone()?;
    assert_eq!(rt; clone, *bytes);
    Ok(())
}

#[test]
fn put_decimal_writes_digits(rt: HostRuntime) -> Result<(), Fail> {
    let mut out = Bytes::from_slice(rt.alloc(), b"n=")?;
    put_decimals(&mut out)?;
    assert_eq!(rt; out.as_slice(), b"n=0,18446744073709551615".as_slice());
    has_clone(&rt, &out)?;
    Ok(())
}

fn is_less(rt: &impl Abort, alloc: Global, less: &[u8], more: &[u8]) -> Result<(), AllocError> {
    let less = Bytes::from_slice(alloc, less)?;
    let more = Bytes::from_slice(alloc, more)?;
    assert!(rt; less < more);
    assert_ne!(rt; less, more);
    Ok(())
}

#[test]
fn bytes_are_ordered_by_the_first_that_differs(rt: HostRuntime) -> Result<(), Fail> {
    is_less(&rt, rt.alloc(), b"ab", b"ab\0")?;
    is_less(&rt, rt.alloc(), b"ab\0", b"b")?;
    Ok(())
}

fn scripted_source_gives(rt: &impl Abort, alloc: Global) -> Result<(), AllocError> {
    let bytes = Bytes::from_slice(alloc, b"abcde")?;
    let mut source = MemSource::new(bytes, 2, vec![in alloc; 2]?);
    let mut buf = [0; 8];
    let answers = [Ok(2), Err(Failed), Ok(2), Ok(1), Ok(0)];
    for answer in answers {
        assert_eq!(rt; source.read(&mut buf), answer);
    }
    assert_eq!(rt; source.calls(), 5);
    Ok(())
}

fn plain_source_gives(rt: &impl Abort, alloc: Global) -> Result<(), AllocError> {
    let mut plain = PlainSource::new(Bytes::from_slice(alloc, b"abc")?);
    let mut buf = [0; 8];
    assert_eq!(rt; plain.read(&mut buf), Ok(3));
    assert_eq!(rt; &buf[..3], b"abc".as_slice());
    Ok(())
}

#[test]
fn a_source_gives_pieces_and_fails_at_its_numbers(rt: HostRuntime) -> Result<(), Fail> {
    scripted_source_gives(&rt, rt.alloc())?;
    plain_source_gives(&rt, rt.alloc())?;
    Ok(())
}

fn scripted_sink_takes(rt: &impl Abort, alloc: Global) -> Result<(), AllocError> {
    let mut sink = MemSink::new(alloc, 2, vec![in alloc; 4]?);
    assert_eq!(rt; write_whole(&mut sink, b"abc"), Ok(()));
    assert_eq!(rt; write_whole(&mut sink, b""), Ok(()));
    assert_eq!(rt; write_whole(&mut sink, b"defg"), Err(SinkFault::Failed));
    assert_eq!(rt; sink.flush(), Ok(()));
    assert_eq!(rt; sink.calls(), 5);
    assert_eq!(rt; sink.bytes(), b"abcde".as_slice());
    Ok(())
}

fn plain_sink_takes(rt: &impl Abort, alloc: Global) -> Result<(), AllocError> {
    let taken = Bytes::from_slice(alloc, b"abc")?;
    let mut plain = PlainSink::new(alloc);
    assert_eq!(rt; write_whole(&mut plain, b"abc"), Ok(()));
    assert_eq!(rt; plain.into_bytes(), taken);
    Ok(())
}

#[test]
fn write_whole_stops_where_the_sink_fails(rt: HostRuntime) -> Result<(), Fail> {
    scripted_sink_takes(&rt, rt.alloc())?;
    plain_sink_takes(&rt, rt.alloc())?;
    Ok(())
}

// A reader and writer that always fails.
#[derive(Drop)]
struct Broken;

impl Read for Broken {
    fn read(&mut self, _buf: &mut [u8]) -> io::Result<usize> {
        Err(io::Error::from(io::ErrorKind::Other))
    }
}

impl Write for Broken {
    fn write(&mut self, _buf: &[u8]) -> io::Result<usize> {
        Ok(0)
    }

    fn flush(&mut self) -> io::Result<()> {
        Err(io::Error::from(io::ErrorKind::Other))
    }
}

#[test]
fn devices_over_readers_and_writers(rt: HostRuntime) {
    let mut buf = [0; 8];
    let mut source = StdSource::new(b"abc".as_slice());
    assert_eq!(rt; source.read(&mut buf), Ok(3));
    assert_eq!(rt; &buf[..3], b"abc".as_slice());
    assert_eq!(rt; source.read(&mut buf), Ok(0));
    assert_eq!(rt; StdSource::new(Broken).read(&mut buf), Err(Failed));
    let mut sink = StdSink::new(Vec::<u8>::new(rt.alloc()));
    assert_eq!(rt; write_whole(&mut sink, b"abc"), Ok(()));
    assert_eq!(rt; sink.flush(), Ok(()));
    assert_eq!(rt;
        write_whole(&mut StdSink::new(Broken), b"abc"),
        Err(SinkFault::Failed)
    );
    assert_eq!(rt; StdSink::new(Broken).flush(), Err(SinkFault::Failed));
}
