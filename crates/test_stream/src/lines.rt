//! Whole readings through the window, in pieces and at the limits.
ghost use Rattle.std.specs.Prelude.{◌<◌, ◌≤◌};
ghost use Rattle.bf_grammar.specs.Limits.{IsWithin};

use bf_grammar::{Limit, Limits, StreamFault};
use bf_io::{Bytes, MemSource};
use bf_stream::Cursor;
use std::alloc::Global;
use std::process::Abort;
use std::test::Fail;

// A comment, an empty line, a command, data by count, data by lines, and a line without LF.
const TEXT: &[u8] = b"# no\n\nblob\ndata 5\nab\ncd\ndata <<E\nx\n#y\nE\nend";

// A source of these bytes in such pieces, whose reads fail at these numbers.
fn source_of(
    alloc: Global,
    text: &[u8],
    piece: usize,
    fails: &[u64],
) -> Result<MemSource, StreamFault>
    requires { 0 < piece }
{
    Ok(MemSource::new(
        Bytes::from_slice(alloc, text)?,
        piece,
        Vec::from_slice(alloc, fails)?,
    ))
}

// The limits of the program, but so many bytes of a line and of the stream.
fn limits_of(line: u32, stream: u64) -> Limits
    requires line { line ≤ 65535 }
    requires stream { stream ≤ 1073741824 }
    ensures { IsWithin result }
{
    let mut limits = Limits::standard();
    limits.line = line;
    limits.stream = stream;
    limits
}

fn read_counted(rt: &impl Abort, cursor: &mut Cursor<'_, MemSource>) -> Result<(), StreamFault> {
    cursor.at_command()?;
    let line = cursor.line_number();
    assert_eq!(rt; line, 3);
    cursor.take_line();
    cursor.must_be_at(b"data")?;
    cursor.take_line();
    let counted = cursor.take_bytes(line, 5)?;
    assert_eq!(rt; counted.as_slice(), b"ab\ncd".as_slice());
    Ok(())
}

fn read_delimited(rt: &impl Abort, cursor: &mut Cursor<'_, MemSource>) -> Result<(), StreamFault> {
    cursor.skip_end_of_line()?;
    cursor.must_be_at(b"data")?;
    cursor.take_line();
    let delimited = cursor.take_delimited(3, b"E")?;
    assert_eq!(rt; delimited.as_slice(), b"x\n#y\n".as_slice());
    Ok(())
}

fn read_parts(rt: &impl Abort, cursor: &mut Cursor<'_, MemSource>) -> Result<(), StreamFault> {
    read_counted(rt, cursor)?;
    read_delimited(rt, cursor)?;
    assert!(rt; cursor.at_word(b"end")?);
    assert_eq!(rt; cursor.line_number(), 11);
    Ok(())
}

fn read_source(
    rt: &impl Abort,
    alloc: Global,
    source: &mut MemSource,
    limit: u64,
) -> Result<(), StreamFault>
    requires { limit ≤ 1073741824 }
{
    let mut cursor = Cursor::new(alloc, source, limits_of(65_535, limit))?;
    read_parts(rt, &mut cursor)
}

// Reads the text in such pieces, and asserts what its parts are, up to a limit or a read that fails.
fn read_text(
    rt: &impl Abort,
    alloc: Global,
    piece: usize,
    fails: &[u64],
    limit: u64,
) -> Result<(), StreamFault>
    requires piece { 0 < piece }
    requires limit { limit ≤ 1073741824 }
{
    let mut source = source_of(alloc, TEXT, piece, fails)?;
    read_source(rt, alloc, &mut source, limit)
}

fn first_line(alloc: Global, text: &[u8]) -> Result<bool, StreamFault> {
    let mut source = source_of(alloc, text, 65_536, &[])?;
    let mut cursor = Cursor::new(alloc, &mut source, limits_of(65_535, 1_000_000))?;
    cursor.at_command()
}

fn line_of(alloc: Global, length: usize) -> Result<bool, StreamFault> {
    let mut line = vec![in alloc; b'x'; length]?;
    line.extend_from_slice(b"\n")?;
    first_line(alloc, line.as_slice())
}

#[test]
fn reads_in_any_pieces(rt: HostRuntime) -> Result<(), Fail> {
    for piece in [1usize, 2, 3, 65_536] {
        read_text(&rt, rt.alloc(), piece, &[], 43)?;
    }
    Ok(())
}

#[test]
fn stops_at_the_limits(rt: HostRuntime) {
    let alloc = rt.alloc();
    let large = StreamFault::TooLarge {
        what: Limit::Stream,
    };
    assert_eq!(rt; read_text(&rt, alloc, 7, &[], 42), Err(large));
    assert_eq!(rt; read_text(&rt, alloc, 7, &[2], 43), Err(StreamFault::Read));
    assert_eq!(rt; line_of(alloc, 65_535), Ok(true));
    let long = StreamFault::TooLarge { what: Limit::Line };
    assert_eq!(rt; line_of(alloc, 65_536), Err(long));
}

fn ask_first(rt: &impl Abort, cursor: &mut Cursor<'_, MemSource>) -> Result<(), StreamFault> {
    for _ in 0..2 {
        assert!(rt; !cursor.at_word(b"from")?);
        assert!(rt; !cursor.at_word(b"mar")?);
        assert!(rt; cursor.at_word(b"mark")?);
        assert_eq!(rt; cursor.line_number(), 2);
    }
    assert_eq!(rt; cursor.line(), b"mark :1".as_slice());
    cursor.take_line();
    Ok(())
}

fn ask_second(rt: &impl Abort, cursor: &mut Cursor<'_, MemSource>) -> Result<(), StreamFault> {
    assert!(rt; !cursor.at_word(b"mark")?);
    assert_eq!(rt;
        cursor.must_be_at(b"mark"),
        Err(StreamFault::Syntax { line: 4 })
    );
    assert!(rt; cursor.at_word(b"from")?);
    assert_eq!(rt; cursor.line_number(), 4);
    Ok(())
}

fn ask_both(rt: &impl Abort, alloc: Global, source: &mut MemSource) -> Result<(), StreamFault> {
    let mut cursor = Cursor::new(alloc, source, limits_of(7, 100))?;
    ask_first(rt, &mut cursor)?;
    ask_second(rt, &mut cursor)
}

#[test]
fn a_line_is_asked_for_several_words(rt: HostRuntime) -> Result<(), Fail> {
    let text = b"#no\nmark :1\n#mark\nfrom :1\n";
    let mut source = source_of(rt.alloc(), text, 5, &[])?;
    ask_both(&rt, rt.alloc(), &mut source)?;
    Ok(())
}

fn ask_long(rt: &impl Abort, cursor: &mut Cursor<'_, MemSource>) -> Result<(), StreamFault> {
    let long = StreamFault::TooLarge { what: Limit::Line };
    for _ in 0..2 {
        assert!(rt; !cursor.at_word(b"from")?);
        assert_eq!(rt; cursor.at_word(b"mark"), Err(long));
    }
    Ok(())
}

#[test]
fn a_long_line_is_refused_by_its_word(rt: HostRuntime) -> Result<(), Fail> {
    let mut source = source_of(rt.alloc(), b"mark :1\n", 65_536, &[])?;
    let mut cursor = Cursor::new(rt.alloc(), &mut source, limits_of(6, 100))?;
    ask_long(&rt, &mut cursor)?;
    Ok(())
}
