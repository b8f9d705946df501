//! A stream is read command by command.
use crate::line::stream;
use bf_io::{Bytes, PlainSource};
use bf_stream::{Command, Limits, Reader, StreamFault};
use std::alloc::Global;
use std::test::Fail;

/// The messages of the commits of a stream, one behind the other.
fn messages(alloc: Global, stream: &[u8]) -> Result<Bytes, StreamFault> {
    let mut source = PlainSource::new(Bytes::from_slice(alloc, stream)?);
    let mut reader = Reader::new(alloc, &mut source, Limits::standard())?;
    let mut messages = Bytes::new(alloc);
    // A stream has no more commands than bytes.
    for _ in 0..=stream.len() {
        if reader.over() {
            break;
        }
        if let Some(Command::Commit(commit)) = reader.next()? {
            messages.append(commit.header.message.as_slice())?;
        }
    }
    Ok(messages)
}

#[test]
fn a_stream_is_read_command_by_command(rt: HostRuntime) -> Result<(), Fail> {
    let messages = messages(rt.alloc(), stream())?;
    assert_eq!(rt; messages.as_slice(), b"c0c1c2c3".as_slice());
    Ok(())
}
