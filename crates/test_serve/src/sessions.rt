//! Sessions over a short line of commits and a longer one.
use crate::talks::{
    A_DRIVER_LEADS_TWO_SEARCHES, A_LOG_IS_GONE_ON_FROM, FIVE_SEARCHES_COME_TO_THEIR_ENDS, LOG,
    NEEDLESS_TESTS_ARE_NAMED, Talk, WHAT_IS_KNOWN_IS_LEARNED, WORDS_ARE_READ_AS_THOSE_OF_NEXT,
};
use bf_import::{History, ImportFault, Limits, import};
use bf_io::{Bytes, PlainShelf, PlainSource, ShelfFile};
use bf_reach::Reach;
use bf_serve::Session;
use std::alloc::{AllocError, Global};

/// The shelf that has a log, and one that is none.
fn shelf(alloc: Global) -> Result<PlainShelf, AllocError> {
    let mut files = Vec::new(alloc);
    files.push(ShelfFile {
        name: Bytes::from_slice(alloc, b"log")?,
        bytes: Bytes::from_slice(alloc, LOG)?,
    })?;
    files.push(ShelfFile {
        name: Bytes::from_slice(alloc, b"bad")?,
        bytes: Bytes::from_slice(alloc, b"git bisect start\nxx\n")?,
    })?;
    Ok(PlainShelf::new(files))
}

/// What a session replies to these lines.
fn served(alloc: Global, history: &History, lines: &[u8]) -> Result<Bytes, AllocError> {
    let reach = Reach::build(alloc, history.graph())?;
    let mut session = Session::new(alloc, history, &reach)?;
    let mut shelf = shelf(alloc)?;
    let mut out = Bytes::new(alloc);
    for line in lines.split(|byte| *byte == b'\n') {
        if !line.is_empty() {
            session.answer(line, &mut shelf, &mut out)?;
        }
    }
    Ok(out)
}

/// What a driver is told.
fn told(alloc: Global, talk: Talk) -> Result<Bytes, ImportFault> {
    let mut source = PlainSource::new(Bytes::from_slice(alloc, talk.stream)?);
    let history = import(alloc, &mut source, Limits::standard())?;
    Ok(served(alloc, &history, talk.requests)?)
}

#[test]
fn a_driver_leads_two_searches(rt: HostRuntime) -> Result<(), ImportFault> {
    let out = told(rt.alloc(), A_DRIVER_LEADS_TWO_SEARCHES)?;
    assert_eq!(rt; out.as_slice(), A_DRIVER_LEADS_TWO_SEARCHES.output);
    Ok(())
}

#[test]
fn five_searches_come_to_their_ends(rt: HostRuntime) -> Result<(), ImportFault> {
    let out = told(rt.alloc(), FIVE_SEARCHES_COME_TO_THEIR_ENDS)?;
    assert_eq!(rt; out.as_slice(), FIVE_SEARCHES_COME_TO_THEIR_ENDS.output);
    Ok(())
}

#[test]
fn words_are_read_as_those_of_next(rt: HostRuntime) -> Result<(), ImportFault> {
    let out = told(rt.alloc(), WORDS_ARE_READ_AS_THOSE_OF_NEXT)?;
    assert_eq!(rt; out.as_slice(), WORDS_ARE_READ_AS_THOSE_OF_NEXT.output);
    Ok(())
}

#[test]
fn what_is_known_is_learned(rt: HostRuntime) -> Result<(), ImportFault> {
    let out = told(rt.alloc(), WHAT_IS_KNOWN_IS_LEARNED)?;
    assert_eq!(rt; out.as_slice(), WHAT_IS_KNOWN_IS_LEARNED.output);
    Ok(())
}

#[test]
fn needless_tests_are_named(rt: HostRuntime) -> Result<(), ImportFault> {
    let out = told(rt.alloc(), NEEDLESS_TESTS_ARE_NAMED)?;
    assert_eq!(rt; out.as_slice(), NEEDLESS_TESTS_ARE_NAMED.output);
    Ok(())
}

#[test]
fn a_log_is_gone_on_from(rt: HostRuntime) -> Result<(), ImportFault> {
    let out = told(rt.alloc(), A_LOG_IS_GONE_ON_FROM)?;
    assert_eq!(rt; out.as_slice(), A_LOG_IS_GONE_ON_FROM.output);
    Ok(())
}
