//! How many commands a stream has.
use bf_grammar::{Limits, StreamFault};
use bf_io::Source;
use bf_stream::Reader;
use std::alloc::{AllocError, Global};

/// How many commands a source has, or why it is refused.
pub fn counted<S: Source>(alloc: Global, source: &mut S) -> Result<String, AllocError> {
    match count_commands(alloc, source) {
        Ok(count) => format!(in alloc; "{count} commands"),
        Err(fault) => format!(in alloc; "{fault}"),
    }
}

/// The number of commands that a source has.
fn count_commands<S: Source>(alloc: Global, source: &mut S) -> Result<u64, StreamFault> {
    let mut reader = Reader::new(alloc, source, Limits::standard())?;
    let mut count = 0u64;
    for _ in 0..u64::MAX {
        if reader.over() || reader.next()?.is_none() {
            break;
        }
        count = count.wrapping_add(1);
    }
    Ok(count)
}
