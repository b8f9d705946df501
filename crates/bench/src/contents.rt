//! Imports with and without their contents.
use bf_import::{ImportFault, Limits, import, import_with_blobs};
use bf_io::Source;
use std::alloc::{AllocError, Global};

/// How many commits and blobs a stream has, or why it is refused.
pub fn numbers<S: Source>(
    alloc: Global,
    source: &mut S,
    is_kept: bool,
) -> Result<String, AllocError> {
    match counted(alloc, source, is_kept) {
        Ok((commits, blobs)) => format!(in alloc; "{commits} commits, {blobs} blobs"),
        Err(fault) => format!(in alloc; "{fault}"),
    }
}

/// The numbers of commits and of blobs; of these none is there where they are not kept.
fn counted<S: Source>(
    alloc: Global,
    source: &mut S,
    is_kept: bool,
) -> Result<(u32, usize), ImportFault> {
    if is_kept {
        let content = import_with_blobs(alloc, source, Limits::standard())?;
        Ok((content.history().len(), content.blobs().len()))
    } else {
        let history = import(alloc, source, Limits::standard())?;
        Ok((history.len(), 0))
    }
}
