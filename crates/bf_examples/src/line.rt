//! A stream of four commits in a line, and its history.
use bf_import::{History, ImportFault, Limits, import};
use bf_io::{Bytes, PlainSource};
use std::alloc::Global;

static STREAM: &[u8] = b"\
commit refs/heads/old
mark :1
committer T <t@e> 0 +0000
data 2
c0
commit refs/heads/main
mark :2
committer T <t@e> 1 +0000
data 2
c1
from :1
commit refs/heads/main
mark :3
committer T <t@e> 2 +0000
data 2
c2
commit refs/heads/main
mark :4
committer T <t@e> 3 +0000
data 2
c3
";

pub(crate) fn stream() -> &'static [u8] {
    STREAM
}

/// The history that a stream makes.
pub(crate) fn history(alloc: Global, stream: &[u8]) -> Result<History, ImportFault> {
    let mut source = PlainSource::new(Bytes::from_slice(alloc, stream)?);
    import(alloc, &mut source, Limits::standard())
}
