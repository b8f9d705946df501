//! A stream whose commits are tested, and its content.
use bf_import::{Content, ImportFault, Limits, import_with_blobs};
use bf_io::{Bytes, PlainSource};
use std::alloc::Global;

/// Three commits: of `a` alone, of `a` and the link `d/bug`, and of `a` and a submodule at `bug`.
const MODES: &[u8] = b"\
blob
mark :1
data 1
x
commit refs/heads/main
committer T <t@e> 0 +0000
data 2
c0
M 100644 :1 a
commit refs/heads/main
committer T <t@e> 1 +0000
data 2
c1
M 120000 inline d/bug
data 1
y
commit refs/heads/main
committer T <t@e> 2 +0000
data 2
c2
D d/bug
M 100755 inline a
data 1
y
M 160000 1111111111111111111111111111111111111111 bug
";

pub(crate) fn modes() -> &'static [u8] {
    MODES
}

/// What a stream loads.
pub(crate) fn content(alloc: Global, stream: &[u8]) -> Result<Content, ImportFault> {
    let mut source = PlainSource::new(Bytes::from_slice(alloc, stream)?);
    import_with_blobs(alloc, &mut source, Limits::standard())
}
