//! Histories with the contents of their files.

use bf_import::{Blobs, Content, ImportFault, Limits, import_with_blobs};
use bf_io::{Bytes, MemSource};
use bf_oid::{Mode, Oid, oid_from_hex};
use std::alloc::{AllocError, Global};
use std::test::Fail;

fn load(alloc: Global, stream: &[u8]) -> Result<Content, ImportFault> {
    let mut source = MemSource::new(Bytes::from_slice(alloc, stream)?, 7, Vec::new(alloc));
    import_with_blobs(alloc, &mut source, Limits::standard())
}

/// The files of a place, submodules aside, each with its bytes.
fn put_files(out: &mut Bytes, content: &Content, place: u32) -> Result<(), AllocError> {
    for file in &content.files(place)? {
        if file.mode != Mode::Module {
            out.append(file.path.to_bytes()?.as_slice())?;
            out.push(b'=')?;
            out.append(content.bytes(file.oid))?;
            out.push(b' ')?;
        }
    }
    out.push(b'\n')
}

/// The files of all places, one more than there are, or why there are none.
fn described(alloc: Global, stream: &[u8]) -> Result<Bytes, AllocError> {
    let mut out = Bytes::new(alloc);
    match load(alloc, stream) {
        Ok(content) => {
            for place in 0..content.history().len() {
                put_files(&mut out, &content, place)?;
            }
            put_files(&mut out, &content, content.history().len())?;
        }
        Err(fault) => out.append(format!(in alloc; "{fault}")?.as_bytes())?,
    }
    Ok(out)
}

fn streams() -> &'static [(&'static str, &'static [u8], &'static [u8])] {
    &STREAMS
}

#[test]
fn each_place_has_its_files(rt: HostRuntime) -> Result<(), Fail> {
    for &(name, stream, text) in streams() {
        let found = described(rt.alloc(), stream)?;
        assert_eq!(rt; found.as_slice(), text, "{name}");
    }
    Ok(())
}

/// The name of a blob with the one byte `x`.
fn name_of_x() -> Oid {
    oid_from_hex(b"c1b0730e0133447badcfd47fd144e254807b06e1").unwrap_or(Oid([0; 20]))
}

#[test]
fn blobs_stand_under_their_names_once(rt: HostRuntime) -> Result<(), Fail> {
    let content = load(rt.alloc(), FILES)?;
    let blobs: &Blobs = content.blobs();
    assert_eq!(rt; blobs.len(), 2);
    assert_eq!(rt; blobs.get(name_of_x()), Some(b"x".as_slice()));
    assert_eq!(rt; blobs.get(Oid([7; 20])), None);
    Ok(())
}

#[test]
fn nothing_has_no_commit_and_no_blob(rt: HostRuntime) -> Result<(), Fail> {
    let content = Content::empty(rt.alloc())?;
    assert_eq!(rt; content.history().len(), 0);
    assert_eq!(rt; content.blobs().len(), 0);
    assert_eq!(rt; content.files(0)?.len(), 0);
    let no_files = oid_from_hex(b"4b825dc642cb6eb9a060e54bf8d69288fbee4904");
    assert_eq!(rt; Some(content.tree_name(0)), no_files);
    assert!(rt; content.bytes(name_of_x()).is_empty());
    Ok(())
}

const FILES: &[u8] = b"\
blob
mark :1
data 1
x
commit refs/heads/main
committer T <t@e> 0 +0000
data 2
c0
M 100644 :1 a
commit refs/heads/main
committer T <t@e> 60 +0000
data 2
c1
M 100644 :1 bug
commit refs/heads/main
committer T <t@e> 120 +0000
data 2
c2
D a
commit refs/heads/main
committer T <t@e> 180 +0000
data 2
c3
M 100644 inline lib/z
data 1
y
";

static STREAMS: [(&str, &[u8], &[u8]); 11] = [
    (
        "files",
        FILES,
        b"a=x \na=x bug=x \nbug=x \nbug=x lib/z=y \n\n",
    ),
    (
        "a link is its target, and a submodule has no content",
        b"\
commit refs/heads/main
committer T <t@e> 0 +0000
data 0
M 120000 inline to
data 2
./
M 160000 1111111111111111111111111111111111111111 lib
M 100755 inline run
data 0
",
        b"run= to=./ \n\n",
    ),
    (
        "a blob without a mark is named by its digits",
        b"\
blob
data 1
x
commit refs/heads/main
committer T <t@e> 0 +0000
data 0
M 100644 c1b0730e0133447badcfd47fd144e254807b06e1 a
",
        b"a=x \n\n",
    ),
    (
        "an inline part before",
        b"\
commit refs/heads/main
committer T <t@e> 0 +0000
data 0
M 100644 inline b
data 1
x
M 100644 c1b0730e0133447badcfd47fd144e254807b06e1 a
",
        b"a=x b=x \n\n",
    ),
    (
        "an inline part behind",
        b"\
commit refs/heads/main
committer T <t@e> 0 +0000
data 0
M 100644 c1b0730e0133447badcfd47fd144e254807b06e1 a
M 100644 inline b
data 1
x
",
        b"line 4: no content",
    ),
    (
        "an inline part of a file that is removed again",
        b"\
commit refs/heads/main
committer T <t@e> 0 +0000
data 0
M 100644 inline b
data 1
x
deleteall
M 100644 c1b0730e0133447badcfd47fd144e254807b06e1 a
",
        b"a=x \n\n",
    ),
    (
        "a path that is no text",
        b"\
blob
mark :1
data 1
x
commit refs/heads/main
committer T <t@e> 0 +0000
data 0
M 160000 1111111111111111111111111111111111111111 \"\\377\"
M 100644 :1 \"b\\303\\244\"
M 100644 :1 \"\\377\"
",
        b"line 10: no content",
    ),
    (
        "a mark comes before",
        b"\
commit refs/heads/main
committer T <t@e> 0 +0000
data 0
M 100644 :1 \"\\377\"
",
        b"line 4: bad mark",
    ),
    (
        "a path comes before",
        b"\
commit refs/heads/main
committer T <t@e> 0 +0000
data 0
M 100644 c1b0730e0133447badcfd47fd144e254807b06e1 a/
",
        b"line 4: bad path",
    ),
    (
        "a change comes before a later one",
        b"\
commit refs/heads/main
committer T <t@e> 0 +0000
data 0
M 100644 c1b0730e0133447badcfd47fd144e254807b06e1 a
M 100644 :1 b
",
        b"line 4: no content",
    ),
    (
        "a change before the limits, behind the targets",
        b"\
commit refs/heads/main
committer T <t@e> 0 +0000
data 0
from :1
M 100644 c1b0730e0133447badcfd47fd144e254807b06e1 a
",
        b"line 4: bad from",
    ),
];
