//! Commits that are tested in folders.
use crate::devices::{Call, disk_of, make_call, told};
use bf_io::PlainSink;
use bf_output::Status;
use bf_paths::read_path;
use std::test::Fail;

/// Four commits in a line with their files: the second sets `bug`, the third deletes `a`.
const FILES: &[u8] = b"blob
mark :1
data 1
x
commit refs/heads/main
mark :2
committer T <t@e> 0 +0000
data 2
c0
M 100644 :1 a
commit refs/heads/main
mark :3
committer T <t@e> 1 +0000
data 2
c1
M 100644 :1 bug
commit refs/heads/main
mark :4
committer T <t@e> 2 +0000
data 2
c2
D a
commit refs/heads/main
mark :5
committer T <t@e> 3 +0000
data 2
c3
M 100644 inline lib/z
data 1
y
";

/// What a search for `bug` prints.
const BUG_FOUND: &[u8] = b"# bad: [7c0c6575b096d0983788cb1df53789c5bd4eeaf2] c3
# good: [467207855193401d0c76f800276253541fc82543] c0
git bisect start '7c0c6575b096d0983788cb1df53789c5bd4eeaf2' '467207855193401d0c76f800276253541fc82543'
# bad: [52c8fde0f24c3e90827b81d1bd1ab29661c9c5d1] c1
git bisect bad 52c8fde0f24c3e90827b81d1bd1ab29661c9c5d1
# first bad commit: [52c8fde0f24c3e90827b81d1bd1ab29661c9c5d1] c1
52c8fde0f24c3e90827b81d1bd1ab29661c9c5d1 is the first bad commit
";

/// A search over them.
static SEARCH: [&[u8]; 6] = [b"checkout", b"run", b"main", b"main~3", b"--", b"t"];

/// A call of it, in a folder that fails at these calls.
fn search_in(fails: &[u64]) -> Call<'_> {
    Call {
        words: &SEARCH,
        stream: FILES,
        file: b"",
        rules: &[],
        folder: fails,
    }
}

#[test]
fn each_commit_is_tested_with_its_files(rt: HostRuntime) -> Result<(), Fail> {
    let alloc = rt.alloc();
    let mut out = PlainSink::new(alloc);
    let mut disk = disk_of(alloc, &[], None)?;
    let made = make_call(&rt, search_in(&[]), &mut disk, &mut out)?;
    assert_eq!(rt; made.status, Status::Done);
    assert_eq!(rt; out.bytes(), BUG_FOUND);
    for path in [b"a".as_slice(), b"bug"] {
        let path = read_path(alloc, path)?;
        assert_eq!(rt; made.shop.folder().get(&path), Some(b"x".as_slice()));
    }
    assert!(rt; !made.shop.folder().has(&read_path(alloc, b"lib/z")?));
    assert_eq!(rt; disk.calls(), 0);
    Ok(())
}

#[test]
fn a_file_without_its_content_is_refused(rt: HostRuntime) -> Result<(), Fail> {
    let stream = b"commit refs/heads/main
committer T <t@e> 0 +0000
data 2
c0
M 100644 ce013625030ba8dba906f756967f9e9ca394464a hello.txt
";
    let told = told(&rt, &SEARCH, stream, b"")?;
    assert_eq!(rt; told.0, Status::NoContent { line: 5 });
    assert_eq!(rt; told.1.as_slice(), b"no content at line 5\n".as_slice());
    Ok(())
}

// The one commit that is tested wants its folder emptied and two files put: three calls.
#[test]
fn each_call_of_the_folder_fails(rt: HostRuntime) -> Result<(), Fail> {
    let alloc = rt.alloc();
    for fails in 1..4 {
        let mut out = PlainSink::new(alloc);
        let mut disk = disk_of(alloc, &[], None)?;
        let made = make_call(&rt, search_in(&[fails]), &mut disk, &mut out)?;
        assert_eq!(rt; made.status, Status::TestFault { place: 1 }, "call {fails}");
        assert!(rt; is_cut(out.bytes()), "call {fails}");
    }
    Ok(())
}

/// Whether a text has the first lines of the log and then the line of the failed test.
fn is_cut(text: &[u8]) -> bool {
    let Some(log) = text.strip_suffix(b"test fault on 52c8fde0f24c3e90827b81d1bd1ab29661c9c5d1\n")
    else {
        return false;
    };
    BUG_FOUND.starts_with(log) && log.ends_with(b"'467207855193401d0c76f800276253541fc82543'\n")
}
