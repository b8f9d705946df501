//! Names that git gives commits, their subjects, and the edits of changes.
ghost use Rattle.std.specs.Prelude.{◌<◌, length, All};

use bf_commits::*;
use bf_forest::Edit;
use bf_grammar::{Change, Changes, DataRef, Header};
use bf_history::{ImportFault, Marked};
use bf_io::Bytes;
use bf_oid::{Kind, Mode, Oid, object_name, oid_from_hex, oid_hex};
use bf_paths::Path;
use bf_tables::Marks;
use std::alloc::{AllocError, Global};
use std::process::Abort;
use std::test::Fail;

fn hex(oid: Oid) -> [u8; 40] {
    let mut text = [0; 40];
    oid_hex(oid, &mut text);
    text
}

/// What a commit says, as texts.
#[derive(Clone, Copy)]
struct Texts<'a> {
    author: Option<&'a [u8]>,
    committer: &'a [u8],
    encoding: Option<&'a [u8]>,
    message: &'a [u8],
}

fn header(alloc: Global, texts: &Texts<'_>) -> Result<Header, AllocError> {
    Ok(Header {
        original: None,
        author: part(alloc, texts.author)?,
        committer: Bytes::from_slice(alloc, texts.committer)?,
        encoding: part(alloc, texts.encoding)?,
        message: Bytes::from_slice(alloc, texts.message)?,
    })
}

fn part(alloc: Global, text: Option<&[u8]>) -> Result<Option<Bytes>, AllocError> {
    match text {
        Some(text) => Ok(Some(Bytes::from_slice(alloc, text)?)),
        None => Ok(None),
    }
}

/// The name of a commit of this tree, whose parents are places among names.
fn named(
    alloc: Global,
    tree: Oid,
    parents: (&[u32], &[Oid]),
    texts: &Texts<'_>,
) -> Result<Oid, AllocError>
    requires { All (λ place. place < length parents.1.now) parents.0.now }
{
    commit_name(tree, parents.0, parents.1, &header(alloc, texts)?)
}

/// Asserts that a name is written so.
fn is_written(rt: &impl Abort, name: Oid, text: &[u8]) {
    assert_eq!(rt; hex(name).as_slice(), text);
}

/// The names of a root and of a commit that comes from it.
fn first_names(rt: &impl Abort, alloc: Global, tree: Oid) -> Result<[Oid; 2], AllocError> {
    let alone = Texts {
        author: None,
        committer: b"T <t@e> 0 +0000",
        encoding: None,
        message: b"c0",
    };
    let with_author = Texts {
        author: Some(b"A <a@e> 1 +0000"),
        committer: b"T <t@e> 2 +0100",
        encoding: None,
        message: b"second\n\nbody\n",
    };
    let first = named(alloc, tree, (&[], &[]), &alone)?;
    let second = named(alloc, tree, (&[0], &[first]), &with_author)?;
    is_written(rt, first, b"56b29d9c130e2ec4b506a48d4fe5a18d92d8d1e3");
    is_written(rt, second, b"5ad05c58e436ce810be1299b11a09d495189cd96");
    Ok([first, second])
}

/// Merges of the commits with these names.
fn merges_have_names(
    rt: &impl Abort,
    alloc: Global,
    names: &[Oid; 2],
    empty: Oid,
) -> Result<(), AllocError> {
    let with_a_file = oid_from_hex(b"aebda9dc3ba9fcf157d984e4875052d313f51a60").unwrap_or(Oid(
        [0; 20],
    ));
    let with_all = Texts {
        author: Some(b"A <a@e> 4 -0230"),
        committer: b"T <t@e> 5 +0000",
        encoding: Some(b"iso-8859-1"),
        message: b"\n\ncaf\xe9\nbody",
    };
    let without_message = Texts {
        author: None,
        committer: b"T <t@e> 3 +0000",
        encoding: Some(b"iso-8859-1"),
        message: b"",
    };
    let third = named(alloc, with_a_file, (&[0, 1], names), &with_all)?;
    let fourth = named(alloc, empty, (&[1, 0, 0], names), &without_message)?;
    is_written(rt, third, b"518083ea711e1d89df20a84cb9776b0f9ef4eead");
    is_written(rt, fourth, b"30a452e60c5bafad94008e7ace41d9dc3314d9ef");
    Ok(())
}

#[test]
fn commits_have_the_names_of_git(rt: HostRuntime) -> Result<(), Fail> {
    let empty = object_name(Kind::Tree, b"");
    let names = first_names(&rt, rt.alloc(), empty)?;
    merges_have_names(&rt, rt.alloc(), &names, empty)?;
    Ok(())
}

/// Asserts that a commit with this message has this subject.
fn is_subject(
    rt: &impl Abort,
    alloc: Global,
    message: &[u8],
    subject: &[u8],
) -> Result<(), AllocError> {
    let found = into_subject(Bytes::from_slice(alloc, message)?)?;
    assert_eq!(rt; found.as_slice(), subject);
    Ok(())
}

#[test]
fn subjects_are_the_first_lines_with_a_byte(rt: HostRuntime) -> Result<(), Fail> {
    let table: [(&[u8], &[u8]); 9] = [
        (b"c0", b"c0"),
        (b"c0\n", b"c0"),
        (b"\n\nfirst\nsecond\n", b"first"),
        (b"first\nbehind it 15 b", b"first"),
        (b"first\nbehind it 16 by", b"first"),
        (b" \nx\n", b" "),
        (b"a\r\nb", b"a\r"),
        (b"\n\n", b""),
        (b"", b""),
    ];
    for (message, subject) in table {
        is_subject(&rt, rt.alloc(), message, subject)?;
    }
    Ok(())
}

fn set_some(marks: &mut Marks) -> Result<(), AllocError> {
    marks.set(1, Marked::Blob(object_name(Kind::Blob, b"hello\n")))?;
    marks.set(2, Marked::Commit(0))?;
    marks.set(3, Marked::Tag)
}

/// The marks of a blob, a commit and a tag.
fn marks(alloc: Global) -> Result<Marks, AllocError> {
    let mut marks = Marks::new(alloc);
    set_some(&mut marks)?;
    Ok(marks)
}

/// Adds a change that sets a file.
fn push_file(
    alloc: Global,
    changes: &mut Changes,
    mode: Mode,
    dataref: DataRef,
    path: &[u8],
) -> Result<(), AllocError> {
    let path = Bytes::from_slice(alloc, path)?;
    changes.push(Change::Modify {
        line: 7,
        mode,
        dataref,
        path,
    })
}

fn word_of(mode: Mode) -> &'static [u8] {
    match mode {
        Mode::Plain => b"plain ",
        Mode::Exec => b"exec ",
        Mode::Link => b"link ",
        Mode::Module => b"module ",
    }
}

fn put_path(out: &mut Bytes, path: &Path) -> Result<(), AllocError> {
    out.append(path.to_bytes()?.as_slice())
}

/// Adds what an edit does, as a line.
fn put_edit(out: &mut Bytes, edit: &Edit) -> Result<(), AllocError> {
    match edit {
        Edit::Set { path, mode, oid } => {
            out.append(word_of(*mode))?;
            out.append(&hex(*oid))?;
            out.append(b" ")?;
            put_path(out, path)?;
        }
        Edit::Remove { path } => {
            out.append(b"remove ")?;
            put_path(out, path)?;
        }
        Edit::Clear => out.append(b"clear")?,
    }
    out.append(b"\n")
}

/// Adds removals, and files with each kind of content.
fn push_some(alloc: Global, changes: &mut Changes) -> Result<(), AllocError> {
    changes.push(Change::DeleteAll { line: 4 })?;
    push_file(alloc, changes, Mode::Plain, DataRef::Mark(1), b"a")?;
    let inline = DataRef::Inline(Bytes::from_slice(alloc, b"x")?);
    push_file(alloc, changes, Mode::Exec, inline, b"\"b\\tc\"")?;
    let module = DataRef::Name(Oid([0x2a; 20]));
    push_file(alloc, changes, Mode::Module, module, b"lib/d")?;
    let path = Bytes::from_slice(alloc, b"a")?;
    changes.push(Change::Delete { line: 9, path })
}

/// What edits do, each on its line.
fn listing(alloc: Global, edits: &[Edit]) -> Result<Bytes, AllocError> {
    let mut text = Bytes::new(alloc);
    for edit in edits {
        put_edit(&mut text, edit)?;
    }
    Ok(text)
}

fn become_edits(
    rt: &impl Abort,
    alloc: Global,
    marks: &Marks,
    changes: Changes,
) -> Result<(), Fail> {
    let edits = edits_of(alloc, marks, &mut LetGo, changes)?;
    assert_eq!(rt;
        listing(alloc, edits.as_slice())?.as_slice(),
        b"clear
plain ce013625030ba8dba906f756967f9e9ca394464a a
exec c1b0730e0133447badcfd47fd144e254807b06e1 b\tc
module 2a2a2a2a2a2a2a2a2a2a2a2a2a2a2a2a2a2a2a2a lib/d
remove a
"
            .as_slice()
    );
    Ok(())
}

#[test]
fn changes_become_edits_in_order(rt: HostRuntime) -> Result<(), Fail> {
    let marks = marks(rt.alloc())?;
    let mut changes = Changes::new(rt.alloc());
    push_some(rt.alloc(), &mut changes)?;
    become_edits(&rt, rt.alloc(), &marks, changes)
}

/// The fault of a change that sets a file, if it has one.
fn fault_of(
    alloc: Global,
    marks: &Marks,
    mode: Mode,
    dataref: DataRef,
    path: &[u8],
) -> Result<Option<ImportFault>, AllocError> {
    let mut changes = Changes::new(alloc);
    push_file(alloc, &mut changes, mode, dataref, path)?;
    Ok(edits_of(alloc, marks, &mut LetGo, changes).err())
}

fn are_refused(rt: &impl Abort, alloc: Global, marks: &Marks) -> Result<(), AllocError> {
    let bad_mark = Some(ImportFault::BadMark { line: 7 });
    let bad_path = Some(ImportFault::BadPath { line: 7 });
    let table: [(Mode, u64, &[u8], Option<ImportFault>); 6] = [
        (Mode::Plain, 1, b"a", None),
        (Mode::Plain, 1, b"a/", bad_path),
        (Mode::Plain, 2, b"a/", bad_mark),
        (Mode::Exec, 3, b"a", bad_mark),
        (Mode::Link, 4, b"a", bad_mark),
        (Mode::Module, 1, b"a", bad_mark),
    ];
    for (mode, mark, path, fault) in table {
        let dataref = DataRef::Mark(mark);
        assert_eq!(rt; fault_of(alloc, marks, mode, dataref, path)?, fault);
    }
    let inline = DataRef::Inline(Bytes::new(alloc));
    assert_eq!(rt;
        fault_of(alloc, marks, Mode::Module, inline, b"a")?,
        bad_mark
    );
    Ok(())
}

#[test]
fn contents_are_refused_before_paths(rt: HostRuntime) -> Result<(), Fail> {
    let marks = marks(rt.alloc())?;
    are_refused(&rt, rt.alloc(), &marks)?;
    Ok(())
}
