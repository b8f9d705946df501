//! The edits that the changes of a commit ask for.
ghost use Rattle.std.specs.Prelude.{◌≡◌, OnOk};
ghost use Rattle.bf_history.specs.Imports.{Means};
ghost use Rattle.bf_history.specs.Keeping.{edit_meant, edits_meant, kept_behind_all, kept_behind_change, kept_with_inline};
ghost use Rattle.bf_history.specs.Meanings.{content_named, blob_marked, is_module, path_at};
ghost use Rattle.bf_commits.specs.Inline.{IsNameOf};

use crate::contents::Contents;
use bf_forest::Edit;
use bf_grammar::{Change, Changes, DataRef};
use bf_history::{ImportFault, Marked};
use bf_oid::{Kind, Mode, Oid, object_name};
use bf_paths::{Path, PathFault, read_path};
use bf_tables::Marks;
use std::alloc::{AllocError, Global};

/// The edits of these changes, in order. The first change that is refused refuses them all: with
/// `BadMark` where its content is no blob of the stream, with `BadPath` where its path is none, and with
/// `NoContent` where contents are kept and its file lacks what it needs, each at the line of the change.
/// `NoMemory` comes where memory ran out, and no other error. The contents take what stands inline.
pub fn edits_of<C: Contents>(
    alloc: Global,
    marks: &Marks,
    contents: &mut C,
    changes: Changes,
) -> Result<Vec<Edit>, ImportFault>
    ensures edits { let kept = C.kept contents.old in
        Means (λ edits. edits.items) result (edits_meant kept marks.now changes) }
    ensures kept { OnOk result
        (C.kept contents.new ≡ kept_behind_all (C.kept contents.old) changes) }
{
    let mut edits = Vec::new(alloc);
    for change in changes.into_vec() {
        edits.push(edit_of(alloc, marks, contents, change)?)?;
    }
    Ok(edits)
}

/// The edit of a change. The content of a file is looked at before its path.
fn edit_of<C: Contents>(
    alloc: Global,
    marks: &Marks,
    contents: &mut C,
    change: Change,
) -> Result<Edit, ImportFault>
    ensures edit { Means (λ edit. edit) result (edit_meant (C.kept contents.old) marks.now change) }
    ensures kept { OnOk result
        (C.kept contents.new ≡ kept_behind_change (C.kept contents.old) change) }
{
    match change {
        Change::Modify {
            line,
            mode,
            dataref,
            path,
        } => {
            let oid = content_named(marks, line, mode, &dataref)?;
            let path = path_at(alloc, line, path.as_slice())?;
            if contents.lacks(mode, &dataref, &path) {
                return Err(ImportFault::NoContent { line });
            }
            add_inline(contents, oid, dataref)?;
            Ok(Edit::Set { path, mode, oid })
        }
        Change::Delete { line, path } => {
            let path = path_at(alloc, line, path.as_slice())?;
            Ok(Edit::Remove { path })
        }
        Change::DeleteAll { .. } => Ok(Edit::Clear),
    }
}
/// Adds the content of a file, of this name, where it stands inline behind the change.
fn add_inline<C: Contents>(contents: &mut C, name: Oid, content: DataRef) -> Result<(), AllocError>
    requires { IsNameOf name content }
    ensures { OnOk result
        (C.kept contents.new ≡ kept_with_inline (C.kept contents.old) content) }
{
    match content {
        DataRef::Inline(bytes) => contents.add(name, bytes),
        DataRef::Mark(_) | DataRef::Name(_) => Ok(()),
    }
}

/// The path that a text writes, in a change of this line.
#[tactic(auto, unfolding(bf_history::specs::Meanings::path_at))]
fn path_at(alloc: Global, line: u64, text: &[u8]) -> Result<Path, ImportFault>
    ensures { Means (λ path. path) result (path_at line text.now) }
{
    match read_path(alloc, text) {
        Ok(path) => Ok(path),
        Err(PathFault::Bad) => Err(ImportFault::BadPath { line }),
        Err(PathFault::NoMemory) => Err(ImportFault::NoMemory),
    }
}

/// The name of the content of a file, in a change of this line. That of a submodule has to be written
/// out.
#[tactic(auto, unfolding(bf_history::specs::Meanings::content_named))]
fn content_named(
    marks: &Marks,
    line: u64,
    mode: Mode,
    dataref: &DataRef,
) -> Result<Oid, ImportFault>
    ensures { result ≡ content_named marks.now line mode dataref.now }
{
    match dataref {
        DataRef::Name(name) => Ok(*name),
        _ if is_module(mode) => Err(ImportFault::BadMark { line }),
        DataRef::Mark(number) => blob_marked(line, marks.get(*number)),
        DataRef::Inline(content) => Ok(object_name(Kind::Blob, content.as_slice())),
    }
}

fn is_module(mode: Mode) -> bool
    ensures { result ≡ is_module mode }
{
    mode == Mode::Module
}

/// The name of the blob that a mark stands for.
fn blob_marked(line: u64, marked: Option<Marked>) -> Result<Oid, ImportFault>
    ensures { result ≡ blob_marked line marked }
{
    match marked {
        Some(Marked::Blob(name)) => Ok(name),
        _ => Err(ImportFault::BadMark { line }),
    }
}
