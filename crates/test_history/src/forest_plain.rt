//! Edits of whole lists of files, by their definition: what the pool makes of edits is compared with them.
ghost use Rattle.std.specs.Prelude.{◌<◌, length, IfOk};

use crate::forest::one_edit;
use bf_forest::*;
use bf_paths::Path;
use std::alloc::{AllocError, Global};
use std::process::Abort;
use std::test::Fail;

/// Whether a path is another one, or leads to it.
fn leads_to(path: &Path, other: &Path) -> bool {
    let (front, all) = (path.components(), other.components());
    front.len() <= all.len() && &all[..front.len()] == front
}

/// Whether a path comes before another in order of their bytes.
fn is_before(path: &Path, other: &Path) -> Result<bool, AllocError> {
    Ok(path.to_bytes()? < other.to_bytes()?)
}

/// Whether two lists have the same files.
fn are_same(files: &[FileEntry], others: &[FileEntry]) -> bool {
    files.len() == others.len()
        && files
            .iter()
            .zip(others)
            .all(|(file, other)| is_same_file(file, other))
}

fn is_same_file(file: &FileEntry, other: &FileEntry) -> bool {
    file.path.components() == other.path.components()
        && file.mode == other.mode
        && file.oid == other.oid
}

/// The files without those at a path or in the directory there.
fn outside(alloc: Global, files: &[FileEntry], path: &Path) -> Result<Vec<FileEntry>, AllocError> {
    let mut others = Vec::new(alloc);
    for file in files {
        if !leads_to(path, &file.path) {
            others.push(file.try_clone()?)?;
        }
    }
    Ok(others)
}

/// Adds the files on one side of a path, without those that are in the way of a file there.
fn push_side(
    others: &mut Vec<FileEntry>,
    files: &[FileEntry],
    path: &Path,
    before: bool,
) -> Result<(), AllocError> {
    for file in files {
        if leads_to(path, &file.path) || leads_to(&file.path, path) {
            continue;
        }
        if is_before(&file.path, path)? == before {
            others.push(file.try_clone()?)?;
        }
    }
    Ok(())
}

fn push_all(
    others: &mut Vec<FileEntry>,
    files: &[FileEntry],
    set: &FileEntry,
) -> Result<(), AllocError> {
    push_side(others, files, &set.path, true)?;
    others.push(set.try_clone()?)?;
    push_side(others, files, &set.path, false)
}

/// The files with one more, which takes the place of what is in its way.
fn with_file(
    alloc: Global,
    files: &[FileEntry],
    set: &FileEntry,
) -> Result<Vec<FileEntry>, AllocError> {
    let mut others = Vec::new(alloc);
    push_all(&mut others, files, set)?;
    Ok(others)
}

/// The files after an edit.
fn edited(alloc: Global, files: &[FileEntry], edit: &Edit) -> Result<Vec<FileEntry>, AllocError> {
    match edit {
        Edit::Clear => Ok(Vec::new(alloc)),
        Edit::Remove { path } => outside(alloc, files, path),
        Edit::Set { path, mode, oid } => {
            let path = path.try_clone()?;
            let (mode, oid) = (*mode, *oid);
            with_file(alloc, files, &FileEntry { path, mode, oid })
        }
    }
}

/// Paths with the contents that are set there, one after another; none: what is there is removed.
static EDITS: [(&[u8], Option<&[u8]>); 18] = [
    (b"a/b/c", Some(b"1")),
    (b"a/b/d", Some(b"2")),
    (b"a.b", Some(b"1")),
    (b"a/b/c", Some(b"3")),
    (b"a/b/c", Some(b"1")),
    (b"a0", Some(b"1")),
    (b"a/b", Some(b"4")),
    (b"a/b/c/d", Some(b"1")),
    (b"a/c", Some(b"1")),
    (b"a/b/c", None),
    (b"a/x/y", None),
    (b"z/z/z/z", Some(b"2")),
    (b"a", None),
    (b"z/z", Some(b"2")),
    (b"z/y", Some(b"2")),
    (b"z/z/z", None),
    (b"z", Some(b"1")),
    (b"z/z", None),
];

/// Asserts that a tree has these files.
fn has_files(
    rt: &impl Abort,
    forest: &Forest,
    tree: u32,
    files: &[FileEntry],
) -> Result<(), AllocError>
    requires { tree < length forest.now.trees }
{
    let made = forest.files(tree)?;
    assert!(rt; are_same(made.as_slice(), files));
    Ok(())
}

/// Edits the list of the files, edit by edit.
fn edit_list(files: &mut Vec<FileEntry>, edits: &[Edit]) -> Result<(), AllocError> {
    for edit in edits {
        *files = edited(*files.allocator(), files.as_slice(), edit)?;
    }
    Ok(())
}

/// The tree after edits; asserts that its files are the list of them, edited too.
fn edit_both(
    rt: &impl Abort,
    forest: &mut Forest,
    tree: u32,
    files: &mut Vec<FileEntry>,
    edits: &[Edit],
) -> Result<u32, Fail>
    requires { tree < length forest.old.trees }
    ensures { IfOk result (λ number. number < length forest.new.trees) }
{
    let tree = forest.apply(tree, edits)?;
    edit_list(files, edits)?;
    has_files(rt, forest, tree, files.as_slice())?;
    Ok(tree)
}

/// Asserts that the pool edits a tree as the list of its files is edited, edit by edit.
fn edits_as_a_list(
    rt: &impl Abort,
    alloc: Global,
    forest: &mut Forest,
    files: &mut Vec<FileEntry>,
) -> Result<(), Fail>
    requires { 0 < length forest.old.trees }
{
    let mut tree = 0;
    for (path, content) in &EDITS {
        let edits = one_edit(alloc, path, *content)?;
        tree = edit_both(rt, forest, tree, files, edits.as_slice())?;
    }
    Ok(())
}

#[test]
fn the_pool_edits_as_whole_lists_are_edited(rt: HostRuntime) -> Result<(), Fail> {
    let mut forest = Forest::new(rt.alloc(), 100)?;
    let mut files = Vec::new(rt.alloc());
    edits_as_a_list(&rt, rt.alloc(), &mut forest, &mut files)
}
