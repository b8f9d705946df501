//! Names that git gives to trees, files after edits, and the limit on entries. What a function owns is dropped on each
//! of its ways out, and each drop is a step of its proof: so a test owns its forest, and lends it to what has many ways.
ghost use Rattle.std.specs.Prelude.{◌<◌, length, IfOk};

use bf_forest::*;
use bf_io::Bytes;
use bf_oid::{Kind, Mode, Oid, object_name, oid_from_hex, oid_hex};
use bf_paths::{PathFault, read_path};
use std::alloc::{AllocError, Global};
use std::process::Abort;
use std::test::Fail;

/// An edit that sets a plain file with this content, or that removes what stands at the path.
fn edit(alloc: Global, path: &[u8], content: Option<&[u8]>) -> Result<Edit, PathFault> {
    let path = read_path(alloc, path)?;
    Ok(match content {
        Some(content) => Edit::Set {
            path,
            mode: Mode::Plain,
            oid: object_name(Kind::Blob, content),
        },
        None => Edit::Remove { path },
    })
}

/// One edit, as a list.
pub(crate) fn one_edit(
    alloc: Global,
    path: &[u8],
    content: Option<&[u8]>,
) -> Result<Vec<Edit>, PathFault> {
    let mut edits = Vec::new(alloc);
    edits.push(edit(alloc, path, content)?)?;
    Ok(edits)
}

fn hex(oid: Oid) -> [u8; 40] {
    let mut text = [0; 40];
    oid_hex(oid, &mut text);
    text
}

/// The texts of the paths, one after another, each behind a space.
fn listing(alloc: Global, files: &[FileEntry]) -> Result<Bytes, AllocError> {
    let mut text = Bytes::new(alloc);
    for file in files {
        text.push(b' ')?;
        text.append(file.path.to_bytes()?.as_slice())?;
    }
    Ok(text)
}

/// Asserts that git gives a tree this name.
fn is_named(rt: &impl Abort, forest: &Forest, tree: u32, name: &[u8])
    requires { tree < length forest.now.trees }
{
    assert_eq!(rt; hex(forest.name(tree)).as_slice(), name);
}

/// Asserts that a tree has these files.
fn has_files(rt: &impl Abort, forest: &Forest, tree: u32, paths: &[u8]) -> Result<(), Fail>
    requires { tree < length forest.now.trees }
{
    let files = forest.files(tree)?;
    let listing = listing(*files.allocator(), files.as_slice())?;
    assert_eq!(rt; listing.as_slice(), paths);
    Ok(())
}

/// The tree after one edit of a file.
fn edited(
    alloc: Global,
    forest: &mut Forest,
    tree: u32,
    path: &[u8],
    content: Option<&[u8]>,
) -> Result<u32, Fail>
    requires { tree < length forest.old.trees }
    ensures { IfOk result (λ number. number < length forest.new.trees) }
{
    let edits = one_edit(alloc, path, content)?;
    let tree = forest.apply(tree, edits.as_slice())?;
    Ok(tree)
}

fn are_named_one_by_one(rt: &impl Abort, alloc: Global, forest: &mut Forest) -> Result<(), Fail>
    requires { 0 < length forest.old.trees }
{
    let steps: [(&[u8], Option<&[u8]>, &[u8]); 9] = [
        (
            b"a",
            Some(b"x"),
            b"aebda9dc3ba9fcf157d984e4875052d313f51a60",
        ),
        (
            b"bug",
            Some(b"x"),
            b"a3c93856b286f30a62a0c9675a83fe3216fc1c94",
        ),
        (b"a", None, b"66ce980d49c7c3b45957889ab9f5ea98fcd42ea6"),
        (
            b"lib/z",
            Some(b"y"),
            b"aeb2cd470624a7d97a00425875e58938f5a74b30",
        ),
        (
            b"missing/z",
            None,
            b"aeb2cd470624a7d97a00425875e58938f5a74b30",
        ),
        (b"lib", None, b"66ce980d49c7c3b45957889ab9f5ea98fcd42ea6"),
        (b"bug", None, b"4b825dc642cb6eb9a060e54bf8d69288fbee4904"),
        (
            b"a/b/c",
            Some(b"x"),
            b"343bad08e73b3ccecb3152b8affac5f39c45377b",
        ),
        (
            b"a",
            Some(b"x"),
            b"aebda9dc3ba9fcf157d984e4875052d313f51a60",
        ),
    ];
    let mut tree = 0;
    for (path, content, name) in steps {
        tree = edited(alloc, forest, tree, path, content)?;
        is_named(rt, forest, tree, name);
    }
    Ok(())
}

#[test]
fn trees_have_the_names_of_git(rt: HostRuntime) -> Result<(), Fail> {
    let mut forest = Forest::new(rt.alloc(), 100)?;
    are_named_one_by_one(&rt, rt.alloc(), &mut forest)
}

/// Edits that set files.
fn sets(alloc: Global, files: &[(&[u8], Mode, Oid)]) -> Result<Vec<Edit>, PathFault> {
    let mut edits = Vec::new(alloc);
    for (path, mode, oid) in files {
        let path = read_path(alloc, path)?;
        edits.push(Edit::Set {
            path,
            mode: *mode,
            oid: *oid,
        })?;
    }
    Ok(edits)
}

/// The tree after edits that set files.
fn with_files(
    alloc: Global,
    forest: &mut Forest,
    tree: u32,
    files: &[(&[u8], Mode, Oid)],
) -> Result<u32, Fail>
    requires { tree < length forest.old.trees }
    ensures { IfOk result (λ number. number < length forest.new.trees) }
{
    let edits = sets(alloc, files)?;
    let tree = forest.apply(tree, edits.as_slice())?;
    Ok(tree)
}

/// A tree with a file of each mode.
fn first_tree(rt: &impl Abort, alloc: Global, forest: &mut Forest) -> Result<u32, Fail>
    requires { 0 < length forest.old.trees }
    ensures { IfOk result (λ number. number < length forest.new.trees) }
{
    let empty = object_name(Kind::Blob, b"");
    let module = oid_from_hex(b"1111111111111111111111111111111111111111").unwrap_or(empty);
    let files: [(&[u8], Mode, Oid); 3] = [
        (
            b"hello.txt",
            Mode::Plain,
            object_name(Kind::Blob, b"hello\n"),
        ),
        (b"\"tools/b\\303\\244r.sh\"", Mode::Exec, empty),
        (b"lib/ext", Mode::Module, module),
    ];
    let tree = with_files(alloc, forest, 0, &files)?;
    is_named(
        rt,
        forest,
        tree,
        b"18b0f3ea1c000c8f67230a3eef19fc4a30ff98d4",
    );
    Ok(tree)
}

fn modes_are_named(rt: &impl Abort, alloc: Global, forest: &mut Forest) -> Result<(), Fail>
    requires { 0 < length forest.old.trees }
{
    let first = first_tree(rt, alloc, forest)?;
    let topic = edited(alloc, forest, first, b"hello.txt", None)?;
    is_named(
        rt,
        forest,
        topic,
        b"8f74371771cbb67d005cd61b80db3899787a79e9",
    );
    let link: [(&[u8], Mode, Oid); 1] = [(b"link", Mode::Link, object_name(Kind::Blob, b""))];
    let merge = with_files(alloc, forest, topic, &link)?;
    is_named(
        rt,
        forest,
        merge,
        b"74751b966f3c806accf910b32fc7c36d55631d6f",
    );
    Ok(())
}

#[test]
fn modes_are_those_of_git(rt: HostRuntime) -> Result<(), Fail> {
    let mut forest = Forest::new(rt.alloc(), 100)?;
    modes_are_named(&rt, rt.alloc(), &mut forest)
}

fn directories_come_behind(rt: &impl Abort, alloc: Global, forest: &mut Forest) -> Result<(), Fail>
    requires { 0 < length forest.old.trees }
{
    let content = object_name(Kind::Blob, b"x");
    let files: [(&[u8], Mode, Oid); 2] = [
        (b"a/x", Mode::Plain, content),
        (b"a.b", Mode::Plain, content),
    ];
    let tree = with_files(alloc, forest, 0, &files)?;
    is_named(
        rt,
        forest,
        tree,
        b"88c054a6bbc12c6e95c38cc47d57fd9fc4ce5bc1",
    );
    has_files(rt, forest, tree, b" a.b a/x")
}

#[test]
fn a_directory_is_ordered_as_if_its_name_ended_with_a_slash(rt: HostRuntime) -> Result<(), Fail> {
    let mut forest = Forest::new(rt.alloc(), 100)?;
    directories_come_behind(&rt, rt.alloc(), &mut forest)
}

fn clear_removes(rt: &impl Abort, alloc: Global, forest: &mut Forest) -> Result<(), Fail>
    requires { 0 < length forest.old.trees }
{
    let edits = vec![in alloc; edit(alloc, b"a/x", Some(b"x"))?, Edit::Clear]?;
    assert_eq!(rt; forest.apply(0, edits.as_slice()), Ok(0));
    Ok(())
}

#[test]
fn clear_removes_all_files(rt: HostRuntime) -> Result<(), Fail> {
    let mut forest = Forest::new(rt.alloc(), 100)?;
    clear_removes(&rt, rt.alloc(), &mut forest)
}

/// Asserts that no more file joins a tree.
fn is_full(rt: &impl Abort, alloc: Global, forest: &mut Forest, tree: u32) -> Result<(), Fail>
    requires { tree < length forest.old.trees }
    ensures { tree < length forest.new.trees }
{
    let more = one_edit(alloc, b"d", Some(b"x"))?;
    assert_eq!(rt;
        forest.apply(tree, more.as_slice()),
        Err(ForestFault::TooMany)
    );
    Ok(())
}

fn joins_up_to_the_limit(rt: &impl Abort, alloc: Global, forest: &mut Forest) -> Result<(), Fail>
    requires { 0 < length forest.old.trees }
{
    let both: [(&[u8], Mode, Oid); 2] = [
        (b"a/b", Mode::Plain, object_name(Kind::Blob, b"x")),
        (b"c", Mode::Plain, object_name(Kind::Blob, b"x")),
    ];
    let tree = with_files(alloc, forest, 0, &both)?;
    is_full(rt, alloc, forest, tree)?;
    has_files(rt, forest, tree, b" a/b c")
}

#[test]
fn a_tree_above_the_limit_does_not_join(rt: HostRuntime) -> Result<(), Fail> {
    let mut forest = Forest::new(rt.alloc(), 3)?;
    joins_up_to_the_limit(&rt, rt.alloc(), &mut forest)
}

/// A path of 3,001 components.
fn deep_path(alloc: Global) -> Result<Bytes, AllocError> {
    let mut text = Bytes::new(alloc);
    for _ in 0..3_000 {
        text.append(b"d/")?;
    }
    text.push(b'f')?;
    Ok(text)
}

/// Asserts that the only file of a tree is at this path.
fn has_file(rt: &impl Abort, forest: &Forest, tree: u32, path: &[u8]) -> Result<(), Fail>
    requires { tree < length forest.now.trees }
{
    let files = forest.files(tree)?;
    assert_eq!(rt; files.len(), 1);
    assert_eq!(rt; files[0].path.to_bytes()?.as_slice(), path);
    Ok(())
}

fn is_given_back(
    rt: &impl Abort,
    alloc: Global,
    forest: &mut Forest,
    path: &[u8],
) -> Result<(), Fail>
    requires { 0 < length forest.old.trees }
{
    let tree = edited(alloc, forest, 0, path, Some(b"x"))?;
    has_file(rt, forest, tree, path)
}

#[test]
fn a_deep_path_is_given_back(rt: HostRuntime) -> Result<(), Fail> {
    let path = deep_path(rt.alloc())?;
    let mut forest = Forest::new(rt.alloc(), 4_000)?;
    is_given_back(&rt, rt.alloc(), &mut forest, path.as_slice())
}
