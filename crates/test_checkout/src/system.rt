//! Folders of the system: what stands in them, and that no path leads out of them.
use bf_checkout::{DirFolder, Folder, FolderFault, SystemFiles, TreesRefusal};
use bf_io::Bytes;
use bf_paths::{Path, PathFault, read_path};
use std::alloc::{AllocError, Global};
use std::fs;
use std::process::Abort;
use std::test::Fail;

/// Puts a file, and returns whether it then stands under the same path below the first folder, with its
/// bytes.
fn stands<R>(rt: &R, folder: &mut DirFolder<R>, path: &[u8], bytes: &[u8]) -> Result<bool, Fail>
where
    R: SystemFiles + Send,
{
    folder.put(&read_path(rt.alloc(), path)?, bytes)?;
    let text = std::str::from_utf8(path)?;
    let name = format!(in rt.alloc(); "bisect-trees/0/{text}")?;
    let found = fs::read(rt, name.as_str())?;
    Ok(found.as_slice() == bytes)
}

/// The path that a text with its number at the end writes.
fn numbered(alloc: Global, folder: &str, number: u32) -> Result<Path, Fail> {
    let text = format!(in alloc; "{folder}/{number}")?;
    Ok(read_path(alloc, text.as_bytes())?)
}

/// Names with spaces, tabs, quotes and umlauts, and files without bytes and with any.
fn has_odd_names<R>(rt: &R, folder: &mut DirFolder<R>) -> Result<(), Fail>
where
    R: SystemFiles + Send + Abort,
{
    folder.empty()?;
    for path in [
        b"with space".as_slice(),
        b"with\ttab",
        b"with\"quote'",
        b"b\xc3\xa4r",
        b" ",
        b"-",
        b"...",
        b"back\\slash",
    ] {
        assert!(rt; stands(rt, folder, path, b"\x00\xff\r\n")?);
    }
    assert!(rt; stands(rt, folder, b"empty", b"")?);
    Ok(())
}

/// A thousand files in a folder, and one that stands deep below it.
fn has_many_files<R>(rt: &R, folder: &mut DirFolder<R>) -> Result<(), Fail>
where
    R: SystemFiles + Send + Abort,
{
    folder.empty()?;
    for number in 0..1000 {
        folder.put(&numbered(rt.alloc(), "many", number)?, b"x")?;
    }
    assert!(rt; fs::exists(rt, "bisect-trees/0/many/0")?);
    assert!(rt; fs::exists(rt, "bisect-trees/0/many/999")?);
    let mut deep = Bytes::new(rt.alloc());
    for _ in 0..200 {
        deep.append(b"deep/")?;
    }
    deep.append(b"file")?;
    assert!(rt; stands(rt, folder, deep.as_slice(), b"y")?);
    Ok(())
}

/// A file that becomes a folder, and a file again.
fn turns_a_file_into_a_folder<R>(rt: &R, folder: &mut DirFolder<R>) -> Result<(), Fail>
where
    R: SystemFiles + Send + Abort,
{
    folder.empty()?;
    assert!(rt; !fs::exists(rt, "bisect-trees/0/many")?);
    assert!(rt; stands(rt, folder, b"turns", b"a file")?);
    folder.empty()?;
    assert!(rt; stands(rt, folder, b"turns/file", b"below")?);
    folder.empty()?;
    assert!(rt; stands(rt, folder, b"turns", b"a file")?);
    Ok(())
}

/// What a run left that was killed is gone; a link is removed, and not what it leads to.
fn empties_what_was_left<R>(rt: &R, folder: &mut DirFolder<R>) -> Result<(), Fail>
where
    R: SystemFiles + Send + Abort,
{
    fs::create_dir_all(rt, "outside")?;
    fs::write(rt, "outside/kept", b"kept".as_slice())?;
    fs::create_dir_all(rt, "bisect-trees/0/left")?;
    fs::write(rt, "bisect-trees/0/left/file", b"left".as_slice())?;
    rt.symlink("../../outside", "bisect-trees/0/link")?;
    folder.empty()?;
    assert!(rt; !fs::exists(rt, "bisect-trees/0/left")?);
    assert!(rt; stands(rt, folder, b"link/file", b"inside")?);
    fs::remove_dir_all(rt, "bisect-trees/0")?;
    rt.symlink("../outside", "bisect-trees/0")?;
    folder.empty()?;
    assert!(rt; stands(rt, folder, b"file", b"inside")?);
    assert!(rt; !fs::exists(rt, "outside/file")?);
    assert_eq!(rt;
        fs::read(rt, "outside/kept")?.as_slice(),
        b"kept".as_slice()
    );
    fs::remove_dir_all(rt, "outside")?;
    Ok(())
}

/// What a text that is no path is answered.
fn refusal(alloc: Global, text: &[u8]) -> Option<PathFault> {
    match read_path(alloc, text) {
        Ok(_) => None,
        Err(fault) => Some(fault),
    }
}

/// No text that leads out of a folder is a path.
fn has_no_way_out(rt: &impl Abort, alloc: Global) {
    for text in [
        b"..".as_slice(),
        b"../file",
        b"a/../../file",
        b"\"\\056\\056/file\"",
        b"/file",
        b"/",
        b"a//file",
        b"./file",
        b"file\x00",
        b"",
    ] {
        assert_eq!(rt; refusal(alloc, text), Some(PathFault::Bad));
    }
}

/// What the system refuses is a fault of the folder, and the next time it is emptied it is whole again.
fn fails_where_the_system_does<R>(rt: &R, folder: &mut DirFolder<R>) -> Result<(), Fail>
where
    R: SystemFiles + Send + Abort,
{
    let mut long = Bytes::new(rt.alloc());
    for _ in 0..300 {
        long.append(b"n")?;
    }
    folder.empty()?;
    let path = read_path(rt.alloc(), long.as_slice())?;
    assert_eq!(rt; folder.put(&path, b""), Err(FolderFault::Failed));
    let path = read_path(rt.alloc(), b"not/utf8/\xff")?;
    assert_eq!(rt; folder.put(&path, b""), Err(FolderFault::Failed));
    folder.empty()?;
    assert!(rt; stands(rt, folder, b"file", b"x")?);
    fs::remove_dir_all(rt, "bisect-trees/0")?;
    fs::write(rt, "bisect-trees/0", b"no folder".as_slice())?;
    folder.empty()?;
    assert!(rt; stands(rt, folder, b"file", b"x")?);
    Ok(())
}

/// A chain of folders, each in the one before, far deeper than a path may be long, with a file at each level.
fn makes_a_deep_chain<R>(rt: &R, levels: u32) -> Result<(), Fail>
where
    R: SystemFiles + Send,
{
    fs::create_dir(rt, "bisect-trees/0/chain")?;
    for _ in 0..levels {
        fs::create_dir(rt, "bisect-trees/0/above")?;
        fs::write(rt, "bisect-trees/0/above/file", b"x".as_slice())?;
        fs::rename(rt, "bisect-trees/0/chain", "bisect-trees/0/above/chain")?;
        fs::rename(rt, "bisect-trees/0/above", "bisect-trees/0/chain")?;
    }
    Ok(())
}

/// What is deep is emptied, also where a run was killed as it did so.
fn empties_what_is_deep<R>(rt: &R, folder: &mut DirFolder<R>) -> Result<(), Fail>
where
    R: SystemFiles + Send + Abort,
{
    folder.empty()?;
    makes_a_deep_chain(rt, 1500)?;
    fs::create_dir(rt, "bisect-trees/0.old")?;
    fs::rename(rt, "bisect-trees/0/chain", "bisect-trees/0.old/3")?;
    makes_a_deep_chain(rt, 1500)?;
    folder.empty()?;
    assert!(rt; !fs::exists(rt, "bisect-trees/0/chain")?);
    assert!(rt; !fs::exists(rt, "bisect-trees/0.old")?);
    assert!(rt; stands(rt, folder, b"chain", b"x")?);
    Ok(())
}

/// While a run has the folder, another one touches nothing there and says why; once it is free, the next one takes it.
fn is_held_by_one_run<R>(rt: &R, mut first: DirFolder<R>) -> Result<(), Fail>
where
    R: SystemFiles + Send + Abort,
{
    assert!(rt; stands(rt, &mut first, b"kept", b"x")?);
    let mut second = DirFolder::new(rt.clone()?, 7)?;
    let mut split = second.split()?;
    assert_eq!(rt; second.empty(), Err(FolderFault::Failed));
    assert_eq!(rt; split.empty(), Err(FolderFault::Failed));
    assert_eq!(rt; second.refusal(), Some(TreesRefusal::InUse));
    assert!(rt; fs::exists(rt, "bisect-trees/0/kept")?);
    assert!(rt; !fs::exists(rt, "bisect-trees/7")?);
    drop(first);
    let mut third = DirFolder::new(rt.clone()?, 8)?;
    third.empty()?;
    assert_eq!(rt; third.refusal(), None);
    assert!(rt; fs::exists(rt, "bisect-trees/8")?);
    assert!(rt; !fs::exists(rt, "bisect-trees/0")?);
    Ok(())
}

/// A folder that is renewed has another name, and what it left is removed; what is put there again is removed in the end.
fn goes_on_elsewhere<R>(rt: &R) -> Result<(), Fail>
where
    R: SystemFiles + Send + Abort,
{
    let mut folder = DirFolder::new(rt.clone()?, 20)?;
    let other = folder.split()?;
    folder.empty()?;
    fs::write(rt, "bisect-trees/20/late", b"x".as_slice())?;
    folder.renew();
    assert!(rt; fs::exists(rt, "bisect-trees/20/late")?);
    folder.empty()?;
    assert!(rt; !fs::exists(rt, "bisect-trees/20")?);
    let mut name = Bytes::new(rt.alloc());
    other.name(&mut name)?;
    assert_eq!(rt; name.as_slice(), b"bisect-trees/21".as_slice());
    name.clear();
    folder.name(&mut name)?;
    assert_eq!(rt; name.as_slice(), b"bisect-trees/22".as_slice());
    assert!(rt; fs::exists(rt, "bisect-trees/22")?);
    fs::create_dir_all(rt, "bisect-trees/20/again")?;
    assert!(rt; folder.remove_remains()?.is_empty());
    assert!(rt; !fs::exists(rt, "bisect-trees/20")?);
    assert!(rt; !fs::exists(rt, "bisect-trees/20.old")?);
    assert!(rt; fs::exists(rt, "bisect-trees/22")?);
    Ok(())
}

/// A folder is made where nothing has its name, and what earlier runs left is removed before.
fn takes_no_folder_of_others<R>(rt: &R) -> Result<(), Fail>
where
    R: SystemFiles + Send + Abort,
{
    fs::create_dir_all(rt, "bisect-trees/30/left")?;
    fs::create_dir_all(rt, "bisect-trees/31.old/0")?;
    fs::write(rt, "bisect-trees/notes", b"mine".as_slice())?;
    let mut folder = DirFolder::new(rt.clone()?, 30)?;
    folder.empty()?;
    assert!(rt; !fs::exists(rt, "bisect-trees/30/left")?);
    assert!(rt; !fs::exists(rt, "bisect-trees/31.old")?);
    assert!(rt; fs::exists(rt, "bisect-trees/notes")?);
    fs::create_dir(rt, "bisect-trees/31")?;
    folder.renew();
    assert_eq!(rt; folder.empty(), Err(FolderFault::Failed));
    Ok(())
}

/// What no run has made is left alone.
fn leaves_what_is_not_ours<R>(rt: &R) -> Result<(), Fail>
where
    R: SystemFiles + Send + Abort,
{
    fs::remove_dir_all(rt, "bisect-trees")?;
    fs::create_dir_all(rt, "bisect-trees/0")?;
    fs::write(rt, "bisect-trees/0/mine", b"x".as_slice())?;
    let mut folder = DirFolder::new(rt.clone()?, 0)?;
    assert_eq!(rt; folder.empty(), Err(FolderFault::Failed));
    assert_eq!(rt; folder.refusal(), Some(TreesRefusal::NotOurs));
    folder.renew();
    assert!(rt; folder.remove_remains()?.is_empty());
    assert!(rt; fs::exists(rt, "bisect-trees/0/mine")?);
    Ok(())
}

#[test]
fn a_folder_of_the_system_holds_its_files(rt: HostRuntime) -> Result<(), Fail> {
    let mut folder = DirFolder::new(rt, 0)?;
    has_odd_names(&rt, &mut folder)?;
    has_many_files(&rt, &mut folder)?;
    turns_a_file_into_a_folder(&rt, &mut folder)?;
    empties_what_was_left(&rt, &mut folder)?;
    has_no_way_out(&rt, rt.alloc());
    fails_where_the_system_does(&rt, &mut folder)?;
    empties_what_is_deep(&rt, &mut folder)?;
    is_held_by_one_run(&rt, folder)?;
    goes_on_elsewhere(&rt)?;
    takes_no_folder_of_others(&rt)?;
    leaves_what_is_not_ours(&rt)?;
    fs::remove_dir_all(&rt, "bisect-trees")?;
    Ok(())
}

/// The name of a folder.
fn name_of(alloc: Global, folder: &impl Folder) -> Result<Bytes, AllocError> {
    let mut name = Bytes::new(alloc);
    folder.name(&mut name)?;
    Ok(name)
}

#[test]
fn each_split_has_a_folder_of_its_own(rt: HostRuntime) -> Result<(), Fail> {
    let alloc = rt.alloc();
    let folder = DirFolder::new(rt, 0)?;
    let first = folder.split()?;
    let second = first.split()?;
    assert_eq!(rt;
        name_of(alloc, &folder)?.as_slice(),
        b"bisect-trees/0".as_slice()
    );
    assert_eq!(rt;
        name_of(alloc, &first)?.as_slice(),
        b"bisect-trees/1".as_slice()
    );
    assert_eq!(rt;
        name_of(alloc, &second)?.as_slice(),
        b"bisect-trees/2".as_slice()
    );
    Ok(())
}
