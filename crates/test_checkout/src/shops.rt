//! Tests in folders in memory.
ghost use Rattle.std.specs.Prelude.{◌≡◌, [], false, IfOk};

use crate::contents::{content, modes};
use bf_checkout::{Folder, FolderFault, LookTester, MemFolder, Workshop};
use bf_import::Content;
use bf_io::{Bytes, Word};
use bf_oid::Oid;
use bf_paths::{PathFault, read_path};
use bf_search::Outcome;
use bf_tester::{ProcessTester, StopView, TestReply, Tester};
use std::alloc::{AllocError, Global};
use std::process::{Processes, SystemProcess};
use std::sync::{Arc, Wait};
use std::test::Fail;
use std::thread::Threads;
use std::time::Clock;

const NAME: Oid = Oid([7; 20]);

/// A workshop that looks for `d/bug`, over a folder that fails at these calls.
fn shop(alloc: Global, fails: Vec<u64>) -> Result<Workshop<LookTester, MemFolder>, Fail>
    ensures { IfOk result
        (λ shop. ⟦<Workshop<LookTester, MemFolder> as Tester>⟧.answers shop ≡ []) }
{
    let tester = LookTester::new(alloc, read_path(alloc, b"d/bug")?);
    let folder = MemFolder::new(alloc, fails);
    let content = Arc::new(alloc, content(alloc, modes())?)?;
    Ok(Workshop::new(tester, folder, content))
}

/// The reply to a test that no flag withdraws.
fn reply<R, T>(rt: &R, tester: &mut T, place: u32) -> TestReply
where
    R: Threads + Wait + Processes<Started = SystemProcess> + Clock + Eprint + Sync,
    T: Tester,
    ensures command { T.command tester.new ≡ T.command tester.old }
    ensures is_lenient { T.is_lenient tester.new ≡ T.is_lenient tester.old }
    ensures grounds { T.grounds tester.new ≡ T.grounds tester.old }
    ensures recalled { T.recalled tester.new ≡ T.recalled tester.old }
{
    tester.test(rt, place, NAME, &mut StopView::none())
}

/// Whether a folder has a file of these bytes at a path.
fn has(alloc: Global, folder: &MemFolder, path: &[u8], bytes: &[u8]) -> Result<bool, PathFault> {
    let path = read_path(alloc, path)?;
    Ok(folder.get(&path) == Some(bytes))
}

#[test]
fn a_commit_is_tested_in_a_folder_with_its_files(rt: HostRuntime) -> Result<(), Fail> {
    let alloc = rt.alloc();
    let mut shop = shop(alloc, Vec::new(alloc))?;
    assert_eq!(rt; reply(&rt, &mut shop, 1), TestReply::Done(Outcome::Exit(1)));
    assert!(rt; has(alloc, shop.folder(), b"a", b"x")?);
    assert!(rt; has(alloc, shop.folder(), b"d/bug", b"y")?);
    assert_eq!(rt; reply(&rt, &mut shop, 2), TestReply::Done(Outcome::Exit(0)));
    assert!(rt; has(alloc, shop.folder(), b"a", b"y")?);
    assert!(rt; !shop.folder().has(&read_path(alloc, b"d/bug")?));
    assert!(rt; !shop.folder().has(&read_path(alloc, b"bug")?));
    Ok(())
}

#[test]
fn past_the_last_place_the_folder_is_empty(rt: HostRuntime) -> Result<(), Fail> {
    let alloc = rt.alloc();
    let mut shop = shop(alloc, Vec::new(alloc))?;
    assert_eq!(rt; reply(&rt, &mut shop, 9), TestReply::Done(Outcome::Exit(0)));
    assert!(rt; !shop.folder().has(&read_path(alloc, b"a")?));
    Ok(())
}

#[test]
fn a_folder_that_fails_fails_the_test(rt: HostRuntime) -> Result<(), Fail> {
    let alloc = rt.alloc();
    let mut shop = shop(alloc, [2, 4].to_vec(alloc)?)?;
    assert_eq!(rt; reply(&rt, &mut shop, 1), TestReply::Failed);
    assert_eq!(rt; reply(&rt, &mut shop, 1), TestReply::Failed);
    assert_eq!(rt; reply(&rt, &mut shop, 1), TestReply::Done(Outcome::Exit(1)));
    assert!(rt; shop.answer(0).is_some());
    assert!(rt; shop.answer(1).is_none());
    Ok(())
}

#[test]
fn a_folder_in_memory_fails_at_its_calls(rt: HostRuntime) -> Result<(), Fail> {
    let alloc = rt.alloc();
    let mut folder = MemFolder::new(alloc, [2].to_vec(alloc)?);
    let mut name = Bytes::new(alloc);
    folder.name(&mut name)?;
    assert_eq!(rt; name.as_slice(), b"mem".as_slice());
    assert_eq!(rt; folder.empty(), Ok(()));
    assert_eq!(rt; folder.empty(), Err(FolderFault::Failed));
    assert_eq!(rt; folder.empty(), Ok(()));
    Ok(())
}

#[test]
fn the_answers_of_a_split_come_home(rt: HostRuntime) -> Result<(), Fail> {
    let alloc = rt.alloc();
    let mut shop = shop(alloc, Vec::new(alloc))?;
    let mut other = shop.split()?;
    assert_eq!(rt;
        reply(&rt, &mut other, 1),
        TestReply::Done(Outcome::Exit(1))
    );
    assert!(rt; shop.answer(0).is_none());
    assert!(rt; shop.absorb(other).is_ok());
    assert!(rt; shop.answer(0).is_some());
    Ok(())
}

#[test]
fn a_workshop_is_furnished_anew(rt: HostRuntime) -> Result<(), Fail> {
    let alloc = rt.alloc();
    let tester = LookTester::new(alloc, read_path(alloc, b"d/bug")?);
    let folder = MemFolder::new(alloc, Vec::new(alloc));
    let none = Arc::new(alloc, Content::empty(alloc)?)?;
    let mut shop = Workshop::new(tester, folder, none);
    shop.furnish(Arc::new(alloc, content(alloc, modes())?)?);
    assert_eq!(rt; reply(&rt, &mut shop, 1), TestReply::Done(Outcome::Exit(1)));
    Ok(())
}

#[test]
fn without_a_folder_a_commit_is_good(rt: HostRuntime) -> Result<(), Fail> {
    let alloc = rt.alloc();
    let mut tester = LookTester::new(alloc, read_path(alloc, b"a")?);
    assert_eq!(rt;
        reply(&rt, &mut tester, 1),
        TestReply::Done(Outcome::Exit(0))
    );
    Ok(())
}

/// The words of a command that ends well where its last two arguments are a folder and the commit.
fn comparing(alloc: Global) -> Result<Vec<Word>, AllocError> {
    let script = b"test \"$1 $2\" = \"mem 0707070707070707070707070707070707070707\"";
    let mut words = Vec::new(alloc);
    for word in [b"sh".as_slice(), b"-c", script, b"x"] {
        words.push(Bytes::from_slice(alloc, word)?)?;
    }
    Ok(words)
}

#[test]
fn a_command_gets_its_folder_and_its_commit(rt: HostRuntime) -> Result<(), Fail> {
    let alloc = rt.alloc();
    let content = Arc::new(alloc, content(alloc, modes())?)?;
    let folder = MemFolder::new(alloc, Vec::new(alloc));
    let mut shop = Workshop::new(ProcessTester::new(alloc).silent(), folder, content);
    shop.prepare(comparing(alloc)?.as_slice(), false)?;
    assert_eq!(rt; reply(&rt, &mut shop, 1), TestReply::Done(Outcome::Exit(0)));
    assert!(rt; shop.answer(0).is_some());
    Ok(())
}

#[test]
fn a_renewed_folder_in_memory_has_no_files(rt: HostRuntime) -> Result<(), Fail> {
    let alloc = rt.alloc();
    let mut folder = MemFolder::new(alloc, Vec::new(alloc));
    let path = read_path(alloc, b"a")?;
    folder.put(&path, b"x")?;
    assert!(rt; folder.has(&path));
    folder.renew();
    assert!(rt; !folder.has(&path));
    Ok(())
}
