//! Calls of the program with all of its devices in memory.
ghost use Rattle.std.specs.Prelude.{◌≡◌, [], false, IfOk};

use bf_checkout::{LookTester, MemFolder, Workshop};
use bf_farmed::farm_main;
use bf_import::Content;
use bf_io::{Bytes, PlainShelf, PlainSink, PlainSource, ShelfFile, Sink, Word};
use bf_journal::{MemDisk, Recall};
use bf_output::Status;
use bf_paths::read_path;
use bf_tester::{FailRule, ScriptTester, Tester};
use std::alloc::{AllocError, Global};
use std::process::{Processes, SystemProcess};
use std::sync::{Arc, Wait};
use std::test::Fail;
use std::thread::Threads;
use std::time::Clock;

/// What a call is given beside its disk and its sink. Its tester finds commits from the fifth on bad, its workshop those
/// that have the file `bug`, and its shelf has one file, named `file`.
#[derive(Clone, Copy)]
pub(crate) struct Call<'a> {
    pub words: &'a [&'a [u8]],
    pub stream: &'a [u8],
    pub file: &'a [u8],
    /// The rules by which tests fail.
    pub rules: &'a [FailRule],
    /// The calls of the folder that fail, counted from 1.
    pub folder: &'a [u64],
}

/// What a call answers, with the tester and the workshop as it leaves them.
#[derive(Drop)]
pub(crate) struct Made {
    pub status: Status,
    pub tester: Recall<ScriptTester>,
    pub shop: Workshop<LookTester, MemFolder>,
}

/// Texts as words.
fn words_of(alloc: Global, texts: &[&[u8]]) -> Result<Vec<Word>, AllocError> {
    let mut words = Vec::new(alloc);
    for text in texts {
        words.push(Bytes::from_slice(alloc, text)?)?;
    }
    Ok(words)
}

/// A shelf with one file, named `file`.
fn shelf_of(alloc: Global, file: &[u8]) -> Result<PlainShelf, AllocError> {
    let mut files = Vec::new(alloc);
    files.push(ShelfFile {
        name: Bytes::from_slice(alloc, b"file")?,
        bytes: Bytes::from_slice(alloc, file)?,
    })?;
    Ok(PlainShelf::new(files))
}

/// A tester that remembers nothing so far, and finds commits from the fifth on bad.
fn tester_of(alloc: Global, rules: &[FailRule]) -> Result<Recall<ScriptTester>, AllocError>
    ensures answers { IfOk result (λ t. t.answers ≡ []) }
    ensures remembered { IfOk result (λ t. t.remembered ≡ []) }
    ensures whole { IfOk result (λ t. ⟦<ScriptTester as Tester>⟧.is_split t.inner ≡ false) }
{
    let tester = ScriptTester::new(alloc, b"ggggbbbb", rules.to_vec(alloc)?, None)?;
    Ok(Recall::new(alloc, tester))
}

/// A workshop that looks for the file `bug`, in a folder that fails at these calls.
fn shop_of(alloc: Global, fails: &[u64]) -> Result<Workshop<LookTester, MemFolder>, Fail>
    ensures answers { IfOk result (λ s. ⟦<LookTester as Tester>⟧.answers s.tester ≡ []) }
    ensures whole { IfOk result (λ s. ⟦<LookTester as Tester>⟧.is_split s.tester ≡ false) }
{
    let tester = LookTester::new(alloc, read_path(alloc, b"bug")?);
    let folder = MemFolder::new(alloc, fails.to_vec(alloc)?);
    Ok(Workshop::new(tester, folder, Arc::new(alloc, Content::empty(alloc)?)?))
}

/// A disk with these bytes, which stops after so many calls where a number is given.
pub(crate) fn disk_of(
    alloc: Global,
    bytes: &[u8],
    stop: Option<u64>,
) -> Result<MemDisk, AllocError> {
    Ok(MemDisk::new(Bytes::from_slice(alloc, bytes)?, Vec::new(alloc), stop))
}

/// A call over a disk, which writes to a sink.
pub(crate) fn make_call<R, K: Sink>(
    rt: &R,
    call: Call<'_>,
    disk: &mut MemDisk,
    out: &mut K,
) -> Result<Made, Fail>
where
    R: Threads
        + Wait
        + Processes<Started = SystemProcess>
        + Clock
        + Eprint
        + Sync
        + Alloc<A = Global>,
{
    let alloc = rt.alloc();
    let words = words_of(alloc, call.words)?;
    let mut stream = PlainSource::new(Bytes::from_slice(alloc, call.stream)?);
    let mut shelf = shelf_of(alloc, call.file)?;
    let mut tester = tester_of(alloc, call.rules)?;
    let mut shop = shop_of(alloc, call.folder)?;
    let status = farm_main(
        rt,
        alloc,
        words.as_slice(),
        &mut stream,
        &mut shelf,
        &mut tester,
        &mut shop,
        disk,
        out,
    );
    Ok(Made {
        status,
        tester,
        shop,
    })
}

/// What a call over a disk tells: its status and its text.
pub(crate) fn told_on<R>(
    rt: &R,
    given: Call<'_>,
    disk: &mut MemDisk,
) -> Result<(Status, Bytes), Fail>
where
    R: Threads
        + Wait
        + Processes<Started = SystemProcess>
        + Clock
        + Eprint
        + Sync
        + Alloc<A = Global>,
{
    let mut out = PlainSink::new(rt.alloc());
    let made = make_call(rt, given, disk, &mut out)?;
    Ok((made.status, out.into_bytes()))
}

/// What a call over an empty disk tells, where nothing fails: its status and its text.
pub(crate) fn told<R>(
    rt: &R,
    words: &[&[u8]],
    stream: &[u8],
    file: &[u8],
) -> Result<(Status, Bytes), Fail>
where
    R: Threads
        + Wait
        + Processes<Started = SystemProcess>
        + Clock
        + Eprint
        + Sync
        + Alloc<A = Global>,
{
    let given = Call {
        words,
        stream,
        file,
        rules: &[],
        folder: &[],
    };
    told_on(rt, given, &mut disk_of(rt.alloc(), &[], None)?)
}
