//! Finds the first bad commit of a history by a search as `git bisect` makes it. The history is read from
//! standard input as a git fast-import stream; the log of the search and its answer go to standard output.
#![tactic(auto)]

ghost use Rattle.std.specs.Prelude.{◌≡◌, [], false};

mod args;
mod help;
mod hint;
mod refused;
mod watched;

use args::CommandLine;
use bf_checkout::{DirFolder, Folder, FolderTester, TreesRefusal, Workshop};
use bf_farmed::farm_main;
use bf_import::Content;
use bf_io::{DirShelf, Shelf, Sink, Source, StdSink, StdSource, Word};
use bf_journal::{Disk, DiskFile, Recall};
use bf_program::{Status, StreamKind, say};
use bf_search::Outcome;
use bf_tester::{ProcessTester, Tester};
use help::{HELP, VERSION};
use std::alloc::{AllocError, Global};
use std::env::{self, VarError};
use std::io;
use std::process::{ExitCode, Processes, SystemProcess};
use std::rt::Env;
use std::sync::{Arc, Wait};
use std::thread::Threads;
use std::time::{Clock, SystemTime, UNIX_EPOCH};
use watched::Watched;

/// The file that `journal` keeps outcomes in.
const JOURNAL: &str = "bisect.journal";

// Runs the program over its devices. The bounds of `Host` are written out here.
fn run<R, S: Source, F: Shelf, T: Tester, U: FolderTester<D>, D: Folder, J: Disk, K: Sink>(
    rt: &R,
    words: &[Word],
    stream: &mut S,
    shelf: &mut F,
    tester: &mut Recall<T>,
    shop: &mut Workshop<U, D>,
    disk: &mut J,
    out: &mut K,
) -> Status
where
    R: Threads
        + Wait
        + Processes<Started = SystemProcess>
        + Clock
        + Eprint
        + Sync
        + Alloc<A = Global>,
    requires fresh { tester.old.answers ≡ [] }
    requires remembers { tester.old.remembered ≡ [] }
    requires whole { T.is_split tester.old.inner ≡ false }
    requires shop_fresh { U.answers shop.old.tester ≡ [] }
    requires shop_whole { U.is_split shop.old.tester ≡ false }
{
    farm_main(
        rt,
        rt.alloc(),
        words,
        stream,
        shelf,
        tester,
        shop,
        disk,
        out,
    )
}

/// A tester that starts commands. It tells of its tests on the standard error, unless the environment has
/// `FARMDAWN_QUIET`, and ends those that nobody asks for any more, unless it has `FARMDAWN_PATIENT`.
fn tester_of<R: Env + Alloc<A = Global>>(rt: &R) -> ProcessTester
    ensures answers { ⟦<ProcessTester as Tester>⟧.answers result ≡ [] }
    ensures whole { ⟦<ProcessTester as Tester>⟧.is_split result ≡ false }
    ensures is_lenient { ⟦<ProcessTester as Tester>⟧.is_lenient result ≡ false }
{
    let tester = ProcessTester::new(rt.alloc());
    let tester = match env::var(rt, "FARMDAWN_QUIET") {
        Err(VarError::NotPresent) => tester,
        _ => tester.silent(),
    };
    match env::var(rt, "FARMDAWN_PATIENT") {
        Err(VarError::NotPresent) => tester,
        _ => tester.patient(),
    }
}

/// The number of the first folder that commits are tested in: the microseconds of the clock, which a later run in the
/// same place finds later by more than a run draws.
fn first_folder<R: Clock>(rt: &R) -> u64 {
    let Ok(now) = SystemTime::now(rt) else {
        return 0;
    };
    match now.duration_since(UNIX_EPOCH) {
        Ok(time) => u64::try_from(time.as_micros()).unwrap_or(0),
        Err(_) => 0,
    }
}

/// No commit and no file.
fn nothing(alloc: Global) -> Result<Arc<Content>, AllocError> {
    Ok(Arc::new(alloc, Content::empty(alloc)?)?)
}

/// What may tell why a test was not made: both testers, and the folders; and whether the stream had no `done`, and no
/// test was bad.
#[derive(Drop)]
struct Makers<'a> {
    tester: &'a ProcessTester,
    shop: &'a ProcessTester,
    trees: Option<TreesRefusal>,
    is_open: bool,
}

/// Whether a tester found some commit bad.
fn has_bad<T: Tester>(tester: &T) -> bool {
    for index in 0..usize::MAX {
        match tester.answer(index) {
            Some(answer) if matches!(answer.outcome, Outcome::Exit(1..=124)) => return true,
            Some(_) => {}
            None => break,
        }
    }
    false
}

/// Whether the line has commits tested.
fn has_tests(words: &[Word]) -> bool {
    match words {
        [first, second, ..] if first.as_slice() == b"certify".as_slice() => {
            second.as_slice() == b"run".as_slice()
        }
        [first, ..] => matches!(first.as_slice(), b"run" | b"checkout" | b"journal"),
        [] => false,
    }
}

/// Says on the standard error what a word that is at fault should be, why a test was not made, or that commits may be
/// missing.
fn tell_why<R: Eprint>(rt: &R, line: &CommandLine, status: Status, makers: &Makers<'_>) {
    match (status, line.no_text) {
        (Status::Usage { .. }, Some(argument)) => hint::tell_no_text(rt, argument),
        (Status::Usage { word }, None) => hint::tell(rt, line.words.as_slice(), word),
        (
            Status::StreamRefused {
                kind: StreamKind::Unsupported,
                ..
            },
            _,
        ) => hint::tell_stream(rt),
        (Status::TestFault { .. }, _) => {
            hint::tell_refusal(rt, makers.tester);
            hint::tell_refusal(rt, makers.shop);
            hint::tell_trees(rt, makers.trees);
        }
        (Status::Done, _) if makers.is_open && has_tests(line.words.as_slice()) => {
            hint::tell_open(rt)
        }
        _ => {}
    }
}

fn main(rt: HostRuntime) -> ExitCode {
    let mut out = StdSink::new(io::writer(&rt));
    let status = match args::read(&rt) {
        Ok(line) => match line.words.as_slice() {
            [word] if word.as_slice() == b"--help".as_slice() => say(&mut out, HELP, Status::Done),
            [word] if word.as_slice() == b"--version".as_slice() => {
                say(&mut out, VERSION, Status::Done)
            }
            words => match (
                DirFolder::new(rt, first_folder(&rt)),
                nothing(rt.alloc()),
                JOURNAL.to_string(rt.alloc()),
            ) {
                (Ok(folder), Ok(content), Ok(journal)) => {
                    let mut stream = Watched::new(StdSource::new(rt.reader()));
                    let mut shelf = DirShelf::new(rt, rt.alloc());
                    let mut tester = Recall::new(rt.alloc(), tester_of(&rt));
                    let mut shop = Workshop::new(tester_of(&rt), folder, content);
                    let mut disk = DiskFile::new(rt, journal);
                    let status = run(
                        &rt,
                        words,
                        &mut stream,
                        &mut shelf,
                        &mut tester,
                        &mut shop,
                        &mut disk,
                        &mut out,
                    );
                    let makers = Makers {
                        tester: tester.inner(),
                        shop: shop.tester(),
                        trees: shop.folder().refusal(),
                        is_open: stream.has_ended() && !has_bad(&tester) && !has_bad(&shop),
                    };
                    tell_why(&rt, &line, status, &makers);
                    if let Status::CertRefused { line: number } = status {
                        refused::tell(&rt, &mut shelf, words, number);
                    }
                    hint::tell_remains(&rt, shop.folder().remove_remains());
                    status
                }
                _ => Status::NoMemory,
            },
        },
        Err(_) => Status::NoMemory,
    };
    ExitCode::from(status.number())
}
