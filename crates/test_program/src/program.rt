//! Calls of the program over streams in memory.
ghost use Rattle.std.specs.Prelude.{◌≡◌, [], false};

use bf_io::{Bytes, MemSource, PlainShelf, Sink, Source, Word};
use bf_program::{Status, bisect_main};
use bf_tester::{PlanTester, Tester};
use std::alloc::{AllocError, Global};
use std::process::{Processes, SystemProcess};
use std::sync::Wait;
use std::thread::Threads;
use std::time::Clock;

/// Texts as words.
pub(crate) fn words_of(alloc: Global, texts: &[&[u8]]) -> Result<Vec<Word>, AllocError> {
    let mut words = Vec::new(alloc);
    for text in texts {
        words.push(Bytes::from_slice(alloc, text)?)?;
    }
    Ok(words)
}

/// The status of the program over no files.
fn over_no_files<R, S: Source, T: Tester, K: Sink>(
    rt: &R,
    words: &[Word],
    stream: &mut S,
    tester: &mut T,
    out: &mut K,
) -> Status
where
    R: Threads
        + Wait
        + Processes<Started = SystemProcess>
        + Clock
        + Eprint
        + Sync
        + Alloc<A = Global>,
    requires fresh { T.answers tester.old ≡ [] }
    requires whole { T.is_split tester.old ≡ false }
{
    let mut shelf = PlainShelf::new(Vec::new(rt.alloc()));
    bisect_main(rt, rt.alloc(), words, stream, &mut shelf, tester, out)
}

/// The status of the program, over no files and with a tester that is not to be asked.
pub(crate) fn run<R, S: Source, K: Sink>(
    rt: &R,
    words: &[&[u8]],
    stream: &mut S,
    out: &mut K,
) -> Result<Status, AllocError>
where
    R: Threads
        + Wait
        + Processes<Started = SystemProcess>
        + Clock
        + Eprint
        + Sync
        + Alloc<A = Global>,
{
    let words = words_of(rt.alloc(), words)?;
    let mut tester = PlanTester::new(rt.alloc(), b"")?;
    Ok(over_no_files(rt, words.as_slice(), stream, &mut tester, out))
}

/// The status of the program over a stream that comes whole, and no files, with a tester.
pub(crate) fn test<R, T: Tester, K: Sink>(
    rt: &R,
    words: &[&[u8]],
    stream: &[u8],
    tester: &mut T,
    out: &mut K,
) -> Result<Status, AllocError>
where
    R: Threads
        + Wait
        + Processes<Started = SystemProcess>
        + Clock
        + Eprint
        + Sync
        + Alloc<A = Global>,
    requires fresh { T.answers tester.old ≡ [] }
    requires whole { T.is_split tester.old ≡ false }
{
    let words = words_of(rt.alloc(), words)?;
    let bytes = Bytes::from_slice(rt.alloc(), stream)?;
    let mut stream = MemSource::new(bytes, 65_536, Vec::new(rt.alloc()));
    Ok(over_no_files(rt, words.as_slice(), &mut stream, tester, out))
}
