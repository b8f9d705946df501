//! Calls of the two commands over streams and files in memory.
ghost use Rattle.std.specs.Prelude.{◌≡◌, [], false};

use bf_certify::{certify, check};
use bf_io::{Bytes, MemSource, PlainShelf, PlainSink, ShelfFile, Word};
use bf_output::Status;
use bf_tester::{PlanTester, Tester};
use std::alloc::{AllocError, Global};
use std::process::{Processes, SystemProcess};
use std::sync::Wait;
use std::thread::Threads;
use std::time::Clock;

/// The name of the file that is checked.
const FILE: &[u8] = b"certificate.txt";

/// What a call answers, and what it writes.
#[derive(Drop)]
pub(crate) struct Answered {
    pub(crate) status: Status,
    pub(crate) text: Bytes,
}

impl Answered {
    /// Whether it is this answer.
    pub(crate) fn is(&self, status: Status, text: &[u8]) -> bool {
        self.status == status && self.text.as_slice() == text
    }
}

/// Texts as words.
fn words_of(alloc: Global, texts: &[&[u8]]) -> Result<Vec<Word>, AllocError> {
    let mut words = Vec::new(alloc);
    for text in texts {
        words.push(Bytes::from_slice(alloc, text)?)?;
    }
    Ok(words)
}

fn source_of(alloc: Global, stream: &[u8]) -> Result<MemSource, AllocError> {
    let bytes = Bytes::from_slice(alloc, stream)?;
    Ok(MemSource::new(bytes, 65_536, Vec::new(alloc)))
}

/// What `certify` answers to these words, with a tester that is not to be asked.
pub(crate) fn certified<R>(rt: &R, words: &[&[u8]], stream: &[u8]) -> Result<Answered, AllocError>
where
    R: Threads
        + Wait
        + Processes<Started = SystemProcess>
        + Clock
        + Eprint
        + Sync
        + Alloc<A = Global>,
{
    let mut tester = PlanTester::new(rt.alloc(), b"")?;
    certified_by(rt, words, stream, &mut tester)
}

/// What `certify` answers to these words, with a tester.
pub(crate) fn certified_by<R, T: Tester>(
    rt: &R,
    words: &[&[u8]],
    stream: &[u8],
    tester: &mut T,
) -> Result<Answered, AllocError>
where
    R: Threads
        + Wait
        + Processes<Started = SystemProcess>
        + Clock
        + Eprint
        + Sync
        + Alloc<A = Global>,
    requires fresh { T.answers tester.old ≡ [] }
    requires whole { T.is_split tester.old ≡ false }
{
    let alloc = rt.alloc();
    let words = words_of(alloc, words)?;
    let mut stream = source_of(alloc, stream)?;
    let mut shelf = PlainShelf::new(Vec::new(alloc));
    let mut out = PlainSink::new(alloc);
    let status = certify(
        rt,
        alloc,
        words.as_slice(),
        &mut stream,
        &mut shelf,
        tester,
        &mut out,
    );
    let text = Bytes::from_slice(alloc, out.bytes())?;
    Ok(Answered { status, text })
}

/// What `check` answers to a file.
pub(crate) fn checked(alloc: Global, stream: &[u8], file: Bytes) -> Result<Answered, AllocError> {
    let words = words_of(alloc, &[b"check", FILE])?;
    let name = Bytes::from_slice(alloc, FILE)?;
    let mut files = Vec::new(alloc);
    files.push(ShelfFile { name, bytes: file })?;
    checked_with(alloc, words.as_slice(), stream, files)
}

/// What `check` answers to these words, where the shelf has these files.
pub(crate) fn checked_with(
    alloc: Global,
    words: &[Word],
    stream: &[u8],
    files: Vec<ShelfFile>,
) -> Result<Answered, AllocError> {
    let mut stream = source_of(alloc, stream)?;
    let mut shelf = PlainShelf::new(files);
    let mut out = PlainSink::new(alloc);
    let status = check(alloc, words, &mut stream, &mut shelf, &mut out);
    let text = Bytes::from_slice(alloc, out.bytes())?;
    Ok(Answered { status, text })
}

/// What `check` answers to these words, where the shelf has no file.
pub(crate) fn checked_without(
    alloc: Global,
    words: &[&[u8]],
    stream: &[u8],
) -> Result<Answered, AllocError> {
    let words = words_of(alloc, words)?;
    checked_with(alloc, words.as_slice(), stream, Vec::new(alloc))
}
