//! The door of every command: the stream is read to its end, and then the file is loaded that words name.
ghost use Rattle.std.specs.Prelude.{◌≡◌, ℕ, is_some, IfOk, IsErrOf, IsTrue};
ghost use Rattle.bf_io.specs.Causes.{FailsOnlyAt};
ghost use Rattle.bf_answers.specs.Devices.{IsLeftUnless};
ghost use Rattle.bf_answers.specs.Ready.{IsSound, verb_of};
ghost use Rattle.bf_begin.specs.Opening.{IsBegunStream, IsOpened, IsReadFrom, IsTextOpened, IsWholeText};
ghost use Rattle.bf_grammar.specs.Limits.{IsWithin};

use crate::file::{LogFile, LogText, lent, load_file, load_word};
use crate::ready::start;
use bf_answers::{Answer, Fault, Means, Ready, RequestLine, no_file, refusal, too_large};
use bf_grammar::{Limit, Limits};
use bf_import::{History, import};
use bf_io::{Shelf, Source, Word};
use std::alloc::Global;

/// A history with a file, or the refusal of the stream.
#[derive(Drop)]
pub enum Opened {
    /// The history of the stream, and the file that words name.
    Over(History, Option<LogFile>),
    /// The stream is refused.
    Refused(Answer),
}

/// Reads the stream to its end, and then loads the file of a word, where there is one.
///
/// # Errors
/// `Read` where the source fails, `Shelf` where the file cannot be loaded, and `NoMemory`.
pub fn open<S: Source, F: Shelf>(
    alloc: Global,
    words: &[Word],
    file: Option<u32>,
    stream: &mut S,
    shelf: &mut F,
) -> Result<Opened, Fault>
    ensures opened { IfOk result
        (IsOpened (S.left stream.old) (F.files shelf.old) words.now file) }
    ensures read { FailsOnlyAt Fault.Read (S.faults stream.old) (S.faults stream.new) result }
    ensures asks { IsErrOf result Fault.Shelf → IsTrue (is_some file) }
    ensures file { FailsOnlyAt Fault.Shelf (F.faults shelf.old) (F.faults shelf.new) result }
    ensures unloaded { IsLeftUnless (is_some file) shelf.old shelf.new }
{
    match import(alloc, stream, Limits::standard()) {
        Ok(history) => {
            let given = load_file(words, file, shelf)?;
            Ok(Opened::Over(history, given))
        }
        Err(fault) => Ok(Opened::Refused(refusal(alloc, fault)?)),
    }
}

/// The search that a line asks for, once the stream and the file of its words are open; or the refusal.
///
/// # Errors
/// As [`open`].
pub fn open_search<S: Source, F: Shelf>(
    line: RequestLine<'_>,
    means: Means,
    stream: &mut S,
    shelf: &mut F,
) -> Result<Ready, Fault>
    requires asked { verb_of means ≡ line.request.now.verb }
    ensures begins { IfOk result
        (IsBegunStream line.entry (F.files shelf.old) (S.left stream.old)) }
    ensures history { IfOk result (IsReadFrom (S.left stream.old)) }
    ensures sound { IfOk result (IsSound line.entry.request.now) }
    ensures read { FailsOnlyAt Fault.Read (S.faults stream.old) (S.faults stream.new) result }
    ensures asks { IsErrOf result Fault.Shelf → IsTrue (is_some line.entry.request.now.replay) }
    ensures file { FailsOnlyAt Fault.Shelf (F.faults shelf.old) (F.faults shelf.new) result }
    ensures unloaded { IsLeftUnless (is_some line.entry.request.now.replay) shelf.old shelf.new }
{
    let opened = open(line.alloc, line.words, line.request.replay, stream, shelf)?;
    match opened {
        Opened::Over(history, file) => start(line, lent(&file), history, means),
        Opened::Refused(answer) => Ok(Ready::Told(answer)),
    }
}

/// A history with the text of a file, or the refusal of the stream, or of the file.
#[derive(Drop)]
pub enum OpenedText {
    /// The history of the stream, and the text of the file.
    Over(History, LogText),
    /// The stream is refused, or the file.
    Refused(Answer),
}

/// A line of which one word names the file whose text is wanted.
#[derive(Clone, Copy)]
pub struct FileLine<'a> {
    /// Where the answer has its memory.
    pub alloc: Global,
    /// The words of the line.
    pub words: &'a [Word],
    /// The index of the word that names the file; where no word stands there, the file is missing.
    pub index: u32,
    /// The limits on the stream, and how its commits are named.
    pub limits: Limits,
}

/// Reads the stream to its end, and then loads the text of the file that a word of the line names.
///
/// # Errors
/// As [`open`].
pub fn open_text<S: Source, F: Shelf>(
    line: FileLine<'_>,
    stream: &mut S,
    shelf: &mut F,
) -> Result<OpenedText, Fault>
    requires { IsWithin line.limits }
    ensures opened { IfOk result
        (IsTextOpened (S.left stream.old) (F.files shelf.old) line.entry) }
    ensures whole { IfOk result IsWholeText }
    ensures read { FailsOnlyAt Fault.Read (S.faults stream.old) (S.faults stream.new) result }
    ensures file { FailsOnlyAt Fault.Shelf (F.faults shelf.old) (F.faults shelf.new) result }
{
    match import(line.alloc, stream, line.limits) {
        Ok(history) => match load_word(line.words, line.index, shelf)? {
            LogFile::Text(text) => Ok(OpenedText::Over(history, text)),
            LogFile::Missing => Ok(OpenedText::Refused(no_file(line.alloc)?)),
            LogFile::TooLong => Ok(OpenedText::Refused(too_large(line.alloc, Limit::Log)?)),
        },
        Err(fault) => Ok(OpenedText::Refused(refusal(line.alloc, fault)?)),
    }
}
