//! Files of the shelf that words name, and the logs in them.
ghost use Rattle.std.specs.Prelude.{◌≡◌, ◌≤◌, length, is_some, IsTrue, IfOk, IsErrOf};
ghost use Rattle.std.specs.Option.{option_map};
ghost use Rattle.std.specs.Result.{result_map_both};
ghost use Rattle.bf_io.specs.Causes.{FailsOnlyAt};
ghost use Rattle.bf_output.specs.Logs as logs;
ghost use Rattle.bf_output.specs.Refusals.{log_refused};
ghost use Rattle.bf_reading.specs.Reading as reading;
ghost use Rattle.bf_replay.specs.Meaning.{replay_in, replayed_of, AreWithin as AreEntriesWithin, HasLength};
ghost use Rattle.bf_answers.specs.Devices.{IsLeftUnless};
ghost use Rattle.bf_begin.specs.Files.{file_given, given_of, IsFileAt, IsFileOf};
ghost use Rattle.bf_answers.specs.Steps.{IsStep};

use bf_answers::{Fault, Stop, log_refusal, no_file, too_large, word_at};
use bf_grammar::Limit;
use bf_import::History;
use bf_io::{Bytes, LoadFault, Shelf, Word};
use bf_reach::Reach;
use bf_reading::{LogFault, LogLine, LogLines, read_log};
use bf_replay::{ReplayFault, Replayed, replay};
use std::alloc::Global;
use std::marker::Model;

/// The most bytes that a file may have: a log, or another file that a word names.
const LONGEST_LOG: u32 = 16_777_216;

/// The text of a file, of at most 16 MiB. Contracts see its bytes.
#[derive(Drop)]
pub struct LogText {
    bytes: Bytes,
}

impl Model for LogText {
    ghost use Rattle.std.specs.Prelude.{List, ℕ, length, ◌≤◌};

    ghost Value = { List ℕ };

    ghost view = { λ text. text.bytes };

    ghost invariant = { λ text. length text.bytes ≤ 16777216 };
}

impl LogText {
    /// The bytes.
    pub fn as_slice(&self) -> &[u8]
        ensures bytes { result.now ≡ self.now }
        ensures bound { length self.now ≤ 16777216 }
    {
        self.bytes.as_slice()
    }
}

/// What a shelf gave for a name.
#[derive(Drop)]
pub enum LogFile {
    /// The file.
    Text(LogText),
    /// There is no such file.
    Missing,
    /// The file is longer than 16 MiB.
    TooLong,
}

/// What the shelf gives for a word. `Shelf` comes only where its count of faults rose.
pub fn load_word<F: Shelf>(words: &[Word], index: u32, shelf: &mut F) -> Result<LogFile, Fault>
    ensures file { IfOk result (IsFileAt (F.files shelf.old) words.now index) }
    ensures same { F.files shelf.new ≡ F.files shelf.old }
    ensures cause { FailsOnlyAt Fault.Shelf (F.faults shelf.old) (F.faults shelf.new) result }
    ensures no_read { IsErrOf result Fault.Read → ⊥ }
{
    match shelf.load(word_at(words, index), LONGEST_LOG) {
        Ok(bytes) => Ok(LogFile::Text(LogText { bytes })),
        Err(LoadFault::Missing) => Ok(LogFile::Missing),
        Err(LoadFault::TooLong) => Ok(LogFile::TooLong),
        Err(LoadFault::Failed) => Err(Fault::Shelf),
        Err(LoadFault::NoMemory) => Err(Fault::NoMemory),
    }
}

/// What the shelf gives for the word of `--replay`, where there is one; else the shelf is not asked.
pub fn load_file<F: Shelf>(
    words: &[Word],
    replay: Option<u32>,
    shelf: &mut F,
) -> Result<Option<LogFile>, Fault>
    ensures file { IfOk result (IsFileOf (F.files shelf.old) words.now replay) }
    ensures same { F.files shelf.new ≡ F.files shelf.old }
    ensures cause { FailsOnlyAt Fault.Shelf (F.faults shelf.old) (F.faults shelf.new) result }
    ensures asked { IsErrOf result Fault.Shelf → IsTrue (is_some replay) }
    ensures unloaded { IsLeftUnless (is_some replay) shelf.old shelf.new }
    ensures no_read { IsErrOf result Fault.Read → ⊥ }
{
    match replay {
        Some(index) => Ok(Some(load_word(words, index, shelf)?)),
        None => Ok(None),
    }
}

/// What the shelf gave, lent.
pub fn lent(file: &Option<LogFile>) -> Option<&LogFile>
    ensures { file_given result ≡ option_map given_of file.now }
{
    match file {
        Some(file) => Some(file),
        None => None,
    }
}

/// The text of a file, or its refusal: there is none of that name, or it is too long.
fn text_of(alloc: Global, file: &LogFile) -> Result<&[u8], Stop>
    ensures step { IsStep (λ text. text.now) result (logs.file_or_refusal (given_of file.now)) }
    ensures bound { IfOk result (λ text. length text.now ≤ 16777216) }
{
    match file {
        LogFile::Text(text) => Ok(text.as_slice()),
        LogFile::Missing => Err(Stop::Refused(no_file(alloc)?)),
        LogFile::TooLong => Err(Stop::Refused(too_large(alloc, Limit::Log)?)),
    }
}

/// The command lines of a text, or its refusal.
fn lines_of(alloc: Global, text: &[u8]) -> Result<LogLines, Stop>
    requires { length text.now ≤ 16777216 }
    ensures { IsStep (λ lines. lines) result
        (result_map_both (λ lines. lines) log_refused (reading.read_log text.now)) }
{
    match read_log(alloc, text) {
        Ok(lines) => Ok(lines),
        Err(LogFault::Line { line }) => Err(Stop::Refused(log_refusal(alloc, line)?)),
        Err(LogFault::NoMemory) => Err(Stop::NoMemory),
    }
}

/// What command lines lead to, or their refusal.
fn replay_lines(
    alloc: Global,
    history: &History,
    reach: &Reach,
    lines: &[LogLine],
) -> Result<Replayed, Stop>
    requires { reach.now ≡ history.now.parents }
    ensures step { IsStep replayed_of result
        (logs.replayed_or_refusal (replay_in history.now lines.now)) }
    ensures len { IfOk result (HasLength (length history.now.parents)) }
    ensures within { IfOk result (AreEntriesWithin (length history.now.parents)) }
{
    match replay(alloc, history, reach, lines) {
        Ok(replayed) => Ok(replayed),
        Err(ReplayFault::NoMemory) => Err(Stop::NoMemory),
        Err(
            ReplayFault::Name { line, .. }
            | ReplayFault::NotStarted { line }
            | ReplayFault::Term { line },
        ) => Err(Stop::Refused(log_refusal(alloc, line)?)),
    }
}

/// What the file of a log leads to, or its refusal: that of the file, or of the first line at fault.
#[tactic(auto, unfolding(bf_output::specs::Logs::replayed_log))]
pub fn replay_file(
    alloc: Global,
    history: &History,
    reach: &Reach,
    file: &LogFile,
) -> Result<Replayed, Stop>
    requires { reach.now ≡ history.now.parents }
    ensures step { IsStep replayed_of result (logs.replayed_log history.now (given_of file.now)) }
    ensures len { IfOk result (HasLength (length history.now.parents)) }
    ensures within { IfOk result (AreEntriesWithin (length history.now.parents)) }
{
    let text = text_of(alloc, file)?;
    let lines = lines_of(alloc, text)?;
    replay_lines(alloc, history, reach, lines.as_slice())
}
