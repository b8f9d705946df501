//! The command `check`.
ghost use Rattle.std.specs.Prelude.{◌≡◌, ◌≢◌, ℕ, ◌<◌, ◌≤◌, length, IfOk, IsErrOf, IsTrue};
ghost use Rattle.bf_io.specs.Causes.{FailsOnlyAt, Rose};
ghost use Rattle.bf_output.specs.Shown.{TesterShown};
ghost use Rattle.bf_answers.specs.Answers.{Answers, IsComplete, IsWholeAnswer};
ghost use Rattle.bf_answers.specs.Devices.{IsLeftUnless, met_shelf, met_sink, met_source, met_untested};
ghost use Rattle.bf_answers.specs.Tellings.{Says};
ghost use Rattle.bf_commands.specs.Check as checks;
ghost use Rattle.bf_certify.specs.Checking as checking;
ghost use Rattle.bf_certify.specs.Checking.{checks_file, to_check};
ghost use Rattle.bf_certify.specs.TellsChecked.{TellsOutput, TellsStreamed, TellsText};

use bf_answers::{Answer, Fault, say_answer, usage};
use bf_begin::{FileLine, OpenedText, open_text};
use bf_cert::CertFault;
use bf_claims::read_file;
use bf_commands::{asks_original_names, limits_asked};
use bf_import::History;
use bf_io::{Bytes, Shelf, Sink, Source, Word, put_decimal};
use bf_oid::oid_hex;
use bf_output::Status;
use std::alloc::{AllocError, Global};

/// Checks the certificate in the file that the last word names, over the history of the stream, and returns whether it
/// holds. Where the first line is that of an answer, it checks the whole answer.
///
/// With the word `--original-names` before it each commit has the name that it had before it was exported.
/// The stream is read to its end before the file is asked for. The status is `ReadFault` only where the count of
/// faults of the stream rose, `ShelfFault` only where that of the shelf did, and `WriteFault` only where that of
/// the sink did.
pub fn check<S: Source, F: Shelf, K: Sink>(
    alloc: Global,
    words: &[Word],
    stream: &mut S,
    shelf: &mut F,
    out: &mut K,
) -> Status
    // What it answers.
    ensures answers { (tested : TesterShown) →
        let met = met_untested words.now (met_source S.Source stream.old stream.new)
        (met_shelf F.Shelf shelf.old shelf.new) tested (met_sink K.Sink out.old out.new) in
        Answers (to_check met) met result }
    ensures complete { (tested : TesterShown) →
        let met = met_untested words.now (met_source S.Source stream.old stream.new)
        (met_shelf F.Shelf shelf.old shelf.new) tested (met_sink K.Sink out.old out.new) in
        IsComplete (to_check met) met result }
    // A fault of a device is answered only where its count of faults rose.
    ensures read { result ≡ Status.ReadFault → Rose (S.faults stream.old) (S.faults stream.new) }
    ensures file { result ≡ Status.ShelfFault → Rose (F.faults shelf.old) (F.faults shelf.new) }
    ensures write { result ≡ Status.WriteFault → Rose (K.faults out.old) (K.faults out.new) }
    ensures no_test { (place : ℕ) → result ≢ Status.TestFault place }
    ensures no_journal { result ≢ Status.JournalFault }
    // What the words do not ask for is left as it was.
    ensures unread { IsLeftUnless (checks_file words.now) stream.old stream.new }
    ensures unloaded { IsLeftUnless (checks_file words.now) shelf.old shelf.new }
{
    let answer = answer(alloc, words, stream, shelf);
    say_answer(out, answer)
}

/// The index of the word that names the file: it stands behind the one option.
fn file_index(words: &[Word]) -> u32
    ensures { result ≡ checking.file_index words.now }
{
    if asks_original_names(words) { 2 } else { 1 }
}

/// The index of the word that is missing, or of the first further one.
fn wrong_word(words: &[Word]) -> Option<u32>
    ensures { result ≡ checking.wrong_word words.now }
{
    let count = file_index(words) as usize + 1;
    let given = words.len();
    if given < count {
        return Some(given as u32);
    }
    if count < given {
        return Some(count as u32);
    }
    None
}

/// What is answered, or why there is no answer.
fn answer<S: Source, F: Shelf>(
    alloc: Global,
    words: &[Word],
    stream: &mut S,
    shelf: &mut F,
) -> Result<Answer, Fault>
    ensures tells { IfOk result (TellsOutput words.now (F.files shelf.old) (S.left stream.old)) }
    ensures whole { IfOk result IsWholeAnswer }
    ensures reads { IsErrOf result Fault.Read → IsTrue (checks_file words.now) }
    ensures cause { FailsOnlyAt Fault.Read (S.faults stream.old) (S.faults stream.new) result }
    ensures loads { IsErrOf result Fault.Shelf → IsTrue (checks_file words.now) }
    ensures file { FailsOnlyAt Fault.Shelf (F.faults shelf.old) (F.faults shelf.new) result }
    ensures unread { IsLeftUnless (checks_file words.now) stream.old stream.new }
    ensures unloaded { IsLeftUnless (checks_file words.now) shelf.old shelf.new }
{
    match wrong_word(words) {
        Some(word) => Ok(usage(alloc, word)?),
        None => check_file(alloc, words, stream, shelf),
    }
}

/// What is answered to the file that the words name, over the stream.
fn check_file<S: Source, F: Shelf>(
    alloc: Global,
    words: &[Word],
    stream: &mut S,
    shelf: &mut F,
) -> Result<Answer, Fault>
    ensures tells { IfOk result (TellsStreamed words.now (F.files shelf.old) (S.left stream.old)) }
    ensures whole { IfOk result IsWholeAnswer }
    ensures cause { FailsOnlyAt Fault.Read (S.faults stream.old) (S.faults stream.new) result }
    ensures file { FailsOnlyAt Fault.Shelf (F.faults shelf.old) (F.faults shelf.new) result }
{
    let line = FileLine {
        alloc,
        words,
        index: file_index(words),
        limits: limits_asked(words),
    };
    let opened = open_text(line, stream, shelf)?;
    match opened {
        OpenedText::Over(history, text) => check_text(alloc, &history, text.as_slice()),
        OpenedText::Refused(answer) => Ok(answer),
    }
}

/// What is answered to the text of a file: a certificate, or an answer with one.
fn check_text(alloc: Global, history: &History, text: &[u8]) -> Result<Answer, Fault>
    requires { length text.now ≤ 16777216 }
    ensures tells { IfOk result (TellsText history.now text.now) }
    ensures whole { IfOk result IsWholeAnswer }
    ensures memory { (IsErrOf result Fault.Read → ⊥) × (IsErrOf result Fault.Shelf → ⊥) }
{
    match read_file(alloc, history, text) {
        Ok(cert) => Ok(accepted(alloc, history, cert.bad)?),
        Err(CertFault::Line { line }) => Ok(cert_refusal(alloc, line)?),
        Err(CertFault::NoMemory) => Err(Fault::NoMemory),
    }
}

/// The answer where a certificate holds, which names its commit.
#[tactic(auto, unfolding(bf_commands::specs::Check::cert_holds))]
fn accepted(alloc: Global, history: &History, bad: u32) -> Result<Answer, AllocError>
    requires { bad < length history.now.parents }
    ensures tells { IfOk result (Says (checks.cert_holds history.now bad)) }
    ensures whole { IfOk result IsWholeAnswer }
{
    let mut digits = [0u8; 40];
    oid_hex(history.names()[bad as usize], &mut digits);
    let mut text = Bytes::from_slice(alloc, b"certificate holds for ")?;
    text.append(&digits)?;
    text.append(b"\n")?;
    Ok(Answer {
        status: Status::Done,
        text,
    })
}

/// The answer where a certificate fails at a line.
#[tactic(auto, unfolding(bf_commands::specs::Check::cert_refused))]
fn cert_refusal(alloc: Global, line: u32) -> Result<Answer, AllocError>
    ensures tells { IfOk result (Says (checks.cert_refused line)) }
    ensures whole { IfOk result IsWholeAnswer }
{
    let mut text = Bytes::from_slice(alloc, b"certificate fails at line ")?;
    put_decimal(&mut text, u64::from(line))?;
    text.append(b"\n")?;
    Ok(Answer {
        status: Status::CertRefused { line },
        text,
    })
}
