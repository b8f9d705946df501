//! The command `serve`.
ghost use Rattle.std.specs.Prelude.{◌≡◌, ◌≢◌, ℕ, IfOk, IsErrOf, OnErr, OnOk};
ghost use Rattle.bf_io.specs.Causes.{FailsOnlyAt, Rose};
ghost use Rattle.bf_output.specs.Shown.{TesterShown};
ghost use Rattle.bf_answers.specs.Devices.{IsLeftUnless, ShelfMet, SourceMet, met_shelf, met_sink};
ghost use Rattle.bf_answers.specs.Devices.{met_source, met_untested};
ghost use Rattle.bf_grammar.specs.Limits.{IsWithin};
ghost use Rattle.bf_lines.specs.Lines.{told};
ghost use Rattle.bf_serve_run.specs.Command as command;
ghost use Rattle.bf_serve_run.specs.Command.{IsServeComplete, RefusesWord, ServeAnswers};
ghost use Rattle.bf_serve_run.specs.Command.{ServesStream, serves};
ghost use Rattle.bf_serve_run.specs.Serving.{WritesAll, WritesFront, WritesSome};

use crate::server::Server;
use bf_answers::{refusal, say_answer, usage, write_and_flush};
use bf_commands::{asks_original_names, limits_asked};
use bf_grammar::Limits;
use bf_import::{History, import_with_rest};
use bf_io::{Bytes, Shelf, Sink, Source, Word};
use bf_lines::{ServeFault, serve_lines};
use bf_output::Status;
use bf_protocol::put_ready;
use bf_reach::Reach;
use bf_serve::Session;
use std::alloc::Global;

/// Answers the requests behind a stream, line by line: each reply is written and flushed before anything is read that the
/// line did not need. The first line tells how many commits the stream has.
///
/// With the word `--original-names` each commit has the name that it had before it was exported. The stream ends with its
/// line `done`. Where it is refused, it is told as `next` tells it. The status is `Done` at the end of the input, `ReadFault`
/// only where the count of faults of the stream rose, and `WriteFault` only where that of the sink did. Want of memory may
/// be answered at any point. What was written then is a front of the whole text.
pub fn serve<S: Source, F: Shelf, K: Sink>(
    alloc: Global,
    words: &[Word],
    stream: &mut S,
    shelf: &mut F,
    out: &mut K,
) -> Status
    // What it answers.
    ensures answers { (tested : TesterShown) →
        let met = met_untested words.now (met_source S.Source stream.old stream.new)
        (met_shelf F.Shelf shelf.old shelf.new) tested (met_sink K.Sink out.old out.new) in
        ServeAnswers met result }
    ensures complete { (tested : TesterShown) →
        let met = met_untested words.now (met_source S.Source stream.old stream.new)
        (met_shelf F.Shelf shelf.old shelf.new) tested (met_sink K.Sink out.old out.new) in
        IsServeComplete met result }
    // A fault of a device is answered only where its count of faults rose.
    ensures read { result ≡ Status.ReadFault → Rose (S.faults stream.old) (S.faults stream.new) }
    ensures write { result ≡ Status.WriteFault → Rose (K.faults out.old) (K.faults out.new) }
    ensures no_file { result ≢ Status.ShelfFault }
    ensures no_test { (place : ℕ) → result ≢ Status.TestFault place }
    ensures no_journal { result ≢ Status.JournalFault }
    // What the words do not ask for is left as it was.
    ensures unread { IsLeftUnless (serves words.now) stream.old stream.new }
    ensures unloaded { IsLeftUnless (serves words.now) shelf.old shelf.new }
{
    match wrong_word(words) {
        Some(word) => refuse(alloc, word, out),
        None => serve_stream(alloc, limits_asked(words), stream, shelf, out),
    }
}

/// The index of the word that is missing, or of the first further one.
fn wrong_word(words: &[Word]) -> Option<u32>
    ensures { result ≡ command.wrong_word words.now }
{
    let count = if asks_original_names(words) { 2 } else { 1 };
    let given = words.len();
    if given < count {
        return Some(given as u32);
    }
    if count < given {
        return Some(count as u32);
    }
    None
}

/// Tells that a word is at fault.
fn refuse<K: Sink>(alloc: Global, word: u32, out: &mut K) -> Status
    ensures refuses { (source : SourceMet) (shelf : ShelfMet) →
        RefusesWord word source shelf (met_sink K.Sink out.old out.new) result }
    ensures no_test { (place : ℕ) → result ≢ Status.TestFault place }
    ensures no_journal { result ≢ Status.JournalFault }
    ensures write { result ≡ Status.WriteFault → Rose (K.faults out.old) (K.faults out.new) }
{
    match usage(alloc, word) {
        Ok(answer) => say_answer(out, Ok(answer)),
        Err(_) => Status::NoMemory,
    }
}

/// Answers the requests behind a stream, or tells why it is refused.
fn serve_stream<S: Source, F: Shelf, K: Sink>(
    alloc: Global,
    limits: Limits,
    stream: &mut S,
    shelf: &mut F,
    out: &mut K,
) -> Status
    requires { IsWithin limits }
    ensures serves { ServesStream limits (met_source S.Source stream.old stream.new)
        (met_shelf F.Shelf shelf.old shelf.new) (met_sink K.Sink out.old out.new) result }
    ensures write { result ≡ Status.WriteFault → Rose (K.faults out.old) (K.faults out.new) }
    ensures no_test { (place : ℕ) → result ≢ Status.TestFault place }
    ensures no_journal { result ≢ Status.JournalFault }
{
    match import_with_rest(alloc, stream, limits) {
        Ok((history, held)) => {
            let served = serve_requests(alloc, &history, held, stream, shelf, out);
            status_of(served)
        }
        Err(fault) => {
            let answer = refusal(alloc, fault);
            say_answer(out, answer)
        }
    }
}

/// Writes the first line, and then answers the lines of `held` and of what the source has left behind it.
fn serve_requests<S: Source, F: Shelf, K: Sink>(
    alloc: Global,
    history: &History,
    held: Bytes,
    source: &mut S,
    shelf: &mut F,
    sink: &mut K,
) -> Result<(), ServeFault>
    ensures all { let input = told held (S.left source.old) in
        OnOk result (WritesAll history.now (met_shelf F.Shelf shelf.old shelf.new) input
        (K.held sink.old) (K.held sink.new)) }
    ensures some { let input = told held (S.left source.old) in
        IsErrOf result ServeFault.Read → WritesSome history.now
        (met_shelf F.Shelf shelf.old shelf.new) input (K.held sink.old) (K.held sink.new) }
    ensures front { let input = told held (S.left source.old) in
        OnErr result (WritesFront history.now (met_shelf F.Shelf shelf.old shelf.new) input
        (K.held sink.old) (K.held sink.new)) }
    ensures source { FailsOnlyAt ServeFault.Read
        (S.faults source.old) (S.faults source.new) result }
    ensures sink { FailsOnlyAt ServeFault.Write (K.faults sink.old) (K.faults sink.new) result }
{
    let reach = Reach::build(alloc, history.graph())?;
    let session = Session::new(alloc, history, &reach)?;
    let mut server = Server { session };
    let mut ready = Bytes::new(alloc);
    put_ready(&mut ready, history.len())?;
    write_and_flush(sink, ready.as_slice())?;
    serve_lines(alloc, held, source, sink, &mut server, shelf)
}

/// The status where requests were served so far.
fn status_of(served: Result<(), ServeFault>) -> Status
    ensures { result ≡ command.status_of served }
{
    match served {
        Ok(()) => Status::Done,
        Err(ServeFault::Read) => Status::ReadFault,
        Err(ServeFault::Write) => Status::WriteFault,
        Err(ServeFault::NoMemory) => Status::NoMemory,
    }
}
