//! The top call.
ghost use Rattle.std.specs.Prelude.{◌≡◌, ◌≢◌, [], false, IfOk};
ghost use Rattle.bf_io.specs.Causes.{Rose};
ghost use Rattle.bf_output.specs.Output.{asks_file, reads};
ghost use Rattle.bf_words.specs.Words.{request};
ghost use Rattle.bf_program.specs.Answers.{Answers, HasTestCauseBy, IsComplete, IsUsedBy};
ghost use Rattle.bf_answers.specs.Answers.{IsUntestedIfRefused};
ghost use Rattle.bf_answers.specs.Devices.{IsLeftUnless, met, met_shelf, met_sink, met_source, met_tester};
ghost use Rattle.bf_searches.specs.Lines.{HasTestCauseIn, IsUsedIn};
ghost use Rattle.bf_answers.specs.Ready.{IsSound, ConcludesLine};
ghost use Rattle.bf_answers.specs.Steps.{HasPlan};

use crate::prepare::prepare;
use bf_answers::{Fault, Ready, RequestLine, say_answer, word_refusal};
use bf_io::{Shelf, Sink, Source, Word};
use bf_output::Status;
use bf_searches::search;
use bf_tester::{Host, Tester};
use bf_words::read_words;
use std::alloc::Global;

/// The program: reads the words and then, where they ask for it, the stream to its end, tests what a search asks
/// for, and writes the log and the answer.
///
/// The status says how the search ended, or what is refused. It is `ReadFault` only where the count of faults of the
/// stream rose, `ShelfFault` only where that of the shelf did, `WriteFault` only where that of the sink did, and
/// `TestFault` only in `run` where that of the tester did. Want of memory may be answered at any point. After
/// `WriteFault` and `NoMemory` the sink gained some front of the text that was due. Only `run` uses the tester: it
/// takes the command, and tests what the search asks for; a refusal leaves the tester alone, also one that cannot be
/// written. The stream is read only by the commands that ask for it, and the shelf is asked only for the file of
/// `--replay`.
///
/// Where no count of faults rose, the status and the text are those of the definition, or memory ran out.
pub fn bisect_main<R: Host, S: Source, F: Shelf, T: Tester, K: Sink>(
    rt: &R,
    alloc: Global,
    words: &[Word],
    stream: &mut S,
    shelf: &mut F,
    tester: &mut T,
    out: &mut K,
) -> Status
    requires fresh { T.answers tester.old ≡ [] }
    requires whole { T.is_split tester.old ≡ false }
    // What it answers.
    ensures answers { Answers (met words.now (met_source S.Source stream.old stream.new)
        (met_shelf F.Shelf shelf.old shelf.new) (met_tester T.Tester tester.old tester.new)
        (met_sink K.Sink out.old out.new)) result }
    ensures complete { IsComplete (met words.now (met_source S.Source stream.old stream.new)
        (met_shelf F.Shelf shelf.old shelf.new) (met_tester T.Tester tester.old tester.new)
        (met_sink K.Sink out.old out.new)) result }
    // A fault of a device is answered only where its count of faults rose.
    ensures read { result ≡ Status.ReadFault → Rose (S.faults stream.old) (S.faults stream.new) }
    ensures file { result ≡ Status.ShelfFault → Rose (F.faults shelf.old) (F.faults shelf.new) }
    ensures write { result ≡ Status.WriteFault → Rose (K.faults out.old) (K.faults out.new) }
    ensures no_journal { result ≢ Status.JournalFault }
    ensures test { HasTestCauseBy words.now (met_tester T.Tester tester.old tester.new) result }
    // What the words do not ask for is left as it was, and so is the tester by a refusal.
    ensures used { IsUsedBy words.now (met_tester T.Tester tester.old tester.new) }
    ensures unread { IsLeftUnless (reads (request words.now)) stream.old stream.new }
    ensures unloaded { IsLeftUnless (asks_file (request words.now)) shelf.old shelf.new }
    ensures untested { IsUntestedIfRefused (met_tester T.Tester tester.old tester.new) result }
    ensures is_split { T.is_split tester.new ≡ false }
    ensures recalled { T.recalled tester.new ≡ T.recalled tester.old }
{
    match read_words(alloc, words) {
        Ok(request) => {
            let line = RequestLine {
                alloc,
                request: &request,
                words,
            };
            let ready = prepare(rt, line, stream, shelf);
            conclude(rt, line, ready, tester, out)
        }
        Err(fault) => say_answer(out, word_refusal(alloc, fault)),
    }
}

/// Tests and writes what a line asks for, or writes the line of what stands in its way, and returns the status.
fn conclude<R: Host, T: Tester, K: Sink>(
    rt: &R,
    line: RequestLine<'_>,
    ready: Result<Ready, Fault>,
    tester: &mut T,
    out: &mut K,
) -> Status
    requires plan { HasPlan line.request.now line.words.now }
    requires sound { IfOk ready (IsSound line.request.now) }
    requires fresh { T.answers tester.old ≡ [] }
    requires is_split { T.is_split tester.old ≡ false }
    ensures told { ConcludesLine line.entry (met_tester T.Tester tester.old tester.new) ready
        (met_sink K.Sink out.old out.new) result }
    ensures own { IfOk ready (λ _. (result ≢ Status.ReadFault) × (result ≢ Status.ShelfFault)) }
    ensures test { HasTestCauseIn line.entry (met_tester T.Tester tester.old tester.new) result }
    ensures write { result ≡ Status.WriteFault → Rose (K.faults out.old) (K.faults out.new) }
    ensures no_journal { result ≢ Status.JournalFault }
    ensures used { IsUsedIn line.entry (met_tester T.Tester tester.old tester.new) }
    ensures untested { IsUntestedIfRefused (met_tester T.Tester tester.old tester.new) result }
    ensures is_split { T.is_split tester.new ≡ false }
    ensures recalled { T.recalled tester.new ≡ T.recalled tester.old }
{
    match ready {
        Ok(Ready::Search(started)) => search(rt, line, started, tester, out),
        Ok(Ready::Told(answer)) => say_answer(out, Ok(answer)),
        Err(fault) => say_answer(out, Err(fault)),
    }
}
