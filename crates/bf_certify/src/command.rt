//! The command `certify`.
ghost use Rattle.std.specs.Prelude.{◌≡◌, ◌≢◌, false, [], is_some, IfOk, IsErrOf, IsTrue};
ghost use Rattle.bf_io.specs.Causes.{FailsOnlyAt, Rose};
ghost use Rattle.bf_answers.specs.Answers.{Answers, HasTestCause, IsCaused, IsComplete, IsUntestedIfRefused};
ghost use Rattle.bf_answers.specs.Devices.{IsLeftUnless, met, met_shelf, met_sink, met_source, met_tester};
ghost use Rattle.bf_answers.specs.Ready.{SaysAnswer, verb_of};
ghost use Rattle.bf_answers.specs.Steps.{HasPlan};
ghost use Rattle.bf_certify.specs.Certifying.{to_certify};
ghost use Rattle.bf_certify.specs.Tells.{IsUntestedAt, LeavesRefused, TellsOutput, TellsStream};
ghost use Rattle.bf_commands.specs.Orders.{is_search, request_to_certify};
ghost use Rattle.bf_output.specs.Output.{IsUsedFor, asks_file, reads, tests};
ghost use Rattle.bf_output.specs.Shown.{shown_by};
ghost use Rattle.bf_searches.specs.Lines.{IsCausedIn, IsUsedIn};

use crate::search::certify_search;
use crate::words::read_to_certify;
use bf_answers::{Answer, Fault, Means, Ready, RequestLine, say, word_refusal};
use bf_begin::open_search;
use bf_io::{Shelf, Sink, Source, Word};
use bf_output::Status;
use bf_tester::{Host, Tester};
use bf_words::{Request, Verb};
use std::alloc::Global;

/// Searches as the words of `simulate` or `run` behind the first word ask for, and writes the certificate of the
/// first bad commit, or how the search ended otherwise, and returns the status.
///
/// The words are read first: another command than these two is at fault at word 1 before all else, and the first
/// word that asks for legs or for a trace is at fault once the words are accepted. Then the stream is read to its
/// end, the log that the words name is loaded, and the search begins. Nothing is written before it has ended. The
/// status is `ReadFault` only where the count of faults of the stream rose, `ShelfFault` only where that of the shelf
/// did, `WriteFault` only where that of the sink did, and `TestFault` only in `certify run` where that of the tester
/// did. Want of memory may be answered at any point.
pub fn certify<R: Host, S: Source, F: Shelf, T: Tester, K: Sink>(
    rt: &R,
    alloc: Global,
    words: &[Word],
    stream: &mut S,
    shelf: &mut F,
    tester: &mut T,
    out: &mut K,
) -> Status
    requires fresh { T.answers tester.old ≡ [] }
    requires whole { T.is_split tester.old ≡ false }
    // What it answers.
    ensures answers { let met = met words.now (met_source S.Source stream.old stream.new)
        (met_shelf F.Shelf shelf.old shelf.new) (met_tester T.Tester tester.old tester.new)
        (met_sink K.Sink out.old out.new) in
        Answers (to_certify met) met result }
    ensures complete { let met = met words.now (met_source S.Source stream.old stream.new)
        (met_shelf F.Shelf shelf.old shelf.new) (met_tester T.Tester tester.old tester.new)
        (met_sink K.Sink out.old out.new) in
        IsComplete (to_certify met) met result }
    // A fault of a device is answered only where its count of faults rose.
    ensures read { result ≡ Status.ReadFault → Rose (S.faults stream.old) (S.faults stream.new) }
    ensures file { result ≡ Status.ShelfFault → Rose (F.faults shelf.old) (F.faults shelf.new) }
    ensures write { result ≡ Status.WriteFault → Rose (K.faults out.old) (K.faults out.new) }
    ensures no_journal { result ≢ Status.JournalFault }
    ensures test { HasTestCause (tests (request_to_certify words.now))
        (met_tester T.Tester tester.old tester.new) result }
    // What the words do not ask for is left as it was, and so is the tester by a refusal.
    ensures used { IsUsedFor (request_to_certify words.now) words.now
        (shown_by T.Tester tester.old) (shown_by T.Tester tester.new) }
    ensures unread { IsLeftUnless (reads (request_to_certify words.now)) stream.old stream.new }
    ensures unloaded { IsLeftUnless (asks_file (request_to_certify words.now)) shelf.old shelf.new }
    ensures untested { IsUntestedIfRefused (met_tester T.Tester tester.old tester.new) result }
    ensures is_split { T.is_split tester.new ≡ false }
    ensures recalled { T.recalled tester.new ≡ T.recalled tester.old }
{
    let answer = answer(rt, alloc, words, stream, shelf, tester);
    say_tested(out, answer)
}

/// What is answered to these words, or why there is no answer.
fn answer<R: Host, S: Source, F: Shelf, T: Tester>(
    rt: &R,
    alloc: Global,
    words: &[Word],
    stream: &mut S,
    shelf: &mut F,
    tester: &mut T,
) -> Result<Answer, Fault>
    requires fresh { T.answers tester.old ≡ [] }
    requires is_split { T.is_split tester.old ≡ false }
    ensures tells { IfOk result (TellsOutput words.now (F.files shelf.old)
        (shown_by T.Tester tester.new) (S.left stream.old)) }
    ensures cause { IfOk result (IsCaused (tests (request_to_certify words.now))
        (met_tester T.Tester tester.old tester.new)) }
    ensures refused { IfOk result (LeavesRefused (met_tester T.Tester tester.old tester.new)) }
    ensures fault { IsUntestedAt (met_tester T.Tester tester.old tester.new) result }
    ensures reads { IsErrOf result Fault.Read → IsTrue (reads (request_to_certify words.now)) }
    ensures read { FailsOnlyAt Fault.Read (S.faults stream.old) (S.faults stream.new) result }
    ensures loads { IsErrOf result Fault.Shelf →
        IsTrue (asks_file (request_to_certify words.now)) }
    ensures file { FailsOnlyAt Fault.Shelf (F.faults shelf.old) (F.faults shelf.new) result }
    ensures used { IsUsedFor (request_to_certify words.now) words.now
        (shown_by T.Tester tester.old) (shown_by T.Tester tester.new) }
    ensures unread { IsLeftUnless (reads (request_to_certify words.now)) stream.old stream.new }
    ensures unloaded { IsLeftUnless (asks_file (request_to_certify words.now)) shelf.old shelf.new }
    ensures is_split { T.is_split tester.new ≡ false }
    ensures recalled { T.recalled tester.new ≡ T.recalled tester.old }
{
    match read_to_certify(alloc, words) {
        Ok(request) => {
            let line = RequestLine {
                alloc,
                request: &request,
                words,
            };
            certify_line(rt, line, stream, shelf, tester)
        }
        Err(fault) => word_refusal(alloc, fault),
    }
}

/// Writes an answer, or the line of what stood in its way, and returns the status.
fn say_tested<K: Sink>(out: &mut K, answer: Result<Answer, Fault>) -> Status
    requires whole { IfOk answer (λ a. a.status ≢ Status.WriteFault) }
    ensures told { SaysAnswer answer (met_sink K.Sink out.old out.new) result }
    ensures write { result ≡ Status.WriteFault → Rose (K.faults out.old) (K.faults out.new) }
{
    match answer {
        Ok(answer) => say(out, answer.text.as_slice(), answer.status),
        Err(Fault::Read) => say(out, b"read fault\n", Status::ReadFault),
        Err(Fault::Shelf) => say(out, b"file fault\n", Status::ShelfFault),
        Err(Fault::NoMemory) => Status::NoMemory,
    }
}

/// What is answered to a line: its search is certified, or refused.
fn certify_line<R: Host, S: Source, F: Shelf, T: Tester>(
    rt: &R,
    line: RequestLine<'_>,
    stream: &mut S,
    shelf: &mut F,
    tester: &mut T,
) -> Result<Answer, Fault>
    requires search { IsTrue (is_search line.request.now.verb) }
    requires plan { HasPlan line.request.now line.words.now }
    requires whole { line.request.now.leg ≡ 0 }
    requires plain { line.request.now.trace ≡ false }
    requires fresh { T.answers tester.old ≡ [] }
    requires is_split { T.is_split tester.old ≡ false }
    ensures tells { IfOk result (TellsStream line.entry (F.files shelf.old)
        (shown_by T.Tester tester.new) (S.left stream.old)) }
    ensures cause { IfOk result (IsCausedIn line.entry
        (met_tester T.Tester tester.old tester.new)) }
    ensures refused { IfOk result (LeavesRefused (met_tester T.Tester tester.old tester.new)) }
    ensures fault { IsUntestedAt (met_tester T.Tester tester.old tester.new) result }
    ensures read { FailsOnlyAt Fault.Read (S.faults stream.old) (S.faults stream.new) result }
    ensures asks { IsErrOf result Fault.Shelf → IsTrue (is_some line.entry.request.now.replay) }
    ensures file { FailsOnlyAt Fault.Shelf (F.faults shelf.old) (F.faults shelf.new) result }
    ensures used { IsUsedIn line.entry (met_tester T.Tester tester.old tester.new) }
    ensures unloaded { IsLeftUnless (is_some line.entry.request.now.replay) shelf.old shelf.new }
    ensures is_split { T.is_split tester.new ≡ false }
    ensures recalled { T.recalled tester.new ≡ T.recalled tester.old }
{
    let ready = open_search(line, means_of(line.request), stream, shelf)?;
    match ready {
        Ready::Search(started) => Ok(certify_search(rt, line, started, tester)?),
        Ready::Told(answer) => Ok(answer),
    }
}

/// How the commits of a search are tested.
fn means_of(request: &Request) -> Means
    requires search { IsTrue (is_search request.now.verb) }
    ensures { verb_of result ≡ request.now.verb }
{
    match request.verb {
        Verb::Run => Means::Command,
        Verb::Simulate | Verb::Next | Verb::Replay | Verb::Gen | Verb::Sample => Means::Plan,
    }
}
