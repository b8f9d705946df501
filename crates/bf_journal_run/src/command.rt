//! The command `journal`.
ghost use Rattle.std.specs.Prelude.{◌≡◌, ◌≢◌, ℕ, [], false, true, IfOk, IsTrue};
ghost use Rattle.bf_answers.specs.Answers.{Answers, HasTestCause, IsComplete, IsUntestedIfRefused};
ghost use Rattle.bf_answers.specs.Devices.{IsLeftUnless, met, met_shelf, met_sink, met_source, met_tester};
ghost use Rattle.bf_answers.specs.Ready.{IsSound};
ghost use Rattle.bf_commands.specs.Journal.{request_to_journal};
ghost use Rattle.bf_io.specs.Causes.{Rose};
ghost use Rattle.bf_journal_run.specs.Held.{IsHeldBy, IsHeldReady};
ghost use Rattle.bf_journal_run.specs.Journalling.{AreUnasked, ConcludesReady, IsRecalledBy, IsRecalledReady, to_journal};
ghost use Rattle.bf_journal_run.specs.Legs.{met_disk};
ghost use Rattle.bf_journal_run.specs.Searching.{IsUnopenedIfRefused};
ghost use Rattle.bf_output.specs.Output.{IsUsedFor, asks_file, reads, tests};
ghost use Rattle.bf_output.specs.Shown.{shown_by};
ghost use Rattle.bf_searches.specs.Lines.{IsUsedToTest};
ghost use Rattle.bf_journal.specs.Recalling.{remembering};
ghost use Rattle.bf_words.specs.declared.verb.Verb.TheVariants.{Run};

use crate::search::search;
use crate::words::read_line;
use bf_answers::{Fault, Means, Ready, RequestLine, say_answer, word_refusal};
use bf_begin::open_search;
use bf_io::{Shelf, Sink, Source, Word};
use bf_journal::{Disk, Recall};
use bf_output::Status;
use bf_tester::{Host, Tester};
use std::alloc::Global;

/// Runs the line of `run` behind the first word, keeps its outcomes on the disk, and goes on from those that the
/// disk kept of the same line.
///
/// The journal is opened once the search has begun, before any commit is tested. A commit whose outcome was kept is
/// not tested again. The status is `JournalRefused` where the disk has the journal of another run, and `JournalFault` only
/// where the count of faults of the disk rose; the causes of the others are those of `run`. Once the call has
/// returned, each image that a crash may leave has each outcome behind a line that was written and, as it was, each that
/// the journal kept before; and at no moment of the call a crash leaves what was neither kept nor tested, or less than was
/// kept. The journal of another run is left as it is, and with any other refusal the disk is not touched.
pub fn journal<R: Host, S: Source, F: Shelf, T: Tester, J: Disk, K: Sink>(
    rt: &R,
    alloc: Global,
    words: &[Word],
    stream: &mut S,
    shelf: &mut F,
    tester: &mut Recall<T>,
    disk: &mut J,
    out: &mut K,
) -> Status
    requires fresh { tester.old.answers ≡ [] }
    requires remembers { tester.old.remembered ≡ [] }
    requires whole { T.is_split tester.old.inner ≡ false }
    // What it answers.
    ensures answers { let met = met words.now (met_source S.Source stream.old stream.new)
        (met_shelf F.Shelf shelf.old shelf.new)
        (met_tester ⟦<Recall<T> as Tester>⟧ tester.old tester.new)
        (met_sink K.Sink out.old out.new) in
        Answers (to_journal met (met_disk J.Disk disk.old disk.new)) met result }
    ensures complete { let met = met words.now (met_source S.Source stream.old stream.new)
        (met_shelf F.Shelf shelf.old shelf.new)
        (met_tester ⟦<Recall<T> as Tester>⟧ tester.old tester.new)
        (met_sink K.Sink out.old out.new) in
        IsComplete (to_journal met (met_disk J.Disk disk.old disk.new)) met result }
    // A fault of a device is answered only where its count of faults rose.
    ensures read { result ≡ Status.ReadFault → Rose (S.faults stream.old) (S.faults stream.new) }
    ensures file { result ≡ Status.ShelfFault → Rose (F.faults shelf.old) (F.faults shelf.new) }
    ensures write { result ≡ Status.WriteFault → Rose (K.faults out.old) (K.faults out.new) }
    ensures disk { result ≡ Status.JournalFault
        → IsTrue (reads (request_to_journal words.now))
        × Rose (J.faults disk.old) (J.faults disk.new) }
    ensures test { HasTestCause (tests (request_to_journal words.now))
        (met_tester ⟦<Recall<T> as Tester>⟧ tester.old tester.new) result }
    // How the tester is used, and what it remembers.
    ensures used { IsUsedFor (request_to_journal words.now) words.now
        (shown_by ⟦<Recall<T> as Tester>⟧ (remembering tester.old tester.new.remembered))
        (shown_by ⟦<Recall<T> as Tester>⟧ tester.new) }
    ensures recalled { IsRecalledBy (met_disk J.Disk disk.old disk.new)
        (request_to_journal words.now) words.now (S.left stream.old)
        tester.new.answers tester.new.remembered }
    ensures unasked { AreUnasked tester.new.remembered (T.answers tester.new.inner) }
    // What the words do not ask for is left as it was, and so are tester and disk by a refusal.
    ensures unread { IsLeftUnless (reads (request_to_journal words.now)) stream.old stream.new }
    ensures unloaded { IsLeftUnless (asks_file (request_to_journal words.now)) shelf.old shelf.new }
    ensures unkept { IsLeftUnless (reads (request_to_journal words.now)) disk.old disk.new }
    ensures untested { IsUntestedIfRefused
        (met_tester ⟦<Recall<T> as Tester>⟧ tester.old tester.new) result }
    ensures unopened { IsUnopenedIfRefused disk.old disk.new result }
    ensures untouched { (kept : _) → result ≡ Status.JournalRefused kept
        → J.told disk.new ≡ J.told disk.old }
    // With whatever status: the disk is as it was, or the search began, and a crash leaves no less than was kept.
    ensures held { IsHeldBy J.Disk disk.old disk.new (request_to_journal words.now) words.now
        (S.left stream.old) (F.files shelf.old) tester.new.answers }
    ensures is_split { T.is_split tester.new.inner ≡ false }
{
    match read_line(alloc, words) {
        Ok(request) => {
            let line = RequestLine {
                alloc,
                request: &request,
                words,
            };
            let ready = open_search(line, Means::Command, stream, shelf);
            conclude(rt, line, ready, tester, disk, out)
        }
        Err(fault) => say_answer(out, word_refusal(alloc, fault)),
    }
}

/// Tests, keeps and writes what a line asks for, or writes the line of what stands in its way, and returns the status.
fn conclude<R: Host, T: Tester, J: Disk, K: Sink>(
    rt: &R,
    line: RequestLine<'_>,
    ready: Result<Ready, Fault>,
    tester: &mut Recall<T>,
    disk: &mut J,
    out: &mut K,
) -> Status
    requires run { line.request.now.verb ≡ Run }
    requires sound { IfOk ready (IsSound line.request.now) }
    requires fresh { tester.old.answers ≡ [] }
    requires remembers { tester.old.remembered ≡ [] }
    requires is_split { T.is_split tester.old.inner ≡ false }
    ensures told { ConcludesReady (met_disk J.Disk disk.old disk.new) line.entry
        (met_tester ⟦<Recall<T> as Tester>⟧ tester.old tester.new) ready
        (met_sink K.Sink out.old out.new) result }
    ensures own { IfOk ready (λ _. (result ≢ Status.ReadFault) × (result ≢ Status.ShelfFault)) }
    ensures test { HasTestCause true
        (met_tester ⟦<Recall<T> as Tester>⟧ tester.old tester.new) result }
    ensures write { result ≡ Status.WriteFault → Rose (K.faults out.old) (K.faults out.new) }
    ensures disk { result ≡ Status.JournalFault → Rose (J.faults disk.old) (J.faults disk.new) }
    ensures used { IsUsedToTest line.entry (met_tester ⟦<Recall<T> as Tester>⟧
        (remembering tester.old tester.new.remembered) tester.new) }
    ensures recalled { IsRecalledReady (met_disk J.Disk disk.old disk.new) line.entry ready
        tester.new.answers tester.new.remembered }
    ensures unasked { AreUnasked tester.new.remembered (T.answers tester.new.inner) }
    ensures untested { IsUntestedIfRefused
        (met_tester ⟦<Recall<T> as Tester>⟧ tester.old tester.new) result }
    ensures unopened { IsUnopenedIfRefused disk.old disk.new result }
    ensures untouched { (kept : _) → result ≡ Status.JournalRefused kept
        → J.told disk.new ≡ J.told disk.old }
    ensures held { IsHeldReady J.Disk disk.old disk.new line.entry ready tester.new.answers }
    ensures is_split { T.is_split tester.new.inner ≡ false }
{
    match ready {
        Ok(Ready::Search(started)) => {
            let status = search(rt, line, started, tester, disk, out);
            // What the tester keeps of its answers is needed: none of the one below is on a remembered place.
            let _below = tester.inner();
            status
        }
        Ok(Ready::Told(answer)) => say_answer(out, Ok(answer)),
        Err(fault) => say_answer(out, Err(fault)),
    }
}
