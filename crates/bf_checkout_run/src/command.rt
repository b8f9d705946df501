//! The command `checkout`.
ghost use Rattle.std.specs.Prelude.{◌≡◌, ◌≢◌, false, [], Ok};
ghost use Rattle.bf_io.specs.Causes.{Rose};
ghost use Rattle.bf_output.specs.Output.{IsUsedFor, asks_file, reads, tests};
ghost use Rattle.bf_output.specs.Shown.{shown_by};
ghost use Rattle.bf_answers.specs.Answers.{Answers, HasTestCause, IsBeforeSearch, IsComplete, IsUntestedIfRefused};
ghost use Rattle.bf_answers.specs.Devices.{IsLeftUnless, met, met_shelf, met_sink, met_source, met_tester};
ghost use Rattle.bf_answers.specs.Steps.{HasPlan};
ghost use Rattle.bf_checkout.specs.Checkouts.{grounds_of};
ghost use Rattle.bf_checkout.specs.Shops.{AreTestedIn};
ghost use Rattle.bf_checkout_run.specs.CheckingOut.{HasGroundsOf, asked_by, checking_out, to_checkout};
ghost use Rattle.bf_searches.specs.Lines.{HasTestCauseIn, IsUsedIn};
ghost use Rattle.bf_words.specs.declared.verb.Verb.TheVariants as Verb;

use crate::asked;
use crate::prepare::prepare;
use bf_answers::{Ready, RequestLine, say_answer, word_refusal};
use bf_checkout::{Folder, FolderTester, Workshop};
use bf_io::{Shelf, Sink, Source, Word};
use bf_output::Status;
use bf_searches::search;
use bf_tester::{Host, Tester};
use std::alloc::Global;

/// Searches as the words behind the first one say, which are those of `run`, and tests each commit by the workshop,
/// in a folder that holds exactly its files. It prints what `run` prints.
///
/// The stream is read to its end before the workshop is used. A file that lacks its content is refused with
/// `NoContent`. The status is `ReadFault` only where the count of faults of the stream rose, `ShelfFault` only where
/// that of the shelf did, `WriteFault` only where that of the sink did, and `TestFault` only where that of the workshop
/// did. Want of memory may be answered at any point. Where the workshop has answers afterwards, its grounds are those
/// of the stream's content, and the place of each answer was tested in a folder, with the tree that the content has
/// there.
pub fn checkout<R: Host, S: Source, F: Shelf, U: FolderTester<D>, D: Folder, K: Sink>(
    rt: &R,
    alloc: Global,
    words: &[Word],
    stream: &mut S,
    shelf: &mut F,
    shop: &mut Workshop<U, D>,
    out: &mut K,
) -> Status
    requires fresh { U.answers shop.old.tester ≡ [] }
    requires whole { U.is_split shop.old.tester ≡ false }
    // What it answers.
    ensures answers { let met = met words.now (met_source S.Source stream.old stream.new)
        (met_shelf F.Shelf shelf.old shelf.new)
        (met_tester ⟦<Workshop<U, D> as Tester>⟧ shop.old shop.new)
        (met_sink K.Sink out.old out.new) in
        Answers (to_checkout met) met result }
    ensures complete { let met = met words.now (met_source S.Source stream.old stream.new)
        (met_shelf F.Shelf shelf.old shelf.new)
        (met_tester ⟦<Workshop<U, D> as Tester>⟧ shop.old shop.new)
        (met_sink K.Sink out.old out.new) in
        IsComplete (to_checkout met) met result }
    // A fault of a device is answered only where its count of faults rose.
    ensures read { result ≡ Status.ReadFault → Rose (S.faults stream.old) (S.faults stream.new) }
    ensures file { result ≡ Status.ShelfFault → Rose (F.faults shelf.old) (F.faults shelf.new) }
    ensures write { result ≡ Status.WriteFault → Rose (K.faults out.old) (K.faults out.new) }
    ensures no_journal { result ≢ Status.JournalFault }
    ensures test { let shops = met_tester ⟦<Workshop<U, D> as Tester>⟧ shop.old shop.new in
        HasTestCause (tests (asked_by words.now)) shops result }
    // What the words do not ask for is left as it was, and so is the workshop by a refusal.
    ensures used { let by = ⟦<Workshop<U, D> as Tester>⟧ in
        IsUsedFor (asked_by words.now) words.now (shown_by by shop.old) (shown_by by shop.new) }
    ensures unread { IsLeftUnless (reads (asked_by words.now)) stream.old stream.new }
    ensures unloaded { IsLeftUnless (asks_file (asked_by words.now)) shelf.old shelf.new }
    ensures unfurnished { IsLeftUnless (reads (asked_by words.now)) shop.old shop.new }
    ensures untested { let shops = met_tester ⟦<Workshop<U, D> as Tester>⟧ shop.old shop.new in
        IsUntestedIfRefused shops result }
    ensures untouched { IsBeforeSearch result → shop.new ≡ shop.old }
    // What the workshop tested in.
    ensures is_split { U.is_split shop.new.tester ≡ false }
    ensures grounds { let grounds = grounds_of shop.new.content in
        HasGroundsOf (S.left stream.old) (U.answers shop.new.tester) grounds }
    ensures tested_in { AreTestedIn shop.new.content
        (U.tested_in shop.new.tester) (U.answers shop.new.tester) }
{
    match asked::asked_by(alloc, words) {
        Ok(request) => {
            let line = RequestLine {
                alloc,
                request: &request,
                words,
            };
            let status = checkout_line(rt, line, stream, shelf, shop, out);
            // What its type keeps is told: where its answers were tested.
            let _tested = shop.tester();
            status
        }
        Err(fault) => {
            let _tested = shop.tester();
            say_answer(out, word_refusal(alloc, fault))
        }
    }
}

/// The same of words that ask for a run.
fn checkout_line<R: Host, S: Source, F: Shelf, U: FolderTester<D>, D: Folder, K: Sink>(
    rt: &R,
    line: RequestLine<'_>,
    stream: &mut S,
    shelf: &mut F,
    shop: &mut Workshop<U, D>,
    out: &mut K,
) -> Status
    requires run { line.request.now.verb ≡ Verb.Run }
    requires plan { HasPlan line.request.now line.words.now }
    requires fresh { U.answers shop.old.tester ≡ [] }
    requires whole { U.is_split shop.old.tester ≡ false }
    ensures answers { let met = met line.entry.words.now (met_source S.Source stream.old stream.new)
        (met_shelf F.Shelf shelf.old shelf.new)
        (met_tester ⟦<Workshop<U, D> as Tester>⟧ shop.old shop.new)
        (met_sink K.Sink out.old out.new) in
        Answers (checking_out (Ok line.entry.request.now) met) met result }
    ensures write { result ≡ Status.WriteFault → Rose (K.faults out.old) (K.faults out.new) }
    ensures no_journal { result ≢ Status.JournalFault }
    ensures test { let shops = met_tester ⟦<Workshop<U, D> as Tester>⟧ shop.old shop.new in
        HasTestCauseIn line.entry shops result }
    ensures used { IsUsedIn line.entry (met_tester ⟦<Workshop<U, D> as Tester>⟧ shop.old shop.new) }
    ensures unloaded { IsLeftUnless (asks_file (Ok line.entry.request.now)) shelf.old shelf.new }
    ensures untested { let shops = met_tester ⟦<Workshop<U, D> as Tester>⟧ shop.old shop.new in
        IsUntestedIfRefused shops result }
    ensures untouched { IsBeforeSearch result → shop.new ≡ shop.old }
    ensures is_split { U.is_split shop.new.tester ≡ false }
    ensures grounds { let grounds = grounds_of shop.new.content in
        HasGroundsOf (S.left stream.old) (U.answers shop.new.tester) grounds }
{
    match prepare(line, stream, shelf, shop) {
        Ok(Ready::Search(started)) => search(rt, line, started, shop, out),
        Ok(Ready::Told(answer)) => say_answer(out, Ok(answer)),
        Err(fault) => say_answer(out, Err(fault)),
    }
}
