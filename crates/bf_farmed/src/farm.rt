//! The top call of all commands.
//!
//! The order of a line says what the call does and which devices it asks for (`IsDone`, `asks_of`). So a further command
//! brings an arm to each, and no clause of `farm_main` changes.
ghost use Rattle.std.specs.Prelude.{◌≡◌, [], false, All, IsTrue};
ghost use Rattle.bf_io.specs.Causes.{Rose};
ghost use Rattle.bf_output.specs.Shown.{shown_by};
ghost use Rattle.bf_answers.specs.Answers.{IsBeforeSearch, IsUntestedIfRefused};
ghost use Rattle.bf_answers.specs.Devices.{IsLeftUnless, met, met_shelf, met_sink, met_source, met_tester};
ghost use Rattle.bf_checkout.specs.Checkouts.{grounds_of};
ghost use Rattle.bf_checkout.specs.Shops.{AreTestedIn};
ghost use Rattle.bf_checkout_run.specs.CheckingOut.{HasGroundsOf};
ghost use Rattle.bf_journal_run.specs.Journalling.{AreUnasked};
ghost use Rattle.bf_journal_run.specs.Legs.{met_disk};
ghost use Rattle.bf_journal_run.specs.Searching.{IsUnopenedIfRefused};
ghost use Rattle.bf_journal.specs.Recalling.{IsOwn, remembering};
ghost use Rattle.bf_farmed.specs.Farming as farming;
ghost use Rattle.bf_farmed.specs.Farming.{IsDiskHeld, IsDone, asks_in, asks_of, farm_met};

use bf_answers::word_at;
use bf_certify::{certify, check};
use bf_checkout::{Folder, FolderTester, Workshop};
use bf_checkout_run::checkout;
use bf_commands::{Order, order_of};
use bf_io::{Shelf, Sink, Source, Word};
use bf_journal::{Disk, Recall};
use bf_journal_run::journal;
use bf_many_run::many;
use bf_output::Status;
use bf_program::bisect_main;
use bf_serve_run::serve;
use bf_tester::{Host, Tester};
use std::alloc::Global;

/// The program with all of its commands: the first word says which one it is. `certify` searches as the words behind it
/// say and prints the certificate of the first bad commit, `check` tells whether a certificate holds, `checkout` tests
/// each commit by the workshop, in a folder that holds exactly its files, `journal` keeps each outcome on the disk and
/// goes on from those that are kept, `many` searches as each line of a file says, by workers that the searches share,
/// `serve` answers the requests behind the stream, and every other line has the answer of `bisect_main`.
///
/// The status is `ReadFault` only where the count of faults of the stream rose, `ShelfFault` only where that of the
/// shelf did, `WriteFault` only where that of the sink did, `JournalFault` only where that of the disk did, and
/// `TestFault` only where the command tests and that of the tester did, or that of the workshop in `checkout`. Want of
/// memory may be answered at any point. The stream is read, the shelf asked, and the tester, the workshop and the disk
/// used only by the commands that ask for them.
///
/// Where no count of faults rose, the status and the text are those of the command, or memory ran out.
pub fn farm_main<
    R: Host,
    S: Source,
    F: Shelf,
    T: Tester,
    U: FolderTester<D>,
    D: Folder,
    J: Disk,
    K: Sink,
>(
    rt: &R,
    alloc: Global,
    words: &[Word],
    stream: &mut S,
    shelf: &mut F,
    tester: &mut Recall<T>,
    shop: &mut Workshop<U, D>,
    disk: &mut J,
    out: &mut K,
) -> Status
    requires fresh { tester.old.answers ≡ [] }
    requires remembers { tester.old.remembered ≡ [] }
    requires whole { T.is_split tester.old.inner ≡ false }
    requires shop_fresh { U.answers shop.old.tester ≡ [] }
    requires shop_whole { U.is_split shop.old.tester ≡ false }
    // What it answers, prints and remembers, and how it uses the tester and the workshop.
    ensures done { let farm = farm_met (met words.now
        (met_source S.Source stream.old stream.new) (met_shelf F.Shelf shelf.old shelf.new)
        (met_tester ⟦<Recall<T> as Tester>⟧ tester.old tester.new)
        (met_sink K.Sink out.old out.new))
        (met_tester ⟦<Workshop<U, D> as Tester>⟧ shop.old shop.new)
        (met_disk J.Disk disk.old disk.new)
        tester.new.remembered
        (shown_by ⟦<Recall<T> as Tester>⟧ (remembering tester.old tester.new.remembered)) in
        IsDone (farming.order_in words.now) farm result }
    // Each answer on a place that is not remembered is that of the tester below, which has no other.
    ensures own { All (IsOwn tester.new.remembered (T.answers tester.new.inner)) tester.new.answers }
    ensures unasked { AreUnasked tester.new.remembered (T.answers tester.new.inner) }
    ensures tested_in { AreTestedIn shop.new.content
        (U.tested_in shop.new.tester) (U.answers shop.new.tester) }
    ensures grounds { let grounds = grounds_of shop.new.content in
        HasGroundsOf (S.left stream.old) (U.answers shop.new.tester) grounds }
    // A fault of a device is answered only where the words ask for it, and its count of faults rose.
    ensures read { result ≡ Status.ReadFault
        → IsTrue (asks_in words.now).stream × Rose (S.faults stream.old) (S.faults stream.new) }
    ensures file { result ≡ Status.ShelfFault
        → IsTrue (asks_in words.now).file × Rose (F.faults shelf.old) (F.faults shelf.new) }
    ensures write { result ≡ Status.WriteFault → Rose (K.faults out.old) (K.faults out.new) }
    ensures disk { result ≡ Status.JournalFault
        → IsTrue (asks_in words.now).disk × Rose (J.faults disk.old) (J.faults disk.new) }
    // What the words do not ask for is left as it was.
    ensures unread { IsLeftUnless (asks_in words.now).stream stream.old stream.new }
    ensures unloaded { IsLeftUnless (asks_in words.now).file shelf.old shelf.new }
    ensures unfurnished { IsLeftUnless (asks_in words.now).shop shop.old shop.new }
    ensures unkept { IsLeftUnless (asks_in words.now).disk disk.old disk.new }
    // A refusal leaves the testers, the disk, and the journal of another run.
    ensures untested { IsUntestedIfRefused
        (met_tester ⟦<Recall<T> as Tester>⟧ tester.old tester.new) result }
    ensures shop_untouched { IsBeforeSearch result → shop.new ≡ shop.old }
    ensures unopened { IsUnopenedIfRefused disk.old disk.new result }
    ensures untouched { (kept : _) → result ≡ Status.JournalRefused kept
        → J.told disk.new ≡ J.told disk.old }
    // With whatever status a crash leaves no less than the disk kept.
    ensures held { IsDiskHeld J.Disk disk.old disk.new (farming.order_in words.now) words.now
        (S.left stream.old) (F.files shelf.old) tester.new.answers }
    // No tester of a worker is apart.
    ensures is_split { T.is_split tester.new.inner ≡ false }
    ensures shop_is_split { U.is_split shop.new.tester ≡ false }
{
    let asked = OrderLine {
        alloc,
        words,
        order: order_in(words),
    };
    let status = carry_out(rt, asked, stream, shelf, tester, shop, disk, out);
    // What their types keep of their answers is told.
    let _below = tester.inner();
    let _tested = shop.tester();
    status
}

/// A line of words with the order that it gives, and where the answer has its memory.
#[derive(Clone, Copy)]
struct OrderLine<'a> {
    alloc: Global,
    words: &'a [Word],
    order: Option<Order>,
}

/// The order of a line, where its first word gives one.
fn order_in(words: &[Word]) -> Option<Order>
    ensures { result ≡ farming.order_in words.now }
{
    order_of(word_at(words, 0))
}

/// Answers a line by the order that it is given.
fn carry_out<
    R: Host,
    S: Source,
    F: Shelf,
    T: Tester,
    U: FolderTester<D>,
    D: Folder,
    J: Disk,
    K: Sink,
>(
    rt: &R,
    asked: OrderLine<'_>,
    stream: &mut S,
    shelf: &mut F,
    tester: &mut Recall<T>,
    shop: &mut Workshop<U, D>,
    disk: &mut J,
    out: &mut K,
) -> Status
    requires fresh { tester.old.answers ≡ [] }
    requires remembers { tester.old.remembered ≡ [] }
    requires whole { T.is_split tester.old.inner ≡ false }
    requires shop_fresh { U.answers shop.old.tester ≡ [] }
    requires shop_whole { U.is_split shop.old.tester ≡ false }
    ensures done { let farm = farm_met (met asked.entry.words.now
        (met_source S.Source stream.old stream.new) (met_shelf F.Shelf shelf.old shelf.new)
        (met_tester ⟦<Recall<T> as Tester>⟧ tester.old tester.new)
        (met_sink K.Sink out.old out.new))
        (met_tester ⟦<Workshop<U, D> as Tester>⟧ shop.old shop.new)
        (met_disk J.Disk disk.old disk.new)
        tester.new.remembered
        (shown_by ⟦<Recall<T> as Tester>⟧ (remembering tester.old tester.new.remembered)) in
        IsDone asked.entry.order farm result }
    ensures grounds { let grounds = grounds_of shop.new.content in
        HasGroundsOf (S.left stream.old) (U.answers shop.new.tester) grounds }
    ensures read { result ≡ Status.ReadFault → Rose (S.faults stream.old) (S.faults stream.new) }
    ensures file { result ≡ Status.ShelfFault → Rose (F.faults shelf.old) (F.faults shelf.new) }
    ensures write { result ≡ Status.WriteFault → Rose (K.faults out.old) (K.faults out.new) }
    ensures disk { result ≡ Status.JournalFault
        → IsTrue (asks_of asked.entry.order asked.entry.words.now).disk
        × Rose (J.faults disk.old) (J.faults disk.new) }
    ensures unread { IsLeftUnless (asks_of asked.entry.order asked.entry.words.now).stream
        stream.old stream.new }
    ensures unloaded { IsLeftUnless (asks_of asked.entry.order asked.entry.words.now).file
        shelf.old shelf.new }
    ensures unfurnished { IsLeftUnless (asks_of asked.entry.order asked.entry.words.now).shop
        shop.old shop.new }
    ensures unkept { IsLeftUnless (asks_of asked.entry.order asked.entry.words.now).disk
        disk.old disk.new }
    ensures untested { IsUntestedIfRefused
        (met_tester ⟦<Recall<T> as Tester>⟧ tester.old tester.new) result }
    ensures shop_untouched { IsBeforeSearch result → shop.new ≡ shop.old }
    ensures unopened { IsUnopenedIfRefused disk.old disk.new result }
    ensures untouched { (kept : _) → result ≡ Status.JournalRefused kept
        → J.told disk.new ≡ J.told disk.old }
    ensures held { IsDiskHeld J.Disk disk.old disk.new asked.entry.order asked.entry.words.now
        (S.left stream.old) (F.files shelf.old) tester.new.answers }
    ensures is_split { T.is_split tester.new.inner ≡ false }
    ensures shop_is_split { U.is_split shop.new.tester ≡ false }
{
    let OrderLine {
        alloc,
        words,
        order,
    } = asked;
    match order {
        None => bisect_main(rt, alloc, words, stream, shelf, tester, out),
        Some(Order::Certify) => certify(rt, alloc, words, stream, shelf, tester, out),
        Some(Order::Check) => check(alloc, words, stream, shelf, out),
        Some(Order::Checkout) => checkout(rt, alloc, words, stream, shelf, shop, out),
        Some(Order::Journal) => journal(rt, alloc, words, stream, shelf, tester, disk, out),
        Some(Order::Many) => many(rt, alloc, words, stream, shelf, out),
        Some(Order::Serve) => serve(alloc, words, stream, shelf, out),
    }
}
