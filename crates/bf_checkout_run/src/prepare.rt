//! What stands before the tests: the stream with its contents, the file of a log, and the search that begins.
ghost use Rattle.std.specs.Prelude.{◌≡◌, [], is_some, IfOk, IsErrOf, IsTrue, OnErr};
ghost use Rattle.bf_io.specs.Causes.{FailsOnlyAt};
ghost use Rattle.bf_answers.specs.Devices.{IsLeftUnless};
ghost use Rattle.bf_answers.specs.Ready.{IsSound, TellsHistory};
ghost use Rattle.bf_checkout.specs.Checkouts.{grounds_of};
ghost use Rattle.bf_checkout.specs.Shops.{furnished};
ghost use Rattle.bf_checkout_run.specs.CheckingOut.{IsFurnishedFor, IsFurnishedIf, IsLeftByAnswer, TellsCheckout};
ghost use Rattle.bf_words.specs.declared.verb.Verb.TheVariants as Verb;

use bf_answers::{Fault, Means, Ready, RequestLine, refusal};
use bf_begin::{lent, load_file, start};
use bf_checkout::{Folder, FolderTester, Workshop};
use bf_grammar::Limits;
use bf_import::{Content, History, import_with_blobs};
use bf_io::{Shelf, Source};
use std::sync::Arc;

/// What a line is answered before any commit is tested, or the search that is to be tested. For a search the workshop
/// gets the content of the stream, which is read to its end; by an answer, and by an error, it is left as it was.
pub(crate) fn prepare<S: Source, F: Shelf, U: FolderTester<D>, D: Folder>(
    line: RequestLine<'_>,
    stream: &mut S,
    shelf: &mut F,
    shop: &mut Workshop<U, D>,
) -> Result<Ready, Fault>
    requires run { line.request.now.verb ≡ Verb.Run }
    requires fresh { U.answers shop.old.tester ≡ [] }
    ensures tells { IfOk result (TellsCheckout line.entry (F.files shelf.old) (S.left stream.old)) }
    ensures sound { IfOk result (IsSound line.entry.request.now) }
    ensures cause { FailsOnlyAt Fault.Read (S.faults stream.old) (S.faults stream.new) result }
    ensures asks { IsErrOf result Fault.Shelf → IsTrue (is_some line.entry.request.now.replay) }
    ensures file { FailsOnlyAt Fault.Shelf (F.faults shelf.old) (F.faults shelf.new) result }
    ensures unloaded { IsLeftUnless (is_some line.entry.request.now.replay) shelf.old shelf.new }
    ensures shop { shop.new ≡ furnished shop.old shop.new.content }
    ensures left { IfOk result (IsLeftByAnswer shop.old shop.new) }
    ensures err { OnErr result (shop.new ≡ shop.old) }
    ensures grounds { IfOk result
        (IsFurnishedFor (S.left stream.old) (grounds_of shop.new.content)) }
{
    match import_with_blobs(line.alloc, stream, Limits::standard()) {
        Ok(content) => {
            let history = content.history().share()?;
            let shared = Arc::new(line.alloc, content)?;
            let ready = prepare_over(line, history, shelf)?;
            furnish_for(&ready, shared, shop);
            Ok(ready)
        }
        Err(fault) => Ok(Ready::Told(refusal(line.alloc, fault)?)),
    }
}

/// Gives the workshop the content of a search; an answer leaves it.
fn furnish_for<U: FolderTester<D>, D: Folder>(
    ready: &Ready,
    content: Arc<Content>,
    shop: &mut Workshop<U, D>,
)
    requires fresh { U.answers shop.old.tester ≡ [] }
    ensures { IsFurnishedIf shop.old shop.new content.value ready.now }
{
    if let Ready::Search(_) = ready {
        shop.furnish(content);
    }
}

/// The same over a history: the file that the words name is loaded first.
fn prepare_over<F: Shelf>(
    line: RequestLine<'_>,
    history: History,
    shelf: &mut F,
) -> Result<Ready, Fault>
    requires run { line.request.now.verb ≡ Verb.Run }
    ensures tells { IfOk result (TellsHistory line.entry (F.files shelf.old) history) }
    ensures sound { IfOk result (IsSound line.entry.request.now) }
    ensures no_read { IsErrOf result Fault.Read → ⊥ }
    ensures asks { IsErrOf result Fault.Shelf → IsTrue (is_some line.entry.request.now.replay) }
    ensures file { FailsOnlyAt Fault.Shelf (F.faults shelf.old) (F.faults shelf.new) result }
    ensures unloaded { IsLeftUnless (is_some line.entry.request.now.replay) shelf.old shelf.new }
{
    let file = load_file(line.words, line.request.replay, shelf)?;
    start(line, lent(&file), history, Means::Command)
}
