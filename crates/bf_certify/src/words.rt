//! The words of the command `certify`.
ghost use Rattle.std.specs.Prelude.{◌≡◌, ◌<◌, ◌≤◌, [], ◌∷◌, drop, length};
ghost use Rattle.bf_commands.specs.Orders as orders;
ghost use Rattle.bf_words.specs.declared.options.Choice.TheVariants.{Leg, Trace};
ghost use Rattle.bf_words.specs.FirstOption.{first_option};
ghost use Rattle.bf_words.specs.Words.{IsRead};

use bf_commands::{Order, read_words_for};
use bf_io::Word;
use bf_words::{Choice, Request, Verb, WordFault, first_option};
use std::alloc::Global;

/// What the words behind the first one ask for: a search without legs and without a trace.
pub(crate) fn read_to_certify(alloc: Global, words: &[Word]) -> Result<Request, WordFault>
    ensures { IsRead (orders.request_to_certify words.now) result }
{
    let request = match read_words_for(alloc, Order::Certify, words) {
        Ok(request) => request,
        Err(fault) => return Err(fault),
    };
    match log_word(request.verb, words) {
        None => Ok(request),
        Some(index) => Err(WordFault::At { word: index + 1 }),
    }
}

/// The index of the first word that asks for legs or for a trace, counted from the second word on.
fn log_word(verb: Verb, words: &[Word]) -> Option<u32>
    requires some { 0 < length (drop 1 words.now) }
    requires size { length (drop 1 words.now) ≤ 1000000 }
    ensures { result ≡ first_option verb (Leg ∷ Trace ∷ []) (drop 1 words.now) }
{
    let options = [Choice::Leg, Choice::Trace];
    first_option(verb, words.get(1..).unwrap_or_default(), &options)
}
