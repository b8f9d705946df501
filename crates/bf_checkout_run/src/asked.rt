//! What the words of a line ask for.
ghost use Rattle.std.specs.Prelude.{◌≡◌, IfOk};
ghost use Rattle.bf_answers.specs.Steps.{HasPlan};
ghost use Rattle.bf_checkout_run.specs.CheckingOut.{asked_by};
ghost use Rattle.bf_words.specs.Words.{IsRead};

use bf_commands::{Order, read_words_for};
use bf_io::Word;
use bf_words::{Request, Verb, WordFault};
use std::alloc::Global;

/// What the words behind `checkout` ask for, by their indexes in the whole line. `run` alone may stand there; any
/// other command, or none, is at fault at word 1 before all else.
pub(crate) fn asked_by(alloc: Global, words: &[Word]) -> Result<Request, WordFault>
    ensures read { IsRead (asked_by words.now) result }
    ensures run { IfOk result (λ request. request.verb ≡ Verb.Run) }
    ensures plan { IfOk result (λ request. HasPlan request words.now) }
{
    read_words_for(alloc, Order::Checkout, words)
}
