//! What the words of a line of `journal` ask for.
ghost use Rattle.std.specs.Prelude.{◌≡◌};
ghost use Rattle.bf_commands.specs.Journal as meant;
ghost use Rattle.bf_commands.specs.Journal.{request_to_journal};
ghost use Rattle.bf_words.specs.Words.{IsRead};

use bf_commands::{Order, read_words_for};
use bf_io::Word;
use bf_words::{Request, WordFault};
use std::alloc::Global;

/// The marks of a leg where the words give no number.
const ONE_MARK: u32 = 1;

/// The run that the words behind the first one ask for, in legs of one mark where they give no number.
pub(crate) fn read_line(alloc: Global, words: &[Word]) -> Result<Request, WordFault>
    ensures { IsRead (request_to_journal words.now) result }
{
    match read_words_for(alloc, Order::Journal, words) {
        Ok(request) => Ok(in_legs(request)),
        Err(fault) => Err(fault),
    }
}

/// The same run, in legs of one mark where it has none.
fn in_legs(request: Request) -> Request
    ensures { result ≡ meant.in_legs request }
{
    let mut request = request;
    request.leg = request.leg.max(ONE_MARK);
    request
}
