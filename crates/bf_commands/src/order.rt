//! The commands that the first word of a line may give beside those of every line.
ghost use Rattle.std.specs.Prelude.{◌≡◌};
ghost use Rattle.bf_commands.specs.Orders as orders;
ghost use Rattle.bf_words.specs.Options.{verb_of};
ghost use Rattle.bf_words.specs.Words.{IsRead};

use bf_io::Word;
use bf_words::{Request, WordFault, read_words_behind};
use std::alloc::Global;

/// A command that stands before another one, or has words of its own.
#[derive(Clone, Copy, Debug, PartialEq, Eq)]
pub enum Order {
    /// `certify`: a certificate is printed in place of the log.
    Certify,
    /// `check`: a certificate is checked.
    Check,
    /// `checkout`: each commit is tested in a folder that holds exactly its files.
    Checkout,
    /// `journal`: outcomes are kept in a file, from which the same line goes on.
    Journal,
    /// `many`: several searches share their workers.
    Many,
    /// `serve`: requests are answered line by line.
    Serve,
}

/// The command that a word gives, where it is one of these.
#[tactic(auto, unfolding(crate::specs::Orders::order_of))]
pub fn order_of(word: &[u8]) -> Option<Order>
    ensures { result ≡ orders.order_of word.now }
{
    match word {
        b"certify" => Some(Order::Certify),
        b"check" => Some(Order::Check),
        b"checkout" => Some(Order::Checkout),
        b"journal" => Some(Order::Journal),
        b"many" => Some(Order::Many),
        b"serve" => Some(Order::Serve),
        _ => None,
    }
}

impl Order {
    /// Whether the command that a word gives may stand behind this one.
    pub fn may_stand_before(self, word: &[u8]) -> bool
        ensures { result ≡ orders.is_followed self (verb_of word.now) }
    {
        match self {
            Order::Certify => matches!(word, b"simulate" | b"run"),
            Order::Checkout | Order::Journal => matches!(word, b"run"),
            Order::Check | Order::Many | Order::Serve => false,
        }
    }
}

/// What the words behind this command ask for: they are read as a line of their own, and the indexes are those of
/// the whole line. Where another command stands there than may, word 1 is at fault, whatever else is.
#[tactic(auto, unfolding(crate::specs::Orders::request_of))]
pub fn read_words_for(alloc: Global, order: Order, words: &[Word]) -> Result<Request, WordFault>
    ensures { IsRead (orders.request_of order words.now) result }
{
    match words.get(1) {
        Some(verb) if order.may_stand_before(verb.as_slice()) => read_words_behind(alloc, words),
        _ => Err(WordFault::At { word: 1 }),
    }
}
