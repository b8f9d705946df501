//! The option by which each commit has the name that it had before it was exported.
ghost use Rattle.std.specs.Prelude.{◌≡◌};
ghost use Rattle.bf_commands.specs.Orders as orders;
ghost use Rattle.bf_grammar.specs.Limits.{IsWithin};

use bf_grammar::Limits;
use bf_io::Word;

/// Whether `--original-names` stands behind the name of the command, word 0.
pub fn asks_original_names(words: &[Word]) -> bool
    ensures { result ≡ orders.asks_original_names words.now }
{
    match words.get(1) {
        Some(word) => b"--original-names".as_slice() == word.as_slice(),
        None => false,
    }
}

/// The limits on the stream that a line of words asks for: those of the program, and how commits are named.
pub fn limits_asked(words: &[Word]) -> Limits
    ensures limits { result ≡ orders.limits_asked words.now }
    ensures within { IsWithin result }
{
    let limits = Limits::standard();
    if asks_original_names(words) {
        return limits.with_original_names();
    }
    limits
}
