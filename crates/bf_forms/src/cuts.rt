//! Words at the front of a line, and where a line is cut.
ghost use Rattle.std.specs.Prelude.{◌≡◌, ◌+◌, ◌==◌, ◌++◌, length, drop, codes, is_some, IfSome, IfNone, []};
ghost use Rattle.std.specs.List.{list_any, starts_with, before_first, after_first};
ghost use Rattle.bf_grammar.specs.Lines as lines;
ghost use Rattle.bf_grammar.specs.Forms as forms;
ghost use Rattle.bf_forms.specs.Answers.{IsPart, IsPartWhere, IsOfText};

use bf_grammar::StreamFault;
use memchr::memchr;

// What follows a word and the SP behind it.
#[tactic(auto, using(crate::proofs::Fronts::begins_with_both))]
pub(crate) fn behind_word<'a>(word: &[u8], text: &'a [u8]) -> Option<&'a [u8]>
    ensures { IsPartWhere (starts_with ◌==◌ text.now (word.now ++ codes " "))
        (drop (length word.now + 1) text.now) result }
{
    text.strip_prefix(word)?.strip_prefix(b" ")
}

/// Whether a text is this one.
pub fn is_text(wanted: &[u8], text: &[u8]) -> bool
    ensures { result ≡ lines.is_text wanted.now text.now }
{
    text.len() == wanted.len() && text.starts_with(wanted)
}

/// Whether the first word of a text is this one: it begins with the word, and ends or goes on with a space
/// there. Both tests stand in the place of each call, where the word is known: the first bytes tell most texts
/// apart.
#[inline(always)]
pub fn has_word(word: &[u8], text: &[u8]) -> bool
    ensures { result ≡ lines.has_word word.now text.now }
{
    if let ([wanted, ..], [first, ..]) = (word, text) {
        if wanted != first {
            return false;
        }
    }
    begins_with_word(word, text)
}

/// The same, by all bytes of the word.
#[inline(always)]
fn begins_with_word(word: &[u8], text: &[u8]) -> bool
    ensures { result ≡ lines.has_word word.now text.now }
{
    text.starts_with(word) && (text.len() == word.len() || text[word.len()] == b' ')
}

// What stands before the first such byte, or all; and what stands after it.
#[tactic(auto, using(crate::proofs::Fronts::first_byte_is))]
pub(crate) fn cut(byte: u8, text: &[u8]) -> (&[u8], Option<&[u8]>)
    ensures before { result.0.now ≡ before_first (λ b. b == byte) text.now }
    ensures found { is_some result.1 ≡ list_any (λ b. b == byte) text.now }
    ensures after { IfSome result.1 (λ rest. rest.now ≡ after_first (λ b. b == byte) text.now) }
    ensures none_after { IfNone result.1 (after_first (λ b. b == byte) text.now ≡ []) }
{
    match memchr(byte, text) {
        Some(place) => (&text[..place], Some(&text[place + 1..])),
        None => (text, None),
    }
}

/// What follows the first word of a line and its SP, which may be empty. A line without the word and
/// the SP is `Syntax`.
#[inline(always)]
pub fn text_after<'a>(line: u64, word: &[u8], text: &'a [u8]) -> Result<&'a [u8], StreamFault>
    ensures value { IsPart (forms.text_after line word.now text.now) result }
    ensures own { IsOfText result }
{
    behind_word(word, text).ok_or(StreamFault::Syntax { line })
}
