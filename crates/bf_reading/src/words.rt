//! The words of a command line.
ghost use Rattle.std.specs.Prelude.{◌≡◌, ◌<◌, ◌≤◌, [], length, take, true, false, Some, IfOk, IfSome, MatchOption};
ghost use Rattle.std.specs.List.{list_any};
ghost use Rattle.bf_reading.specs.Reading as reading;
ghost use Rattle.bf_reading.specs.Answers.{Refuses, AreReadOn, AreReadBehind, with_word, words_inside, words_quoted, words_escaped, begins_word, begins_plain, is_special};

use crate::line::LineFault;
use bf_io::Bytes;
use memchr::memchr;
use std::alloc::Global;

/// The word in front of a text, and what stands behind it; none where no word is left.
pub(crate) fn next_word(alloc: Global, text: &[u8]) -> Result<Option<(Bytes, &[u8])>, LineFault>
    ensures words { IfOk result (λ next. MatchOption next (reading.words_of text.now ≡ Some [])
        (λ p. reading.words_of text.now ≡ with_word p.0 (reading.words_of p.1.now))) }
    ensures refused { Refuses result (reading.words_of text.now) }
    ensures shorter { IfOk result (λ next. IfSome next (λ p. length p.1.now < length text.now)) }
{
    let text = past_blanks(text);
    if text.is_empty() {
        return Ok(None);
    }
    let mut word = Bytes::new(alloc);
    let rest = take_word(&mut word, text)?;
    Ok(Some((word, rest)))
}

/// What stands behind the blanks in front of a text.
pub(crate) fn past_blanks(text: &[u8]) -> &[u8]
    ensures { result.now ≡ reading.past_blanks text.now }
{
    let mut rest = text;
    while let [first, after @ ..] = rest
        && is_blank(*first)
    {
        rest = after;
    }
    rest
}

/// Adds the bytes of the word in front of a text, and returns what stands behind it: nothing, or a blank.
fn take_word<'a>(word: &mut Bytes, text: &'a [u8]) -> Result<&'a [u8], LineFault>
    requires { begins_word text.now ≡ true }
    ensures words { IfOk result (AreReadBehind (words_inside word.old text.now) word.new) }
    ensures refused { Refuses result (words_inside word.old text.now) }
    ensures shorter { IfOk result (λ rest. length rest.now < length text.now) }
{
    let mut rest = take_part(word, text)?;
    while let [first, ..] = rest
        && !is_blank(*first)
    {
        rest = take_part(word, rest)?;
    }
    Ok(rest)
}

/// Adds what a part in front of a text stands for: quoted bytes, an escaped byte, or bytes that stand
/// for themselves.
fn take_part<'a>(word: &mut Bytes, text: &'a [u8]) -> Result<&'a [u8], LineFault>
    requires { begins_word text.now ≡ true }
    ensures words { IfOk result (AreReadOn (words_inside word.old text.now) word.new) }
    ensures refused { Refuses result (words_inside word.old text.now) }
    ensures shorter { IfOk result (λ rest. length rest.now < length text.now) }
{
    match text {
        [b'\'', quoted @ ..] => take_quoted(word, quoted),
        [b'\\', escaped @ ..] => take_escaped(word, escaped),
        _ => take_plain(word, text),
    }
}

/// Adds the bytes up to the next quote, and returns what stands behind it.
fn take_quoted<'a>(word: &mut Bytes, text: &'a [u8]) -> Result<&'a [u8], LineFault>
    ensures words { IfOk result (AreReadOn (words_quoted word.old text.now) word.new) }
    ensures refused { Refuses result (words_quoted word.old text.now) }
    ensures shorter { IfOk result (λ rest. length rest.now ≤ length text.now) }
{
    match memchr(b'\'', text) {
        Some(end) => {
            word.append(&text[..end])?;
            Ok(&text[end + 1..])
        }
        None => Err(LineFault::NoForm),
    }
}

/// Adds what a backslash stands for in front of this text: the next byte where that is `'` or `!`, and
/// else itself.
fn take_escaped<'a>(word: &mut Bytes, text: &'a [u8]) -> Result<&'a [u8], LineFault>
    ensures words { IfOk result (AreReadOn (words_escaped word.old text.now) word.new) }
    ensures refused { Refuses result (words_escaped word.old text.now) }
    ensures shorter { IfOk result (λ rest. length rest.now ≤ length text.now) }
{
    if let [byte, rest @ ..] = text
        && is_escaped(*byte)
    {
        word.push(*byte)?;
        return Ok(rest);
    }
    word.push(b'\\')?;
    Ok(text)
}

/// Adds the bytes in front of a text that stand for themselves.
fn take_plain<'a>(word: &mut Bytes, text: &'a [u8]) -> Result<&'a [u8], LineFault>
    requires { begins_plain text.now ≡ true }
    ensures words { IfOk result (AreReadOn (words_inside word.old text.now) word.new) }
    ensures refused { Refuses result (words_inside word.old text.now) }
    ensures shorter { IfOk result (λ rest. length rest.now < length text.now) }
{
    let (plain, rest) = text.split_at(plain_len(text));
    word.append(plain)?;
    Ok(rest)
}

/// How many bytes in front of a text stand for themselves.
fn plain_len(text: &[u8]) -> usize
    ensures bound { result ≤ length text.now }
    ensures plain { list_any is_special (take result text.now) ≡ false }
    ensures some { begins_plain text.now ≡ true → 0 < result }
{
    for (at, byte) in text.iter().enumerate() {
        if is_special(*byte) {
            return at;
        }
    }
    text.len()
}

fn is_blank(byte: u8) -> bool
    ensures { result ≡ reading.is_blank byte }
{
    matches!(byte, b' ' | b'\t')
}

/// Whether a byte stands for itself behind a backslash.
fn is_escaped(byte: u8) -> bool
    ensures { result ≡ reading.is_escaped byte }
{
    matches!(byte, b'\'' | b'!')
}

/// Whether a byte means something else outside of quotes than itself.
fn is_special(byte: u8) -> bool
    ensures { result ≡ is_special byte }
{
    matches!(byte, b' ' | b'\t' | b'\'' | b'\\')
}
