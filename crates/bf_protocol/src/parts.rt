//! The parts of a text: the words of a line, and the lines of a text.
ghost use Rattle.std.specs.Prelude.{◌≡◌, ◌<◌, ◌++◌, [], ◌∷◌, length, IfOk, IfSome, MatchOption};
ghost use Rattle.bf_protocol.specs.Parts.{IsFirstLine, IsFirstWord};
ghost use Rattle.bf_protocol.specs.Requests as requests;

use bf_io::{Bytes, Word};
use memchr::memchr;
use std::alloc::{AllocError, Global};

/// The words of a line, parted by single blanks. There is at least one, and words may be empty.
pub fn words_of_line(alloc: Global, line: &[u8]) -> Result<Vec<Word>, AllocError>
    ensures { IfOk result (λ words. words.items ≡ requests.words_in line.now) }
{
    let mut words = Vec::new(alloc);
    let mut rest = line;
    while let Some((word, after)) = first_word(rest) {
        words.push(Bytes::from_slice(alloc, word)?)?;
        rest = after;
    }
    words.push(Bytes::from_slice(alloc, rest)?)?;
    Ok(words)
}

/// The word in front of a blank, and what stands behind the blank, where there is one.
fn first_word(text: &[u8]) -> Option<(&[u8], &[u8])>
    ensures word { MatchOption result (requests.parted text.now ≡ text.now ∷ [])
        (λ p. IsFirstWord text.now p.0.now p.1.now) }
    ensures shorter { IfSome result (λ p. length p.1.now < length text.now) }
{
    match memchr(b' ', text) {
        Some(end) => Some((&text[..end], &text[end + 1..])),
        None => None,
    }
}

/// The line in front of a text without its LF, and what stands behind it; none where no byte is left.
pub(crate) fn first_line(text: &[u8]) -> Option<(&[u8], &[u8])>
    ensures line { MatchOption result (text.now ≡ []) (λ p. IsFirstLine text.now p.0.now p.1.now) }
    ensures shorter { IfSome result (λ p. length p.1.now < length text.now) }
{
    if text.is_empty() {
        return None;
    }
    match memchr(b'\n', text) {
        Some(end) => Some((&text[..end], &text[end + 1..])),
        None => Some((text, &[])),
    }
}
