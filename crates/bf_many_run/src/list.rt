//! A list of searches: each line has the words of one, as `simulate` takes them.
ghost use Rattle.std.specs.Prelude.{◌≡◌, ◌<◌, ◌≤◌, [], ◌∷◌, ◌++◌, codes, length, Some, IfOk, IfErr, IfSome, MatchOption};
ghost use Rattle.bf_commands.specs.Many as many;
ghost use Rattle.bf_many_run.specs.Lists.{IsAskedAt, IsFirstLine, IsFirstWord, IsLineFault, IsListOf, IsReadLine, RefusesList};

use bf_answers::RequestLine;
use bf_io::{Bytes, Word};
use bf_words::{Choice, Request, Verb, WordFault, first_option, read_words};
use memchr::memchr;
use std::alloc::{AllocError, AllocFailed, Global};

/// The most searches of a list.
const MOST_SEARCHES: u32 = 64;

/// A line of a list: its words, behind the word `simulate`, and what they ask for.
#[derive(Drop)]
pub(crate) struct ListLine {
    pub words: Vec<Word>,
    pub request: Request,
}

impl ListLine {
    /// What the line asks for, lent.
    pub(crate) fn line(&self, alloc: Global) -> RequestLine<'_>
        ensures request { result.request.now ≡ self.now.request }
        ensures words { result.words.now ≡ self.now.words.items }
    {
        RequestLine {
            alloc,
            request: &self.request,
            words: self.words.as_slice(),
        }
    }
}

/// Why a list gives no searches.
#[derive(Clone, Copy, Debug, PartialEq, Eq)]
pub(crate) enum ListFault {
    /// The line of this number, from 1, asks for no search, or there are too many before it.
    Line { line: u32 },
    /// Memory ran out.
    NoMemory,
}

impl From<AllocError> for ListFault {
    ghost use Rattle.bf_many_run.specs.declared.list.ListFault.TheVariants as faults;

    ghost from_gives = { λ _ e. e ≡ faults.NoMemory };

    fn from(_: AllocError) -> ListFault {
        ListFault::NoMemory
    }
}

impl<T: Drop> From<AllocFailed<T>> for ListFault {
    ghost use Rattle.bf_many_run.specs.declared.list.ListFault.TheVariants as faults;

    ghost from_gives = { λ _ e. e ≡ faults.NoMemory };

    fn from(_: AllocFailed<T>) -> ListFault {
        ListFault::NoMemory
    }
}

/// The searches of a list, line by line. The first line that asks for none refuses it, or the 65th.
pub(crate) fn read_list(alloc: Global, text: &[u8]) -> Result<Vec<ListLine>, ListFault>
    ensures lines { IfOk result (λ lines. IsListOf text.now lines.items) }
    ensures refused { RefusesList text.now result }
{
    let mut lines = Vec::new(alloc);
    let mut rest = text;
    while let Some((line, after)) = first_line(rest) {
        let number = lines.len() as u32 + 1;
        lines.push(read_line(alloc, number, line)?)?;
        rest = after;
    }
    Ok(lines)
}

/// The search of a line, which has this number.
fn read_line(alloc: Global, number: u32, line: &[u8]) -> Result<ListLine, ListFault>
    requires { number ≤ 65 }
    ensures read { IfOk result (IsReadLine number line.now) }
    ensures refused { IfErr result (IsLineFault number (many.words_of_line line.now)) }
{
    let words = words_of_line(alloc, line)?;
    let request = request_of(alloc, number, words.as_slice())?;
    Ok(ListLine { words, request })
}

/// What the words of the line of this number ask for.
fn request_of(alloc: Global, number: u32, words: &[Word]) -> Result<Request, ListFault>
    requires some { 0 < length words.now }
    requires number { number ≤ 65 }
    ensures asked { IfOk result (IsAskedAt number words.now) }
    ensures refused { IfErr result (IsLineFault number words.now) }
{
    if number > MOST_SEARCHES {
        return Err(ListFault::Line { line: number });
    }
    match read_words(alloc, words) {
        Ok(request) if !asks_for_more(words) => Ok(request),
        Ok(_) | Err(WordFault::At { .. }) => Err(ListFault::Line { line: number }),
        Err(WordFault::NoMemory) => Err(ListFault::NoMemory),
    }
}

/// Whether words ask for something that a search among others has not.
fn asks_for_more(words: &[Word]) -> bool
    requires some { 0 < length words.now }
    requires size { length words.now ≤ 1000000 }
    ensures { result ≡ many.asks_for_more words.now }
{
    let options = [Choice::Workers, Choice::Leg, Choice::Trace, Choice::Replay];
    first_option(Verb::Simulate, words, &options).is_some()
}

/// The words of a line, parted by single blanks, behind the word `simulate`.
fn words_of_line(alloc: Global, line: &[u8]) -> Result<Vec<Word>, AllocError>
    ensures { IfOk result (λ words. words.items ≡ many.words_of_line line.now) }
{
    let mut words = Vec::new(alloc);
    words.push(Bytes::from_slice(alloc, b"simulate")?)?;
    let mut rest = line;
    while let Some((word, after)) = first_word(rest) {
        words.push(Bytes::from_slice(alloc, word)?)?;
        rest = after;
    }
    words.push(Bytes::from_slice(alloc, rest)?)?;
    Ok(words)
}

/// The line in front of a text without its LF, and what stands behind it; none where no byte is left.
fn first_line(text: &[u8]) -> Option<(&[u8], &[u8])>
    ensures line { MatchOption result (text.now ≡ []) (λ p. IsFirstLine text.now p.0.now p.1.now) }
    ensures shorter { IfSome result (λ p. length p.1.now < length text.now) }
{
    if text.is_empty() {
        return None;
    }
    match memchr(b'\n', text) {
        Some(end) => Some((&text[..end], &text[end + 1..])),
        None => Some((text, &[])),
    }
}

/// The word in front of a blank, and what stands behind the blank, where there is one.
fn first_word(text: &[u8]) -> Option<(&[u8], &[u8])>
    ensures word { MatchOption result (many.parted text.now ≡ text.now ∷ [])
        (λ p. IsFirstWord text.now p.0.now p.1.now) }
    ensures shorter { IfSome result (λ p. length p.1.now < length text.now) }
{
    match memchr(b' ', text) {
        Some(end) => Some((&text[..end], &text[end + 1..])),
        None => None,
    }
}
