//! A line of a log.
ghost use Rattle.std.specs.Prelude.{◌≡◌, Some, IfOk, IfErr};
ghost use Rattle.bf_reading.specs.Reading as reading;
ghost use Rattle.bf_reading.specs.Answers.{Refuses, IsLineRefusal, IsPart, command_in, mark_in, line_of};

use crate::line::{LineFault, LogWord};
use crate::start::{behind_either, is_word, read_start};
use crate::words::{next_word, past_blanks};
use bf_io::Bytes;
use std::alloc::Global;

/// What a command line says; none for any other line.
pub(crate) fn read_line(alloc: Global, line: &[u8]) -> Result<Option<LogWord>, LineFault>
    ensures line { IfOk result (λ word. reading.read_line line.now ≡ line_of word) }
    ensures refused { IfErr result (λ fault. IsLineRefusal fault (reading.read_line line.now)) }
{
    match command_text(line) {
        Some(text) => Ok(Some(read_command(alloc, text)?)),
        None => Ok(None),
    }
}

/// What stands behind the front of a command line; any other line has none.
#[tactic(auto, unfolding(crate::specs::Reading::command_text))]
fn command_text(line: &[u8]) -> Option<&[u8]>
    ensures { IsPart (reading.command_text line.now) result }
{
    match behind_either(b"git bisect", b"git-bisect", past_blanks(line)) {
        Some([b' ' | b'\t', text @ ..]) => Some(text),
        _ => None,
    }
}

/// Reads what stands behind the front of a command line.
fn read_command(alloc: Global, text: &[u8]) -> Result<LogWord, LineFault>
    ensures word { IfOk result (λ word. command_in text.now ≡ Some word) }
    ensures refused { Refuses result (command_in text.now) }
{
    let Some((word, rest)) = next_word(alloc, text)? else {
        return Err(LineFault::NoForm);
    };
    if is_word(b"start", word.as_slice()) {
        read_start(alloc, rest)
    } else {
        read_mark(alloc, word, rest)
    }
}

/// Reads what follows the word of a mark: one name.
fn read_mark(alloc: Global, term: Bytes, text: &[u8]) -> Result<LogWord, LineFault>
    ensures word { IfOk result (λ word. mark_in term text.now ≡ Some word) }
    ensures refused { Refuses result (mark_in term text.now) }
{
    let Some((rev, rest)) = next_word(alloc, text)? else {
        return Err(LineFault::NoForm);
    };
    let is_whole = next_word(alloc, rest)?.is_none();
    if !is_whole || is_option(term.as_slice()) || is_option(rev.as_slice()) {
        return Err(LineFault::NoForm);
    }
    Ok(LogWord::MarkWord { term, rev })
}

/// Whether a word begins with `-`.
fn is_option(word: &[u8]) -> bool
    ensures { result ≡ reading.first_is_dash word.now }
{
    word.starts_with(b"-")
}
