//! The subject of a commit.
ghost use Rattle.std.specs.Prelude.{◌≡◌, IfOk};
ghost use Rattle.bf_grammar.specs.Lines.{front_line};
ghost use Rattle.bf_history.specs.Bodies.{without_empty_lines, subject_of};

use bf_io::Bytes;
use memchr::memchr;
use std::alloc::AllocError;

/// The most bytes that stay behind a subject in the memory that it takes.
const MOST_BEHIND: usize = 16;

/// The subject of a commit with this message: its first line that has a byte, without its LF. It is empty
/// where no line has one. A message that has little behind its first line is cut, and any other copied. The
/// only error is want of memory.
#[tactic(auto, using(crate::proofs::Fronts::subject_found))]
pub fn into_subject(message: Bytes) -> Result<Bytes, AllocError>
    ensures { IfOk result (λ subject. subject ≡ subject_of message) }
{
    let alloc = message.allocator();
    let text = message.as_slice();
    match memchr(b'\n', text) {
        Some(end) if end > 0 && text.len() - end <= MOST_BEHIND => {
            let mut items = message.into_vec();
            items.truncate(end);
            Ok(Bytes::from_vec(alloc, items))
        }
        _ => Bytes::from_slice(alloc, subject_of(text)),
    }
}

/// The first line that has a byte, without its LF.
fn subject_of(message: &[u8]) -> &[u8]
    ensures { result.now ≡ subject_of message.now }
{
    front_line(without_empty_lines(message))
}

/// What stands from the first line on that has a byte.
fn without_empty_lines(message: &[u8]) -> &[u8]
    ensures { result.now ≡ without_empty_lines message.now }
{
    let mut text = message;
    while let [b'\n', rest @ ..] = text {
        text = rest;
    }
    text
}

/// The bytes up to the first LF, or all.
#[tactic(auto, using(crate::proofs::Fronts::front_found, crate::proofs::Fronts::front_whole))]
fn front_line(text: &[u8]) -> &[u8]
    ensures { result.now ≡ front_line text.now }
{
    match memchr(b'\n', text) {
        Some(end) => &text[..end],
        None => text,
    }
}
