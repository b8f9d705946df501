//! The parts of a line that stands before the certificate.
ghost use Rattle.std.specs.Prelude.{◌≡◌, ◌<◌, ◌≤◌, length, IfSome};
ghost use Rattle.std.specs.List.{list_all, position};
ghost use Rattle.bf_reading.specs.Answers.{IsPart};
ghost use Rattle.bf_reading.specs.Reading.{behind};
ghost use Rattle.bf_claims.specs.Lines as lines;
ghost use Rattle.bf_claims.specs.Lines.{IsSplit};

use crate::kind::{Kind, kind_named};
use bf_io::decimal;

/// What a line says, without its LF.
#[tactic(auto, unfolding(crate::specs::Lines::without_end))]
pub(crate) fn without_end(line: &[u8]) -> Option<&[u8]>
    ensures { IsPart (lines.without_end line.now) result }
{
    line.strip_suffix(b"\n")
}

/// The kind of a line, and what stands behind its first word.
#[tactic(auto, unfolding(crate::specs::Lines::kind_in))]
pub(crate) fn kind_in(text: &[u8]) -> Option<(Kind, &[u8])>
    ensures { IsSplit (lines.kind_in text.now) result }
{
    let end = first_blank(text)?;
    let kind = kind_named(&text[..end])?;
    Some((kind, &text[end + 1..]))
}

/// The index of the first blank.
pub(crate) fn first_blank(text: &[u8]) -> Option<usize>
    ensures value { result ≡ position lines.is_blank text.now }
    ensures within { IfSome result (λ end. end < length text.now) }
{
    text.iter().position(|byte| *byte == b' ')
}

pub(crate) fn is_printable(text: &[u8]) -> bool
    ensures { result ≡ list_all lines.is_printable text.now }
{
    text.iter().all(|byte| (b' '..=b'~').contains(byte))
}

/// Whether a zero stands before other digits.
fn is_padded(text: &[u8]) -> bool
    ensures { result ≡ lines.is_padded text.now }
{
    text.starts_with(b"0") && text.len() > 1
}

/// The number that a text writes, without zeros before it.
#[tactic(auto, unfolding(crate::specs::Lines::number))]
pub(crate) fn number(text: &[u8]) -> Option<u64>
    ensures { result ≡ lines.number text.now }
{
    if is_padded(text) { None } else { decimal(text) }
}

/// The status behind a name.
#[tactic(auto, unfolding(crate::specs::Lines::status_in))]
pub(crate) fn status_in(text: &[u8]) -> Option<u64>
    ensures { result ≡ lines.status_in text.now }
{
    number(behind(b" ", text)?)
}

/// What stands behind a word.
pub(crate) fn behind<'a>(word: &[u8], text: &'a [u8]) -> Option<&'a [u8]>
    ensures part { IsPart (behind word.now text.now) result }
    ensures shorter { IfSome result (λ rest. length rest.now ≤ length text.now) }
{
    text.strip_prefix(word)
}
