//! The forms of what stands behind the first word of a line.
ghost use Rattle.std.specs.Prelude.{◌≡◌};
ghost use Rattle.std.specs.Char.{is_ascii_digit};
ghost use Rattle.std.specs.List.{list_all};
ghost use Rattle.bf_reading.specs.Answers.{IsPart};
ghost use Rattle.bf_claims.specs.Forms as forms;

use crate::kind::Kind;
use crate::line::{behind, first_blank, is_printable, number};

/// Whether what stands behind the first word of a line of this kind, which names no commit, has its form.
#[tactic(auto, unfolding(crate::specs::Forms::has_form))]
pub(crate) fn has_form(kind: Kind, text: &[u8]) -> bool
    ensures { result ≡ forms.has_form kind text.now }
{
    match kind {
        Kind::TermNew | Kind::TermOld => is_term(text),
        Kind::Retry | Kind::Repeat => is_few(number(text)),
        Kind::Made => is_time(text),
        _ => is_printable(text),
    }
}

fn is_term_letter(byte: u8) -> bool
    ensures { result ≡ forms.is_term_letter byte }
{
    byte.is_ascii_alphanumeric() || byte == b'-'
}

fn has_term_letters(text: &[u8]) -> bool
    ensures { result ≡ list_all forms.is_term_letter text.now }
{
    text.iter().all(|byte| is_term_letter(*byte))
}

/// Whether this is a term: 1 to 40 letters, digits or `-`, of which the first is no `-`.
fn is_term(text: &[u8]) -> bool
    ensures { result ≡ forms.is_term text.now }
{
    !text.is_empty() && text.len() <= 40 && has_term_letters(text) && !text.starts_with(b"-")
}

/// Whether this is a number from 1 to 99.
fn is_few(number: Option<u64>) -> bool
    ensures { result ≡ forms.is_few number }
{
    match number {
        Some(number) => 1 <= number && number <= 99,
        None => false,
    }
}

fn are_digits(text: &[u8]) -> bool
    ensures { result ≡ list_all is_ascii_digit text.now }
{
    text.iter().all(|byte| byte.is_ascii_digit())
}

/// What stands behind so many digits and a mark.
#[tactic(auto, unfolding(crate::specs::Forms::behind_digits))]
fn behind_digits<'a>(count: usize, mark: &[u8], text: &'a [u8]) -> Option<&'a [u8]>
    ensures { IsPart (forms.behind_digits count mark.now text.now) result }
{
    if text.len() < count {
        return None;
    }
    let (digits, rest) = text.split_at(count);
    if are_digits(digits) {
        behind(mark, rest)
    } else {
        None
    }
}

/// What stands behind a date.
#[tactic(auto, unfolding(crate::specs::Forms::behind_date))]
fn behind_date(text: &[u8]) -> Option<&[u8]>
    ensures { IsPart (forms.behind_date text.now) result }
{
    let month = behind_digits(4, b"-", text)?;
    let day = behind_digits(2, b"-", month)?;
    behind_digits(2, b"T", day)
}

/// What stands behind a time of day.
#[tactic(auto, unfolding(crate::specs::Forms::behind_clock))]
fn behind_clock(text: &[u8]) -> Option<&[u8]>
    ensures { IsPart (forms.behind_clock text.now) result }
{
    let minute = behind_digits(2, b":", text)?;
    let second = behind_digits(2, b":", minute)?;
    behind_digits(2, b"Z", second)
}

/// Whether this is a time in UTC, as `2026-11-30T10:00:00Z`.
#[tactic(auto, unfolding(crate::specs::Forms::is_time))]
fn is_time(text: &[u8]) -> bool
    ensures { result ≡ forms.is_time text.now }
{
    match behind_date(text) {
        Some(clock) => is_clock(clock),
        None => false,
    }
}

/// Whether this is a time of day, and nothing else.
fn is_clock(text: &[u8]) -> bool
    ensures { result ≡ forms.is_end (forms.behind_clock text.now) }
{
    match behind_clock(text) {
        Some(rest) => rest.is_empty(),
        None => false,
    }
}

/// How many tests were counted, of which so many were as the line says: `N of M`.
#[tactic(auto, unfolding(crate::specs::Forms::tally_in))]
pub(crate) fn tally_in(text: &[u8]) -> Option<u64>
    ensures { result ≡ forms.tally_in text.now }
{
    let end = first_blank(text)?;
    let (times, rest) = text.split_at(end);
    let times = number(times)?;
    let runs = number(behind(b" of ", rest)?)?;
    tally_of(times, runs)
}

/// The second number, where it may follow the first.
fn tally_of(times: u64, runs: u64) -> Option<u64>
    ensures { result ≡ forms.tally_of times runs }
{
    if 0 < runs && times <= runs {
        Some(runs)
    } else {
        None
    }
}
