//! Who made a commit, and when.
ghost use Rattle.std.specs.Prelude.{◌≡◌, ◌==◌, ◌||◌};
ghost use Rattle.std.specs.List.{list_any, list_all};
ghost use Rattle.std.specs.Char.{is_ascii_digit};
ghost use Rattle.bf_grammar.specs.Forms as forms;
ghost use Rattle.bf_forms.specs.Answers.{IsPart, IsTimeIn, IsOfText};

use crate::cuts::{cut, text_after};
use bf_grammar::StreamFault;
use bf_io::decimal;
use memchr::memchr2;

// The most digits of the seconds of a time.
const MOST_SECONDS: usize = 18;

// The greatest value of the four digits of a zone.
const MOST_ZONE: u64 = 1400;

/// The ident of an `author` or `committer` line: an optional name that ends with SP, `<`, an email,
/// `> ` and a time. Name and email hold no `<`, `>` or NUL. The time is 1 to 18 digits of seconds, SP,
/// a sign and four digits of value at most 1400. An ident with a time in another form is
/// `Unsupported`, and any other line `Syntax`.
#[inline(always)]
#[tactic(auto, unfolding(bf_grammar::specs::Forms::ident_of))]
pub fn ident_of<'a>(line: u64, word: &[u8], text: &'a [u8]) -> Result<&'a [u8], StreamFault>
    ensures value { IsPart (forms.ident_of line word.now text.now) result }
    ensures own { IsOfText result }
{
    let ident = text_after(line, word, text)?;
    match time_in(ident) {
        None => Err(StreamFault::Syntax { line }),
        Some(time) if is_time(time) => Ok(ident),
        Some(_) => Err(StreamFault::Unsupported { line }),
    }
}

// What stands in the place of the time, where the name and the email are in their form.
fn time_in(ident: &[u8]) -> Option<&[u8]>
    ensures { IsTimeIn ident.now result }
{
    let (name, behind_less) = cut(b'<', ident);
    let (email, behind_greater) = cut(b'>', behind_less?);
    let time = behind_greater?.strip_prefix(b" ")?;
    (is_name(name) && is_email(email)).then_some(time)
}

fn is_name(name: &[u8]) -> bool
    ensures { result ≡ forms.is_name name.now }
{
    (name.is_empty() || name.ends_with(b" ")) && !has_either(b'>', 0, name)
}

fn is_email(email: &[u8]) -> bool
    ensures { result ≡ forms.is_email email.now }
{
    !has_either(b'<', 0, email)
}

// Whether one of two bytes stands in a text.
#[tactic(auto, using(crate::proofs::Fronts::first_byte_is))]
fn has_either(first: u8, second: u8, text: &[u8]) -> bool
    ensures { result ≡ list_any (λ byte. byte == first || byte == second) text.now }
{
    memchr2(first, second, text).is_some()
}

fn is_time(text: &[u8]) -> bool
    ensures { result ≡ forms.is_time text.now }
{
    match cut(b' ', text) {
        (seconds, Some(zone)) => is_seconds(seconds) && is_zone(zone),
        (_, None) => false,
    }
}

fn is_seconds(text: &[u8]) -> bool
    ensures { result ≡ forms.is_seconds text.now }
{
    !text.is_empty() && text.len() <= MOST_SECONDS && is_all_digits(text)
}

fn is_all_digits(text: &[u8]) -> bool
    ensures { result ≡ list_all is_ascii_digit text.now }
{
    text.iter().all(|byte| byte.is_ascii_digit())
}

fn is_zone(text: &[u8]) -> bool
    ensures { result ≡ forms.is_zone text.now }
{
    match text {
        [b'+' | b'-', digits @ ..] => {
            digits.len() == 4 && decimal(digits).is_some_and(|zone| zone <= MOST_ZONE)
        }
        _ => false,
    }
}
