//! What the lines that stand before the certificate claim of commits.
ghost use Rattle.std.specs.Prelude.{◌≡◌, ◌<◌, length, IfSome};
ghost use Rattle.std.specs.Char.{is_ascii_uppercase};
ghost use Rattle.std.specs.List.{list_any};
ghost use Rattle.bf_cert.specs.Lines as names;
ghost use Rattle.bf_cert.specs.Lines.{IsFound};
ghost use Rattle.bf_claims.specs.Claims as claims;
ghost use Rattle.bf_claims.specs.Claims.{IsClaimWithin};

use crate::form::{has_form, tally_in};
use crate::kind::Kind;
use crate::line::{behind, status_in};
use bf_import::History;
use bf_oid::oid_from_hex;

/// How many digits write a name.
const NAME_DIGITS: usize = 40;

/// What a line claims of a commit.
#[derive(Clone, Copy)]
pub(crate) enum Claim {
    /// Nothing that the certificate stands on.
    Nothing,
    /// It was called bad, or a test was bad there.
    Bad(u32),
    /// It was called good, or a test was good there.
    Good(u32),
    /// Its test was skipped.
    Skipped(u32),
    /// It was tested again, and was bad.
    StillBad(u32),
    /// It was tested again, and was good.
    StillGood(u32),
}

/// What a line of this kind claims by what stands behind its first word; none where it is in no form or
/// names no commit.
#[tactic(auto, unfolding(crate::specs::Claims::claim_of))]
pub(crate) fn claim_of(history: &History, kind: Kind, text: &[u8]) -> Option<Claim>
    ensures value { result ≡ claims.claim_of history.now.names kind text.now }
    ensures within { IfSome result (IsClaimWithin (length history.now.parents)) }
{
    match kind {
        Kind::CalledBad => Some(Claim::Bad(called(history, true, text)?)),
        Kind::CalledGood => Some(Claim::Good(called(history, false, text)?)),
        Kind::Outcome => outcome(history, text),
        Kind::Against => against(history, text),
        Kind::Confirmed => confirmed(history, text),
        _ => no_claim(kind, text),
    }
}

/// A line that names no commit claims nothing, where it has its form.
#[tactic(auto, unfolding(crate::specs::Claims::no_claim))]
fn no_claim(kind: Kind, text: &[u8]) -> Option<Claim>
    ensures value { result ≡ claims.no_claim kind text.now }
    ensures within { IfSome result (IsClaimWithin 0) }
{
    if has_form(kind, text) {
        Some(Claim::Nothing)
    } else {
        None
    }
}

/// Whether the test of a commit that was called bad, or good, may have ended with this status.
fn is_as_called(is_bad: bool, status: u64) -> bool
    ensures { result ≡ claims.is_as_called is_bad status }
{
    if is_bad {
        0 < status && status < 125
    } else {
        status == 0
    }
}

/// The place of a commit that was called bad, or good; the status of its test may stand behind it, and says the same.
#[tactic(auto, unfolding(crate::specs::Claims::called))]
fn called(history: &History, is_bad: bool, text: &[u8]) -> Option<u32>
    ensures value { result ≡ claims.called history.now.names is_bad text.now }
    ensures within { IfSome result (λ place. place < length history.now.parents) }
{
    let (place, rest) = name_in_front(history, text)?;
    if rest.is_empty() || is_as_called(is_bad, status_in(rest)?) {
        Some(place)
    } else {
        None
    }
}

/// What the outcome of a test claims.
#[tactic(auto, unfolding(crate::specs::Claims::outcome))]
fn outcome(history: &History, text: &[u8]) -> Option<Claim>
    ensures value { result ≡ claims.outcome history.now.names text.now }
    ensures within { IfSome result (IsClaimWithin (length history.now.parents)) }
{
    let (place, rest) = name_in_front(history, text)?;
    claim_by(place, status_in(rest)?)
}

/// The outcome of a test that contradicts the answer was good or bad.
#[tactic(auto, unfolding(crate::specs::Claims::against))]
fn against(history: &History, text: &[u8]) -> Option<Claim>
    ensures value { result ≡ claims.against history.now.names text.now }
    ensures within { IfSome result (IsClaimWithin 0) }
{
    let (_, rest) = name_in_front(history, text)?;
    if status_in(rest)? < 125 {
        Some(Claim::Nothing)
    } else {
        None
    }
}

/// What is claimed of a commit that was tested again.
#[tactic(auto, unfolding(crate::specs::Claims::confirmed))]
fn confirmed(history: &History, text: &[u8]) -> Option<Claim>
    ensures value { result ≡ claims.confirmed history.now.names text.now }
    ensures within { IfSome result (IsClaimWithin (length history.now.parents)) }
{
    let (place, rest) = name_in_front(history, text)?;
    if let Some(tally) = behind(b" bad ", rest) {
        tally_in(tally)?;
        Some(Claim::StillBad(place))
    } else {
        tally_in(behind(b" good ", rest)?)?;
        Some(Claim::StillGood(place))
    }
}

/// What a test that ended with this status claims of its commit.
fn claim_by(place: u32, status: u64) -> Option<Claim>
    ensures { result ≡ claims.claim_by place status }
{
    if status == 0 {
        Some(Claim::Good(place))
    } else if status < 125 {
        Some(Claim::Bad(place))
    } else if status == 125 {
        Some(Claim::Skipped(place))
    } else {
        None
    }
}

/// The place of the commit that a text begins with the name of, and what stands behind it.
#[tactic(auto, unfolding(bf_cert::specs::Lines::name_in_front))]
fn name_in_front<'a>(history: &History, text: &'a [u8]) -> Option<(u32, &'a [u8])>
    ensures value { IsFound (names.name_in_front history.now.names text.now) result }
    ensures within { IfSome result (λ name. name.0 < length history.now.parents) }
{
    if text.len() < NAME_DIGITS {
        return None;
    }
    let (digits, rest) = text.split_at(NAME_DIGITS);
    Some((place_written(history, digits)?, rest))
}

/// The place of the commit that 40 lower-case digits name.
#[tactic(auto, unfolding(bf_cert::specs::Lines::place_written))]
fn place_written(history: &History, digits: &[u8]) -> Option<u32>
    ensures value { result ≡ names.place_written history.now.names digits.now }
    ensures within { IfSome result (λ place. place < length history.now.parents) }
{
    if has_upper_case(digits) {
        return None;
    }
    history.place_named(oid_from_hex(digits)?)
}

fn has_upper_case(text: &[u8]) -> bool
    ensures { result ≡ list_any is_ascii_uppercase text.now }
{
    text.iter().any(|byte| byte.is_ascii_uppercase())
}
