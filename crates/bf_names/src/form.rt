//! The form of a name: its base, and the steps behind it.
ghost use Rattle.std.specs.Prelude.{◌≡◌, ◌+◌, ◌≤◌, ◌∷◌, codes, length, drop, IfOk, IfErr, IfSome};
ghost use Rattle.std.specs.List.{before_first, position, position_or_len};
ghost use Rattle.std.specs.Option.{ok_or};
ghost use Rattle.bf_names.specs.Names.{Fails, first_at, is_base, is_sign};
ghost use Rattle.bf_names.specs.Names.{number_of, stands_in, step_of, step_texts, steps_of, steps_written};
ghost use Rattle.bf_names.specs.declared.fault.NameFault.TheVariants.{BadForm};

use crate::NameFault;
use crate::step::Step;
use bf_io::decimal;
use std::alloc::Global;

/// The first index at which one text stands in another.
pub(crate) fn find(part: &[u8], text: &[u8]) -> Option<usize>
    ensures value { result ≡ first_at part.now text.now }
    ensures within { IfSome result (λ at. at + length part.now ≤ length text.now) }
{
    for at in 0..text.len() {
        if rest_of(text, at).starts_with(part) {
            return Some(at);
        }
    }
    None
}

/// What stands in a text from an index on.
pub(crate) fn rest_of(text: &[u8], index: usize) -> &[u8]
    requires { index ≤ length text.now }
    ensures { result.now ≡ drop index text.now }
{
    &text[index..]
}

/// What stands in a text before its first sign: the base of a name.
pub(crate) fn before_sign(text: &[u8]) -> &[u8]
    ensures { result.now ≡ before_first is_sign text.now }
{
    &text[..sign_in(text)]
}

/// The steps of a name whose form is good.
#[tactic(auto, unfolding(crate::specs::Names::steps_of))]
pub(crate) fn steps_of(alloc: Global, text: &[u8]) -> Result<Vec<Step>, NameFault>
    ensures ok { IfOk result (λ steps. steps_of text.now ≡ Ok steps.items) }
    ensures refused { IfErr result (λ fault. Fails fault (steps_of text.now)) }
{
    if !is_base(before_sign(text)) {
        return Err(NameFault::BadForm);
    }
    steps_written(alloc, text)
}

// The steps that stand in a text, each of which is to be in its form.
fn steps_written(alloc: Global, text: &[u8]) -> Result<Vec<Step>, NameFault>
    ensures ok { IfOk result
        (λ steps. ok_or (steps_written (step_texts text.now)) BadForm ≡ Ok steps.items) }
    ensures refused { IfErr result
        (λ fault. Fails fault (ok_or (steps_written (step_texts text.now)) BadForm)) }
{
    let mut steps = Vec::new(alloc);
    for (at, sign) in text.iter().enumerate() {
        if is_sign(*sign) {
            let rest = before_sign(rest_of(text, at + 1));
            let step = step_of(*sign, rest).ok_or(NameFault::BadForm)?;
            steps.push(step)?;
        }
    }
    Ok(steps)
}

// The step that a sign begins, with what stands up to the next sign.
#[tactic(auto, unfolding(crate::specs::Names::step_of))]
fn step_of(sign: u8, rest: &[u8]) -> Option<Step>
    ensures { result ≡ step_of (sign ∷ rest.now) }
{
    if sign == b'~' {
        number_of(rest).map(Step::Ancestor)
    } else if rest == b"{}".as_slice() || rest == b"{commit}".as_slice() {
        Some(Step::Parent(0))
    } else {
        number_of(rest).map(Step::Parent)
    }
}

// The number behind a sign.
fn number_of(digits: &[u8]) -> Option<u64>
    ensures { result ≡ number_of digits.now }
{
    if digits.is_empty() {
        Some(1)
    } else {
        decimal(digits)
    }
}

fn is_base(base: &[u8]) -> bool
    ensures { result ≡ is_base base.now }
{
    !(base.is_empty() || has(base, b" ") || has(base, b":") || has(base, b"@{"))
}

/// Whether a step to an ancestor stands in a text, whatever its form.
pub fn has_ancestor(text: &[u8]) -> bool
    ensures { result ≡ stands_in (codes "~") text.now }
{
    has(text, b"~")
}

/// Whether one text stands in another.
pub(crate) fn has(text: &[u8], part: &[u8]) -> bool
    ensures { result ≡ stands_in part.now text.now }
{
    find(part, text).is_some()
}

// The index of the first sign, or the length.
fn sign_in(text: &[u8]) -> usize
    ensures { result ≡ position_or_len is_sign text.now }
{
    first_sign(text).unwrap_or(text.len())
}

fn first_sign(text: &[u8]) -> Option<usize>
    ensures { result ≡ position is_sign text.now }
{
    text.iter().position(|byte| is_sign(*byte))
}

fn is_sign(byte: u8) -> bool
    ensures { result ≡ is_sign byte }
{
    byte == b'~' || byte == b'^'
}
