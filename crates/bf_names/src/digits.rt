//! Abbreviated names: the first hexadecimal digits of the name of a commit.
ghost use Rattle.std.specs.Prelude.{◌≡◌, ◌<◌, ◌≤◌, length, IfOk, IfSome};
ghost use Rattle.std.specs.Char.{is_ascii_hexdigit};
ghost use Rattle.std.specs.List.{list_all};
ghost use Rattle.bf_names.specs.Names.{Means, abbreviated, base_of, begins_with, by_digits, is_abbreviation};
ghost use Rattle.bf_names.specs.Counting.{AreSeen, IsSeen};
ghost use Rattle.bf_names.specs.Order.{IsOrderOf};

use crate::NameFault;
use crate::form::before_sign;
use crate::order::NameOrder;
use bf_import::History;
use bf_oid::{Oid, oid_hex};
use std::alloc::{AllocError, Global};

// The fewest digits of an abbreviation, and the most: all 40 are a whole name.
const FEWEST_DIGITS: usize = 4;

const MOST_DIGITS: usize = 39;

/// The place of the only commit of a history whose name begins with these digits; original names are not
/// abbreviated. Where the order of the names is given they are found in it by binary search, else all
/// names are looked at, once each.
pub(crate) fn place_by_digits(
    alloc: Global,
    history: &History,
    order: Option<&NameOrder>,
    digits: &[u8],
) -> Result<u32, NameFault>
    requires { IfSome order (λ order. IsOrderOf history.now.names order.now) }
    ensures value { Means result (by_digits history.now digits.now) }
    ensures within { IfOk result (λ place. place < length history.now.parents) }
{
    if history.has_original_names() || !is_abbreviation(digits) {
        return Err(NameFault::Unknown);
    }
    // What the names tell is needed: there are as many as commits.
    let _names = history.names();
    let (found, count) = seen(alloc, history, order, digits)?;
    match count {
        0 => Err(NameFault::Unknown),
        1 => Ok(found),
        _ => Err(NameFault::Ambiguous { count }),
    }
}

// The place of a name that begins with these digits, where there is one, and how many do: in the order of
// the names, where it is given.
fn seen(
    alloc: Global,
    history: &History,
    order: Option<&NameOrder>,
    digits: &[u8],
) -> Result<(u32, u32), AllocError>
    requires order { IfSome order (λ order. IsOrderOf history.now.names order.now) }
    requires digits { length digits.now ≤ 40 }
    ensures { IfOk result (AreSeen history.now.names digits.now) }
{
    match order {
        Some(order) => order.begun_with(alloc, digits),
        None => Ok(begun_with(history.names(), history.len(), digits)),
    }
}

// A name that begins with these digits, where there is one, and how many do.
fn begun_with(names: &[Oid], len: u32, digits: &[u8]) -> (u32, u32)
    requires len { len ≡ length names.now }
    requires digits { length digits.now ≤ 40 }
    ensures { IsSeen (abbreviated names.now digits.now) (length names.now) result.0 result.1 }
{
    let mut found = 0;
    let mut count = 0;
    for place in 0..len {
        if begins_with(names[place as usize], digits) {
            found = place;
            count += 1;
        }
    }
    (found, count)
}

/// Whether the base of a text has the form of an abbreviation, 4 to 39 hexadecimal digits. It may be the
/// name of a ref all the same.
pub fn may_abbreviate(text: &[u8]) -> bool
    ensures { result ≡ is_abbreviation (base_of text.now) }
{
    is_abbreviation(before_sign(text))
}

fn is_abbreviation(base: &[u8]) -> bool
    ensures { result ≡ is_abbreviation base.now }
{
    FEWEST_DIGITS <= base.len() && base.len() <= MOST_DIGITS && are_digits(base)
}

fn are_digits(text: &[u8]) -> bool
    ensures { result ≡ list_all is_ascii_hexdigit text.now }
{
    text.iter().all(|byte| byte.is_ascii_hexdigit())
}

// Whether a name in hexadecimal digits begins with these, in either case.
fn begins_with(name: Oid, digits: &[u8]) -> bool
    requires { length digits.now ≤ 40 }
    ensures { result ≡ begins_with digits.now name }
{
    let mut text = [0; 40];
    oid_hex(name, &mut text);
    text[..digits.len()].eq_ignore_ascii_case(digits)
}
