//! The names of a history's commits in order, in which an abbreviation is found by binary search.
ghost use Rattle.std.specs.Prelude.{◌≡◌, ◌≤◌, length, IfOk};
ghost use Rattle.std.specs.Cmp.Lexicographic.{slice_cmp};
ghost use Rattle.std.specs.Ordering.{nat_cmp};
ghost use Rattle.bf_names.specs.Counting.{TellsBegun};
ghost use Rattle.bf_names.specs.Order.{IsOrderOf, Ascend, ComeBefore, ComeBeforeOrBegin, compared, lowered, spelled_as};

use bf_oid::{Oid, oid_hex};
use std::alloc::{AllocError, Global};
use std::cmp::Ordering;
use std::marker::Model;

/// A name in hexadecimal digits, with the place of its commit.
#[derive(Clone, Copy, Debug)]
pub(crate) struct Spelled {
    /// The digits, in lower case.
    digits: [u8; 40],
    /// The place of the commit.
    place: u32,
}

/// The names of the commits of a history in the order of their digits: 44 bytes a commit. It is made once,
/// in the time of a sort. Then the names that begin with some digits are found by binary search.
#[derive(Debug, Drop)]
pub struct NameOrder {
    spelled: Vec<Spelled>,
}

impl Model for NameOrder {
    ghost use Rattle.std.specs.Prelude.{◌≤◌, List, length};
    ghost use Rattle.bf_names.specs.declared.order.Spelled.{Spelled};

    ghost Value = { List Spelled };

    ghost view = { λ order. order.spelled.items };

    ghost invariant = { λ order. length order.spelled.items ≤ 4294967295 };
}

impl NameOrder {
    /// The order of these names, of which there are `len`. Its only error is want of memory.
    pub fn new(alloc: Global, names: &[Oid], len: u32) -> Result<NameOrder, AllocError>
        requires { len ≡ length names.now }
        ensures { IfOk result (IsOrderOf names.now) }
    {
        let mut spelled = Vec::new(alloc);
        for place in 0..len {
            spelled.push(spell(names[place as usize], place))?;
        }
        spelled.sort_unstable_by(|name, other| compare_digits(name, other));
        Ok(NameOrder { spelled })
    }

    /// The place of a name that begins with these digits, where there is one, and how many do. Its only
    /// error is want of memory.
    pub(crate) fn begun_with(&self, alloc: Global, digits: &[u8]) -> Result<(u32, u32), AllocError>
        requires { length digits.now ≤ 40 }
        ensures { IfOk result (TellsBegun digits.now self.now) }
    {
        let text = lowered(alloc, digits)?;
        let digits = text.as_slice();
        let names = self.spelled.as_slice();
        let first = count_before(names, digits);
        let end = count_up_to(names, digits);
        if first < end {
            Ok((names[first].place, (end - first) as u32))
        } else {
            Ok((0, 0))
        }
    }
}

// The name of the commit of a place, in digits.
fn spell(name: Oid, place: u32) -> Spelled
    ensures { result ≡ spelled_as name place }
{
    let mut digits = [0; 40];
    oid_hex(name, &mut digits);
    Spelled { digits, place }
}

// How two names compare by their digits.
fn compare_digits(name: &Spelled, other: &Spelled) -> Ordering
    ensures { result ≡ slice_cmp nat_cmp name.now.digits other.now.digits }
{
    name.digits.cmp(&other.digits)
}

// Digits in lower case.
fn lowered(alloc: Global, digits: &[u8]) -> Result<Vec<u8>, AllocError>
    ensures { IfOk result (λ text. text.items ≡ lowered digits.now) }
{
    let mut text = Vec::new(alloc);
    for digit in digits {
        text.push(digit.to_ascii_lowercase())?;
    }
    Ok(text)
}

// How many names come before these digits.
fn count_before(names: &[Spelled], digits: &[u8]) -> usize
    requires digits { length digits.now ≤ 40 }
    ensures within { result ≤ length names.now }
    ensures count { Ascend names.now → ComeBefore digits.now names.now result }
{
    names.partition_point(|name| compare_front(name, digits).is_lt())
}

// How many names come before these digits or begin with them.
fn count_up_to(names: &[Spelled], digits: &[u8]) -> usize
    requires digits { length digits.now ≤ 40 }
    ensures within { result ≤ length names.now }
    ensures count { Ascend names.now → ComeBeforeOrBegin digits.now names.now result }
{
    names.partition_point(|name| compare_front(name, digits).is_le())
}

// How the first digits of a name, as many as these, compare with these.
fn compare_front(name: &Spelled, digits: &[u8]) -> Ordering
    requires { length digits.now ≤ 40 }
    ensures { result ≡ compared digits.now name.now }
{
    name.digits[..digits.len()].cmp(digits)
}
