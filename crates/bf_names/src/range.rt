//! Ranges of commits.
ghost use Rattle.std.specs.Prelude.{◌≡◌, ◌==◌, ◌<◌, length, map, IfOk, IfErr};
ghost use Rattle.std.specs.List.{range_with_len};
ghost use Rattle.bf_names.specs.Names.{Fails, Means, between, range, right_steps, row_between};

use crate::NameFault;
use crate::form::{find, has, rest_of, steps_of};
use crate::index::NameIndex;
use crate::name::{place_of, resolve};
use crate::step::Step;
use bf_import::History;
use bf_reach::{Reach, Row};
use std::alloc::{AllocError, Global};

/// By place, whether a text means it: a range `A..B` means the commits that B reaches and A doesn't, and
/// any other text is one name, as [`resolve`] takes it. `reach` is that of the history's graph.
///
/// # Errors
///
/// `BadForm` where a side of a range is in no form of a name, or the right side begins with `.` or has
/// `..` again. Both sides are tried for their form first; then the left side is resolved, and then the
/// right one, each refused as a name is. `NoMemory` may come anywhere.
pub fn resolve_range(
    alloc: Global,
    history: &History,
    reach: &Reach,
    text: &[u8],
) -> Result<Row, NameFault>
    requires { reach.now ≡ history.now.parents }
    ensures value { Means result (range history.now text.now) }
    ensures within { IfOk result (λ row. length row ≡ length history.now.parents) }
{
    match find(b"..", text) {
        Some(at) => between(alloc, history, reach, &text[..at], rest_of(text, at + 2)),
        None => {
            let place = resolve(alloc, history, text)?;
            Ok(row_of(alloc, history.len(), place)?)
        }
    }
}

// The commits of a range with these two sides.
fn between(
    alloc: Global,
    history: &History,
    reach: &Reach,
    left: &[u8],
    right: &[u8],
) -> Result<Row, NameFault>
    requires { reach.now ≡ history.now.parents }
    ensures value { Means result (between history.now left.now right.now) }
    ensures within { IfOk result (λ row. length row ≡ length history.now.parents) }
{
    let before = steps_of(alloc, left)?;
    let after = right_steps(alloc, right)?;
    let index = NameIndex::none();
    let from = place_of(alloc, history, &index, left, before.as_slice())?;
    let to = place_of(alloc, history, &index, right, after.as_slice())?;
    Ok(row_between(alloc, reach, from, to)?)
}

// The steps of the right side of a range.
#[tactic(auto, unfolding(crate::specs::Names::right_steps))]
fn right_steps(alloc: Global, right: &[u8]) -> Result<Vec<Step>, NameFault>
    ensures ok { IfOk result (λ steps. right_steps right.now ≡ Ok steps.items) }
    ensures refused { IfErr result (λ fault. Fails fault (right_steps right.now)) }
{
    if right.starts_with(b".") || has(right, b"..") {
        return Err(NameFault::BadForm);
    }
    steps_of(alloc, right)
}

// The places that one reaches and another doesn't.
fn row_between(alloc: Global, reach: &Reach, from: u32, to: u32) -> Result<Row, AllocError>
    requires from { from < length reach.now }
    requires to { to < length reach.now }
    ensures value { IfOk result (λ row. row ≡ row_between reach.now from to) }
    ensures len { IfOk result (λ row. length row ≡ length reach.now) }
{
    let mut row = Row::new(alloc, reach.len())?;
    let mut before = Row::new(alloc, reach.len())?;
    reach.fill_row(to, &mut row);
    reach.fill_row(from, &mut before);
    row.and_not(&before);
    Ok(row)
}

// The row of one place.
fn row_of(alloc: Global, len: u32, place: u32) -> Result<Row, AllocError>
    requires { place < len }
    ensures value { IfOk result (λ row. row ≡ map (λ q. q == place) (range_with_len 0 len)) }
    ensures len { IfOk result (λ row. length row ≡ len) }
{
    let mut row = Row::new(alloc, len)?;
    row.set(place, true);
    Ok(row)
}
