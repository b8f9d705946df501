//! The check of the merge bases.
ghost use Rattle.std.specs.Prelude.{◌≡◌, ◌<◌, length, All, IfOk};
ghost use Rattle.bf_search.specs.Candidates.{places_of};
ghost use Rattle.bf_search.specs.Bases.{check_bases, check};

use crate::bases::keep_bases;
use crate::marks::has_all;
use bf_graph::Places;
use bf_reach::{Reach, Row, mark_all, true_places};
use bf_search::Check;
use std::alloc::{AllocError, Global};

/// Checks the merge bases before a search (git-bisect-lk2009, "Checking merge bases").
///
/// The check passes where `bad` reaches every good place. Otherwise `bad` may be a base itself; or
/// the first base that is neither good nor skipped has to be tested; and where there is no such
/// base, the check passes with the skipped bases that are not good, by place, to warn of.
///
/// It takes memory for two rows and the list. Its only error is want of memory.
pub fn check(
    alloc: Global,
    reach: &Reach,
    bad: u32,
    goods: &[u32],
    skips: &Row,
) -> Result<Check, AllocError>
    requires bad { bad < length reach.now }
    requires goods { All (λ good. good < length reach.now) goods.now }
    requires skips { length skips.now ≡ length reach.now }
    ensures { IfOk result (λ answer. answer ≡ check reach.now bad goods.now skips.now) }
{
    let mut bases = Row::new(alloc, reach.len())?;
    reach.fill_row(bad, &mut bases);
    if has_all(&bases, goods) {
        return Ok(Check::Passed {
            warned: Places::new(alloc),
        });
    }
    let mut scratch = Row::new(alloc, reach.len())?;
    keep_bases(reach, goods, &mut bases, &mut scratch);
    check_bases(alloc, bases, scratch, bad, goods, skips)
}

/// What the check says of the row of the merge bases, where `bad` does not reach every good place.
fn check_bases(
    alloc: Global,
    mut bases: Row,
    mut scratch: Row,
    bad: u32,
    goods: &[u32],
    skips: &Row,
) -> Result<Check, AllocError>
    requires bad { bad < length bases }
    requires goods { All (λ good. good < length bases) goods.now }
    requires scratch { length scratch ≡ length bases }
    requires skips { length skips.now ≡ length bases }
    ensures { IfOk result (λ answer.
        answer ≡ check_bases (places_of bases) bad goods.now skips.now) }
{
    if bases.get(bad) {
        return Ok(Check::Bad(bad));
    }
    scratch.clear();
    mark_all(goods, &mut scratch);
    bases.and_not(&scratch);
    scratch.copy_from(&bases);
    scratch.and_not(skips);
    if let Some(base) = scratch.first() {
        return Ok(Check::Test(base));
    }
    let warned = true_places(alloc, &bases)?;
    Ok(Check::Passed { warned })
}
