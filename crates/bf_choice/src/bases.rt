//! The merge bases, by marking.
ghost use Rattle.std.specs.Prelude.{◌≡◌, ℕ, ◌<◌, length, All, IfOk};
ghost use Rattle.bf_search.specs.Reach.{reach_row};
ghost use Rattle.bf_search.specs.Candidates.{places_of};
ghost use Rattle.bf_search.specs.Bases.{merge_bases};

use crate::marks::fill_parents;
use bf_reach::{Reach, Row, true_places};
use std::alloc::{AllocError, Global};

/// The merge bases of the bad place with the good ones, by place: the places that `bad` and some
/// good place both reach and that no other such place reaches (git-merge-base(1)).
///
/// It takes two walks down the graph and one look at each place's parents, and memory for two rows
/// and the list. Its only error is want of memory.
pub fn merge_bases(
    alloc: Global,
    reach: &Reach,
    bad: u32,
    goods: &[u32],
) -> Result<Vec<u32>, AllocError>
    requires bad { bad < length reach.now }
    requires goods { All (λ good. good < length reach.now) goods.now }
    ensures { IfOk result (λ bases. bases.items ≡ merge_bases reach.now bad goods.now) }
{
    let mut bases = Row::new(alloc, reach.len())?;
    let mut scratch = Row::new(alloc, reach.len())?;
    reach.fill_row(bad, &mut bases);
    keep_bases(reach, goods, &mut bases, &mut scratch);
    Ok(true_places(alloc, &bases)?.into_vec())
}

/// Keeps, of the places that a bad one reaches, its merge bases with these good ones.
///
/// What a common place reaches is common. So a common place is reached by another exactly where it
/// is a parent of one, and the bases are the common places that are no common place's parent.
pub(crate) fn keep_bases(reach: &Reach, goods: &[u32], row: &mut Row, scratch: &mut Row)
    requires goods { All (λ good. good < length reach.now) goods.now }
    requires row { length row.old ≡ length reach.now }
    requires scratch { length scratch.old ≡ length reach.now }
    ensures bases { (bad : ℕ) → row.old ≡ reach_row reach.now bad →
        places_of row.new ≡ merge_bases reach.now bad goods.now }
    ensures len { length row.new ≡ length row.old }
    ensures scratch_len { length scratch.new ≡ length scratch.old }
{
    reach.fill_from(goods, scratch);
    row.and_from(scratch);
    fill_parents(reach.graph(), row, scratch);
    row.and_not(scratch);
}
