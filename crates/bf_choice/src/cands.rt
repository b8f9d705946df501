//! The candidates, by two walks down the graph.
ghost use Rattle.std.specs.Prelude.{◌≡◌, ◌<◌, length, All, IfOk};
ghost use Rattle.bf_search.specs.Candidates.{candidate_row, IsCandidateRow};

use bf_reach::{Reach, Row};
use std::alloc::{AllocError, Global};

/// The candidates for the first bad commit: the places that `bad` reaches and that no good place reaches
/// (git-bisect-lk2009, "Bisection algorithm"). With `first_parent` the bad side follows first parents alone, and
/// the good side follows all parents.
///
/// It takes memory for two rows. Its only error is want of memory.
pub fn candidates(
    alloc: Global,
    reach: &Reach,
    bad: u32,
    goods: &[u32],
    first_parent: bool,
) -> Result<Row, AllocError>
    requires bad { bad < length reach.now }
    requires goods { All (λ good. good < length reach.now) goods.now }
    ensures row { IfOk result (λ row. row ≡ candidate_row reach.now bad goods.now first_parent) }
    ensures mask { IfOk result (λ row. IsCandidateRow reach.now first_parent row) }
{
    let mut row = Row::new(alloc, reach.len())?;
    let mut good = Row::new(alloc, reach.len())?;
    reach.fill_in_mode(bad, first_parent, &mut row);
    reach.fill_from(goods, &mut good);
    row.and_not(&good);
    Ok(row)
}
