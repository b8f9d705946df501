//! The weights as they are defined: one walk for each candidate.
ghost use Rattle.std.specs.Prelude.{◌≡◌, ◌<◌, length, IfOk};
ghost use Rattle.bf_search.specs.Candidates.{weights};
ghost use Rattle.bf_choice.specs.Plain.{weight_in};

use bf_reach::{Reach, Row};
use std::alloc::{AllocError, Global};

/// The weights of any row, which has as many places as the graph. It takes a walk for each of them, so
/// a large graph wants [`weights`](crate::weights).
pub fn weights_plain(
    alloc: Global,
    reach: &Reach,
    mask: &Row,
    first_parent: bool,
) -> Result<Vec<u32>, AllocError>
    requires { length mask.now ≡ length reach.now }
    ensures { IfOk result (λ w. w.items ≡ weights reach.now mask.now first_parent) }
{
    let mut reached = Row::new(alloc, reach.len())?;
    let mut weights = Vec::with_capacity(alloc, reach.len() as usize)?;
    for place in 0..reach.len() {
        weights.push(weight_of(reach, mask, first_parent, place, &mut reached))?;
    }
    Ok(weights)
}

fn weight_of(reach: &Reach, mask: &Row, first_parent: bool, place: u32, reached: &mut Row) -> u32
    requires place { place < length reach.now }
    requires mask { length mask.now ≡ length reach.now }
    requires reached { length reached.old ≡ length reach.now }
    ensures weight { result ≡ weight_in reach.now mask.now first_parent place }
    ensures reached { length reached.new ≡ length reach.now }
{
    if !mask.get(place) {
        return 0;
    }
    reach.fill_in_mode(place, first_parent, reached);
    reached.and_from(mask);
    reached.count()
}
