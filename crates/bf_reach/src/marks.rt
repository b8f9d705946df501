//! Places and rows: marking and listing.
ghost use Rattle.std.specs.Prelude.{◌≡◌, ◌<◌, length, All, IfOk};
ghost use Rattle.bf_reach.specs.Marks.{marked};
ghost use Rattle.bf_search.specs.Candidates.{places_of};

use crate::Row;
use bf_graph::Places;
use std::alloc::{AllocError, Global};

/// Makes these places true, and leaves the others.
pub fn mark_all(places: &[u32], out: &mut Row)
    requires { All (λ place. place < length out.old) places.now }
    ensures { out.new ≡ marked out.old places.now }
{
    for place in places {
        out.set(*place, true);
    }
}

/// The true places of a row, in order. Its only error is want of memory.
pub fn true_places(alloc: Global, row: &Row) -> Result<Places, AllocError>
    ensures { IfOk result (λ places. places ≡ places_of row.now) }
{
    let mut places = Vec::with_capacity(alloc, row.count() as usize)?;
    let mut from = 0;
    while let Some(place) = row.next_from(from) {
        places.push(place)?;
        from = place + 1;
    }
    Ok(Places::from_vec(alloc, places))
}
