//! The claim of a worker among several searches.
ghost use Rattle.std.specs.Prelude.{◌≡◌, ◌≤◌, length};
ghost use Rattle.bf_many.specs.Cores.{machines_of};
ghost use Rattle.bf_many.specs.Many.{held_by, tested_by};

use crate::answers::Held;
use bf_core::Core;
use bf_search::Claim;

/// The place that a worker tests, by these claims.
fn tested_by(claims: &[Claim], worker: u32) -> Option<u32>
    ensures { result ≡ tested_by claims.now worker }
{
    for claim in claims {
        if claim.worker == worker {
            return Some(claim.place);
        }
    }
    None
}

/// The claim of a worker: the first search in which it has one, and the place.
pub(crate) fn held_by(cores: &[Core<'_>], worker: u32) -> Option<Held>
    requires { length cores.now ≤ 64 }
    ensures { result ≡ held_by (machines_of cores.now) worker }
{
    for (index, core) in cores.iter().enumerate() {
        if let Some(place) = tested_by(core.claims(), worker) {
            let search = index as u32;
            return Some(Held { search, place });
        }
    }
    None
}
