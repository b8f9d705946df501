//! The searches that want the outcome of a place.
ghost use Rattle.std.specs.Prelude.{◌≤◌, length, IfOk};
ghost use Rattle.std.specs.List.Sorted.{IsStrictlyIncreasing};
ghost use Rattle.bf_many.specs.Cores.{AreSameButNodes, AreWanting};

use bf_core::Core;
use std::alloc::{AllocError, Global};

/// The searches, ascending, some path of which asks for the outcome of a place. No node is lost.
pub(crate) fn wanting(
    alloc: Global,
    cores: &mut [Core<'_>],
    place: u32,
) -> Result<Vec<u32>, AllocError>
    requires { length cores.old ≤ 64 }
    ensures wanted { IfOk result (λ searches. AreWanting cores.old place searches.items) }
    ensures ascending { IfOk result (λ searches. IsStrictlyIncreasing searches.items) }
    ensures same { AreSameButNodes cores.old cores.new }
{
    let mut searches = Vec::new(alloc);
    for (index, core) in cores.iter_mut().enumerate() {
        if core.wants(place)? {
            searches.push(index as u32)?;
        }
    }
    Ok(searches)
}
