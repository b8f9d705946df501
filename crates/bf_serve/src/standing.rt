//! Where a search stands before a request.
ghost use Rattle.std.specs.Prelude.{◌≡◌};
ghost use Rattle.bf_many.specs.Cores.{machine_of};
ghost use Rattle.bf_serve.specs.Searches.{left_in};
ghost use Rattle.bf_serve.specs.Steps.{StandsAt};

use crate::remaining::Remaining;
use bf_core::Core;

/// Where a search stands before a request.
#[derive(Clone, Copy)]
pub(crate) struct Progress {
    /// How many entries its run has.
    pub entries: usize,
    /// What is left of it.
    pub remaining: Remaining,
    /// Whether its run waits for an outcome.
    pub is_open: bool,
}

/// Where a search stands, of which so much is left.
pub(crate) fn standing_of(core: &Core<'_>, remaining: Remaining) -> Progress
    requires { remaining ≡ left_in (machine_of core.now) }
    ensures { StandsAt (machine_of core.now) result }
{
    Progress {
        entries: core.entries().len(),
        remaining,
        is_open: core.ending().is_none(),
    }
}
