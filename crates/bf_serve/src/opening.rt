//! What is kept of a search beside its machine.
ghost use Rattle.std.specs.Prelude.{◌≡◌};
ghost use Rattle.bf_serve.specs.Searches.{read_by};

use bf_log::Known;
use bf_search::Outcome;
use bf_terms::{Terms, lenient};

/// What is kept of a search beside its machine.
#[derive(Drop)]
pub struct Opening {
    /// The words for its two sides.
    pub terms: Terms,
    /// Which ends its log makes known.
    pub known: Known,
    /// Whether its outcomes are read leniently.
    pub lenient: bool,
}

impl Opening {
    /// An outcome as the search reads it.
    pub(crate) fn read(&self, outcome: Outcome) -> Outcome
        ensures { result ≡ read_by self.now outcome }
    {
        if self.lenient {
            lenient(outcome)
        } else {
            outcome
        }
    }
}
