//! Which searches ask for a commit.
ghost use Rattle.std.specs.Prelude.{◌≡◌, ◌+◌, ◌<◌, map, All, IfOk, OnOk};
ghost use Rattle.bf_serve.specs.Serving as serving;
ghost use Rattle.bf_serve.specs.Steps.{IsServing, Serves, searches_in};

use crate::learn::place_of_commit;
use crate::session::Session;
use bf_graph::Places;
use bf_io::Bytes;
use bf_protocol::{Refusal, put_refusal, put_wanted};
use std::alloc::{AllocError, Global};

impl<'r> Session<'r> {
    /// The searches some path of which asks for a commit.
    pub(crate) fn wanted(&mut self, commit: &[u8], out: &mut Bytes) -> Result<(), AllocError>
        requires { IsServing self.old }
        ensures { let wanted = serving.wanted_turn self.old.history.now (searches_in self.old) in
            OnOk result (Serves (wanted commit.now) self.old self.new out.old out.new) }
    {
        let Some(place) = place_of_commit(self.history, commit) else {
            return put_refusal(out, Refusal::NoSuchCommit);
        };
        let searches = self.many.wanted(place)?;
        let numbers = numbers_of(self.alloc, searches.as_slice())?;
        put_wanted(out, numbers.as_slice())
    }
}

/// The numbers of searches, from 1 on.
fn numbers_of(alloc: Global, searches: &[u32]) -> Result<Places, AllocError>
    requires { All (λ search. search < 64) searches.now }
    ensures { IfOk result (λ numbers. numbers ≡ map (λ search. search + 1) searches.now) }
{
    let mut numbers = Places::new(alloc);
    for search in searches {
        numbers.push(*search + 1)?;
    }
    Ok(numbers)
}
