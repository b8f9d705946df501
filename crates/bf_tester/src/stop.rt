//! A look at the flag that withdraws a request.
ghost use Rattle.std.specs.Prelude.{◌≡◌, ◌≤◌, true, false, ◌||◌};
ghost use Rattle.bf_io.specs.Causes.{raised};

use std::marker::Model;
use std::sync::atomic::{AtomicBool, Ordering};

/// A view of a flag that withdraws a request for a test, or of no flag. Contracts see whether a look
/// found the flag raised, whether there is no flag, and how many looks there were.
#[derive(Drop)]
pub struct StopView<'f> {
    flag: Option<&'f AtomicBool>,
    seen: bool,
    looks: u64,
}

impl<'f> Model for StopView<'f> {
    ghost use Rattle.std.specs.Prelude.{◌≡◌, true, false};
    ghost use Rattle.std.specs.Option.{is_none};
    ghost use Rattle.bf_tester.specs.Looks.{Look};

    ghost Value = { Look };

    ghost view = { λ v. record { seen = v.seen; bare = is_none v.flag; looks = v.looks } };

    ghost invariant = { λ v. is_none v.flag ≡ true → v.seen ≡ false };
}

impl<'f> StopView<'f> {
    /// A view of no flag: its request is never withdrawn.
    pub fn none() -> StopView<'f>
        ensures { result ≡ record { seen = false; bare = true; looks = 0 } }
    {
        StopView {
            flag: None,
            seen: false,
            looks: 0,
        }
    }

    /// A view of this flag.
    pub fn over(flag: &'f AtomicBool) -> StopView<'f>
        ensures { result ≡ record { seen = false; bare = false; looks = 0 } }
    {
        StopView {
            flag: Some(flag),
            seen: false,
            looks: 0,
        }
    }

    /// Whether there is no flag.
    pub(crate) fn is_bare(&self) -> bool
        ensures { result ≡ self.now.bare }
    {
        self.flag.is_none()
    }

    /// Looks at the flag once, and returns whether it is raised. No flag is never raised.
    pub fn raised(&mut self) -> bool
        ensures seen { self.new.seen ≡ (self.old.seen || result) }
        ensures looks { self.new.looks ≡ raised self.old.looks }
        ensures later { self.old.looks ≤ self.new.looks }
        ensures bare { self.new.bare ≡ self.old.bare }
        ensures quiet { self.new.bare ≡ true → (result ≡ false) × (self.new.seen ≡ false) }
    {
        self.looks = self.looks.saturating_add(1);
        let raised = match self.flag {
            Some(flag) => flag.load(Ordering::SeqCst),
            None => false,
        };
        if raised {
            self.seen = true;
        }
        raised
    }
}
