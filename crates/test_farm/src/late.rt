//! A tester that looks late at its flag.
ghost use Rattle.std.specs.Prelude.{◌≡◌};

use bf_io::Word;
use bf_oid::Oid;
use bf_tester::{Answer, Host, StopView, TestReply, Tester};
use std::alloc::AllocError;
use std::sync::Arc;
use std::sync::atomic::{AtomicBool, Ordering};
use std::thread;

// The turns that a test waits at most, each of which yields the thread.
const TURNS: u32 = 2_000_000;

/// A test of one place that ends only when that of another one has begun, which then waits until its flag
/// is raised. Testers share it.
#[derive(Drop)]
pub(crate) struct Watch {
    first: u32,
    late: u32,
    has_begun: AtomicBool,
    was_raised: AtomicBool,
}

impl Watch {
    /// A watch over the tests of the place `first` and of the place `late`.
    pub(crate) fn new(first: u32, late: u32) -> Watch {
        Watch {
            first,
            late,
            has_begun: AtomicBool::new(false),
            was_raised: AtomicBool::new(false),
        }
    }

    /// Whether the test of the late place saw its flag raised.
    pub(crate) fn was_raised(&self) -> bool {
        self.was_raised.load(Ordering::SeqCst)
    }

    /// Waits as the test of a place does.
    fn wait(&self, place: u32, stop: &mut StopView<'_>)
        ensures { stop.new.bare ≡ stop.old.bare }
    {
        if place == self.first {
            self.wait_for_late();
        }
        if place == self.late {
            self.has_begun.store(true, Ordering::SeqCst);
            self.wait_for_flag(stop);
        }
    }

    /// Waits until the test of the late place has begun.
    fn wait_for_late(&self) {
        for _ in 0..TURNS {
            if self.has_begun.load(Ordering::SeqCst) {
                return;
            }
            thread::yield_now();
        }
    }

    /// Looks at a flag until it is raised.
    fn wait_for_flag(&self, stop: &mut StopView<'_>)
        ensures { stop.new.bare ≡ stop.old.bare }
    {
        for _ in 0..TURNS {
            if stop.raised() {
                self.was_raised.store(true, Ordering::SeqCst);
                return;
            }
            thread::yield_now();
        }
    }
}

/// A tester over another one, whose tests wait first as their watch says.
#[derive(Drop)]
pub(crate) struct Late<T: Drop> {
    pub(crate) inner: T,
    pub(crate) watch: Arc<Watch>,
}

impl<T: Tester> Tester for Late<T> {
    ghost told = { λ t. T.told t.inner };

    ghost command = { λ t. T.command t.inner };

    ghost answers = { λ t. T.answers t.inner };

    ghost faults = { λ t. T.faults t.inner };

    ghost failed = { λ t. T.failed t.inner };

    ghost is_split = { λ t. T.is_split t.inner };

    ghost is_lenient = { λ t. T.is_lenient t.inner };

    ghost grounds = { λ t. T.grounds t.inner };

    ghost recalled = { λ t. T.recalled t.inner };

    fn prepare(&mut self, words: &[Word], lenient: bool) -> Result<(), AllocError> {
        self.inner.prepare(words, lenient)
    }

    fn test<R: Host>(
        &mut self,
        rt: &R,
        place: u32,
        name: Oid,
        stop: &mut StopView<'_>,
    ) -> TestReply {
        self.watch.wait(place, stop);
        self.inner.test(rt, place, name, stop)
    }

    fn split(&self) -> Result<Late<T>, AllocError> {
        Ok(Late {
            inner: self.inner.split()?,
            watch: self.watch.clone()?,
        })
    }

    fn absorb(&mut self, other: Late<T>) -> Result<(), Late<T>> {
        let Late { inner, watch } = other;
        match self.inner.absorb(inner) {
            Ok(()) => Ok(()),
            Err(inner) => Err(Late { inner, watch }),
        }
    }

    fn answer(&self, index: usize) -> Option<Answer> {
        self.inner.answer(index)
    }
}
