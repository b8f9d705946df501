//! A history is searched, with a tester of one's own.
ghost use Rattle.std.specs.Prelude.{◌≡◌, false};

use crate::line::{history, stream};
use bf_farm::Report;
use bf_import::History;
use bf_io::Word;
use bf_names::{NameFault, resolve};
use bf_oid::Oid;
use bf_reach::Reach;
use bf_runs::{RunSettings, Standing, run_leg};
use bf_search::Ending;
use bf_state::State;
use bf_terms::Terms;
use bf_tester::{Answer, Host, PlanTester, StopView, TestReply, Tester};
use std::alloc::{AllocError, Global};
use std::process::{Processes, SystemProcess};
use std::sync::Wait;
use std::test::Fail;
use std::thread::Threads;
use std::time::Clock;

/// A tester that counts the tests that another one makes.
#[derive(Drop)]
struct Counting<T: Drop> {
    inner: T,
    tests: u32,
}

impl<T: Tester> Tester for Counting<T> {
    ghost told = { λ t. T.told t.inner };

    ghost command = { λ t. T.command t.inner };

    ghost answers = { λ t. T.answers t.inner };

    ghost faults = { λ t. T.faults t.inner };

    ghost failed = { λ t. T.failed t.inner };

    ghost is_split = { λ t. T.is_split t.inner };

    ghost is_lenient = { λ t. T.is_lenient t.inner };

    ghost grounds = { λ t. T.grounds t.inner };

    ghost recalled = { λ t. T.recalled t.inner };

    fn prepare(&mut self, words: &[Word], lenient: bool) -> Result<(), AllocError> {
        self.inner.prepare(words, lenient)
    }

    /// A request that is dropped is no test.
    fn test<R: Host>(
        &mut self,
        rt: &R,
        place: u32,
        name: Oid,
        stop: &mut StopView<'_>,
    ) -> TestReply {
        let reply = self.inner.test(rt, place, name, stop);
        if reply != TestReply::Dropped {
            self.tests = self.tests.saturating_add(1);
        }
        reply
    }

    fn split(&self) -> Result<Counting<T>, AllocError> {
        Ok(Counting {
            inner: self.inner.split()?,
            tests: 0,
        })
    }

    /// Adds both counts, or hands the other back with its own.
    fn absorb(&mut self, other: Counting<T>) -> Result<(), Counting<T>> {
        let Counting { inner, tests } = other;
        match self.inner.absorb(inner) {
            Ok(()) => {
                self.tests = self.tests.saturating_add(tests);
                Ok(())
            }
            Err(inner) => Err(Counting { inner, tests }),
        }
    }

    fn answer(&self, index: usize) -> Option<Answer> {
        self.inner.answer(index)
    }
}

/// What so many workers report of the search between the commits `main` and `old`.
fn report_by<R, T>(
    rt: &R,
    alloc: Global,
    history: &History,
    workers: u32,
    tester: &mut T,
) -> Result<Report, NameFault>
where
    R: Threads + Wait + Processes<Started = SystemProcess> + Clock + Eprint + Sync,
    T: Tester,
    requires { T.is_split tester.old ≡ false }
{
    let bad = resolve(alloc, history, b"main")?;
    let good = resolve(alloc, history, b"old")?;
    let terms = Terms::standard(alloc)?;
    let state = State::new(
        alloc,
        history.len(),
        terms,
        false,
        false,
        Some(bad),
        &[good],
    )?;
    let standing = Standing::first(alloc, history, state)?;
    let reach = Reach::build(alloc, history.graph())?;
    let search = RunSettings {
        history,
        reach: &reach,
        workers,
        leg: 0,
    };
    Ok(run_leg(rt, alloc, search, standing, tester)?)
}

#[test]
fn a_search_counts_its_tests(rt: HostRuntime) -> Result<(), Fail> {
    let alloc = rt.alloc();
    let history = history(alloc, stream())?;
    for workers in 1..=2 {
        let mut tester = Counting {
            inner: PlanTester::new(alloc, b"ggbb")?,
            tests: 0,
        };
        let report = report_by(&rt, alloc, &history, workers, &mut tester)?;
        assert!(rt; report.ending == Ending::FirstBad(2));
        assert_eq!(rt; tester.tests, 2);
    }
    Ok(())
}
