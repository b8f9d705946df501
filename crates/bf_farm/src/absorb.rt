//! The answers of the workers come home.
ghost use Rattle.std.specs.Prelude.{◌≡◌, ◌++◌, OnOk};
ghost use Rattle.bf_farm.specs.Testers.{KeepsManner, HasAnswersOf};
ghost use Rattle.bf_farm.specs.Workers.{AreOfManner, HasAllAnswersOf, GainsAnswersOf};

use crate::worker::Worker;
use bf_tester::Tester;
use std::alloc::AllocError;

/// Absorbs the answers of all workers. After want of memory some were absorbed.
pub(crate) fn absorb_all<T: Tester>(
    tester: &mut T,
    workers: Vec<Worker<T>>,
) -> Result<(), AllocError>
    requires { AreOfManner T.Tester tester.old workers.items }
    ensures manner { KeepsManner T.Tester tester.old tester.new }
    ensures is_split { T.is_split tester.new ≡ T.is_split tester.old }
    ensures faults { T.faults tester.new ≡ T.faults tester.old }
    ensures own { HasAnswersOf T.Tester tester.new tester.old }
    ensures absorbed { OnOk result (HasAllAnswersOf T.Tester tester.new workers.items) }
    ensures gained { OnOk result (GainsAnswersOf T.Tester tester.old tester.new workers.items) }
{
    for worker in workers {
        absorb(tester, worker.tester)?;
    }
    Ok(())
}

/// Absorbs the answers of one tester.
fn absorb<T: Tester>(tester: &mut T, other: T) -> Result<(), AllocError>
    requires { KeepsManner T.Tester tester.old other }
    ensures manner { KeepsManner T.Tester tester.old tester.new }
    ensures is_split { T.is_split tester.new ≡ T.is_split tester.old }
    ensures faults { T.faults tester.new ≡ T.faults tester.old }
    ensures own { HasAnswersOf T.Tester tester.new tester.old }
    ensures absorbed { OnOk result (HasAnswersOf T.Tester tester.new other) }
    ensures gained { OnOk result (T.answers tester.new ≡ T.answers tester.old ++ T.answers other) }
{
    match tester.absorb(other) {
        Ok(()) => Ok(()),
        Err(_) => return Err(AllocError),
    }
}
