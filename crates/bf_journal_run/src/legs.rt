//! The legs of a run that is kept: after each the outcomes are kept first, and then the lines so far go out.
//!
//! So a crash loses no mark that you have seen printed. `go_on_kept` tests a leg and keeps its outcomes, and only then does
//! `go_through` write its lines.
ghost use Rattle.std.specs.Prelude.{◌≡◌, ◌≤◌, false, true, length, All, IfErr, IfOk, IsErrOf, OnOk};
ghost use Rattle.std.specs.Option.{is_some};
ghost use Rattle.bf_answers.specs.Answers.{IsCaused};
ghost use Rattle.bf_answers.specs.Devices.{KeepsManner, met_sink, met_tester};
ghost use Rattle.bf_io.specs.Causes.{FailsOnlyAt};
ghost use Rattle.bf_journal.specs.Journal.{Fits};
ghost use Rattle.bf_journal_run.specs.Kept.{IsSameRun};
ghost use Rattle.bf_journal_run.specs.Legs.{EndsKept, IsToldLeg, LeadsKeptOn};
ghost use Rattle.bf_output.specs.Shown.{shown_by};
ghost use Rattle.bf_search.specs.Within.{IsEndingWithin, IsEntryWithin};
ghost use Rattle.bf_searches.specs.Searching.{IsGoneCaused, IsLegReady, LeavesReady};

use crate::cut::Cut;
use crate::keep::keep_table;
use bf_answers::{Answer, write_and_flush};
use bf_farm::Report;
use bf_import::History;
use bf_io::Sink;
use bf_journal::{Disk, Journal, Recall};
use bf_runs::{RunSettings, run_leg};
use bf_searches::{Gone, Running, Telling, gone_with};
use bf_tester::{Host, Tester};

/// Tests one leg more, keeps its outcomes, and tells it.
fn go_on_kept<R: Host, T: Tester, J: Disk>(
    rt: &R,
    search: RunSettings<'_>,
    running: Running,
    tester: &mut Recall<T>,
    journal: &mut Journal,
    disk: &mut J,
) -> Result<Gone, Cut>
    requires reach { search.reach.now ≡ search.history.now.parents }
    requires ready { IsLegReady search.history.now
        (shown_by ⟦<Recall<T> as Tester>⟧ tester.old) running }
    requires is_split { T.is_split tester.old.inner ≡ false }
    requires len { length journal.old.kept ≡ length search.history.now.parents }
    requires sound { journal.old.is_sound ≡ true }
    requires fits { Fits J.told J.may_leave disk.old journal.old }
    ensures goes { LeadsKeptOn J.Disk disk.old disk.new search.entry running
        (met_tester ⟦<Recall<T> as Tester>⟧ tester.old tester.new)
        tester.old.remembered tester.new.remembered journal.old journal.new result }
    ensures next { LeavesReady search.entry
        (met_tester ⟦<Recall<T> as Tester>⟧ tester.old tester.new) result }
    ensures later { T.faults tester.old.inner ≤ T.faults tester.new.inner }
    ensures cause { IfOk result
        (IsGoneCaused (met_tester ⟦<Recall<T> as Tester>⟧ tester.old tester.new)) }
    ensures manner { KeepsManner ⟦<Recall<T> as Tester>⟧ tester.old tester.new }
    ensures is_split { T.is_split tester.new.inner ≡ false }
    ensures run { IsSameRun journal.old journal.new }
    ensures sound { OnOk result (journal.new.is_sound ≡ true) }
    ensures fits { OnOk result (Fits J.told J.may_leave disk.new journal.new) }
    ensures told { is_some (J.told disk.new) ≡ is_some (J.told disk.old) }
    ensures failed { FailsOnlyAt Cut.Journal (J.faults disk.old) (J.faults disk.new) result }
    ensures no_output { IsErrOf result Cut.Output → ⊥ }
{
    let Running { standing, telling } = running;
    let alloc = telling.text.allocator();
    let report = run_leg(rt, alloc, search, standing, tester)?;
    // What the tester keeps of its answers is needed: those on remembered places are the remembered ones.
    let _below = tester.inner();
    keep_table(journal, disk, &report.table)?;
    tell_leg(telling, search.history, report)
}

/// Tells a leg, and where it leads.
fn tell_leg(telling: Telling, history: &History, report: Report) -> Result<Gone, Cut>
    requires places { All (IsEntryWithin (length history.now.parents)) report.entries.items }
    requires end { IsEndingWithin (length history.now.parents) report.ending }
    ensures told { IfOk result (IsToldLeg history.now telling report) }
    ensures memory { IfErr result (λ cut. cut ≡ Cut.NoMemory) }
{
    let mut told = telling;
    told.add_leg(history, &report)?;
    Ok(gone_with(told, history, report)?)
}

/// Tests leg by leg what a search asks for, until it has ended or a test fails. After each leg its outcomes are kept,
/// and then the lines so far are written and the sink is flushed. The answer is what is left to write.
pub(crate) fn go_through<R: Host, T: Tester, J: Disk, K: Sink>(
    rt: &R,
    search: RunSettings<'_>,
    running: Running,
    tester: &mut Recall<T>,
    journal: Journal,
    disk: &mut J,
    out: &mut K,
) -> Result<Answer, Cut>
    requires reach { search.reach.now ≡ search.history.now.parents }
    requires ready { IsLegReady search.history.now
        (shown_by ⟦<Recall<T> as Tester>⟧ tester.old) running }
    requires is_split { T.is_split tester.old.inner ≡ false }
    requires len { length journal.kept ≡ length search.history.now.parents }
    requires sound { journal.is_sound ≡ true }
    requires fits { Fits J.told J.may_leave disk.old journal }
    ensures told { EndsKept J.Disk disk.old disk.new search.entry running
        (met_tester ⟦<Recall<T> as Tester>⟧ tester.old tester.new) tester.old.remembered journal
        (met_sink K.Sink out.old out.new) result }
    ensures cause { IfOk result
        (IsCaused true (met_tester ⟦<Recall<T> as Tester>⟧ tester.old tester.new)) }
    ensures write { FailsOnlyAt Cut.Output (K.faults out.old) (K.faults out.new) result }
    ensures failed { FailsOnlyAt Cut.Journal (J.faults disk.old) (J.faults disk.new) result }
    ensures manner { KeepsManner ⟦<Recall<T> as Tester>⟧ tester.old tester.new }
    ensures is_split { T.is_split tester.new.inner ≡ false }
    ensures told_disk { is_some (J.told disk.new) ≡ is_some (J.told disk.old) }
{
    let mut running = running;
    let mut journal = journal;
    for _ in rt.forever() {
        match go_on_kept(rt, search, running, tester, &mut journal, disk)? {
            Gone::Over(answer) => return Ok(answer),
            Gone::On(next) => running = next,
        }
        write_and_flush(out, running.telling.text.as_slice())?;
        running.telling.text.clear();
    }
    unreachable!()
}
