//! The legs of a search: after each the lines so far go out.
//!
//! A leg's text is made whole before it is written, and every refusal comes before the first leg. So no refusal follows
//! part of a log.
ghost use Rattle.std.specs.Prelude.{◌≡◌, ◌≤◌, false, true, [], length, IfOk};
ghost use Rattle.bf_farm.specs.Testers.{HasAnswersOf};
ghost use Rattle.bf_state.specs.Ends.{HasEnds};
ghost use Rattle.bf_io.specs.Causes.{FailsOnlyAt};
ghost use Rattle.bf_output.specs.Shown.{shown_by};
ghost use Rattle.bf_answers.specs.Answers.{IsCaused};
ghost use Rattle.bf_answers.specs.Devices.{KeepsManner, met_sink, met_tester};
ghost use Rattle.bf_searches.specs.Searching.{BeginsRun, IsGoneCaused, IsLegReady, LeadsOnWith, LeadsOverWith, LeadsRunOn, LeavesFewer, LeavesReady};
ghost use Rattle.bf_answers.specs.Ready.{IsStarted};
ghost use Rattle.bf_searches.specs.Searching.{CutsRest, CutsRun, TellsRest, TellsRun};
ghost use Rattle.bf_answers.specs.Tellings.{AreWithin};
ghost use Rattle.bf_search.specs.Within.{IsEndingWithin};

use crate::telling::Telling;
use bf_answers::{Answer, Beginning, RequestLine, Started, commits_of, sides_of, write_and_flush};
use bf_farm::Report;
use bf_import::History;
use bf_io::{Sink, SinkFault};
use bf_runs::{RunSettings, Standing, run_leg};
use bf_search::Ending;
use bf_tester::{Host, Tester};
use std::alloc::AllocError;

/// A search on its way: where its next leg begins, and its text.
#[derive(Drop)]
pub struct Running {
    pub standing: Standing,
    pub telling: Telling,
}

/// What a leg leads to.
#[derive(Drop)]
pub enum Gone {
    /// The next leg.
    On(Running),
    /// The end, with what is left to write.
    Over(Answer),
}

/// A search of which no commit is tested yet. The entries of its beginning are about to be written.
pub fn begin_running(
    line: RequestLine<'_>,
    history: &History,
    first: Beginning,
) -> Result<Running, AllocError>
    requires len { first.state.len ≡ length history.now.parents }
    requires places { AreWithin first }
    requires ends { HasEnds first.state.search }
    ensures { BeginsRun line.entry history.now first result }
{
    // What the length tells is needed: the places of the search are places of the history.
    let _places = first.state.len();
    let Beginning {
        state,
        known,
        entries,
    } = first;
    let mut telling = Telling::new(line.alloc, known, line.request.trace);
    telling.add_entries(history, &state, entries.as_slice())?;
    let standing = Standing::first(line.alloc, history, state)?;
    Ok(Running { standing, telling })
}

/// The next leg, or the answer, once a leg is told.
pub fn gone_with(telling: Telling, history: &History, report: Report) -> Result<Gone, AllocError>
    requires { IsEndingWithin (length history.now.parents) report.ending }
    ensures on { IfOk result (LeadsOnWith telling report) }
    ensures over { IfOk result (LeadsOverWith history.now telling report) }
{
    let Report {
        ending,
        state,
        table,
        ..
    } = report;
    let mut telling = telling;
    if let Ending::Leg = ending {
        telling.end_leg()?;
        let standing = Standing { state, table };
        Ok(Gone::On(Running { standing, telling }))
    } else {
        let sides = sides_of(&state.terms);
        let answer = telling.end(commits_of(history), sides, ending)?;
        Ok(Gone::Over(answer))
    }
}

/// Tests one leg more, and tells it.
pub fn go_on<R: Host, T: Tester>(
    rt: &R,
    search: RunSettings<'_>,
    running: Running,
    tester: &mut T,
) -> Result<Gone, AllocError>
    requires reach { search.reach.now ≡ search.history.now.parents }
    requires ready { IsLegReady search.history.now (shown_by T.Tester tester.old) running }
    requires is_split { T.is_split tester.old ≡ false }
    ensures goes { LeadsRunOn search.entry running
        (met_tester T.Tester tester.old tester.new) result }
    ensures next { LeavesReady search.entry (met_tester T.Tester tester.old tester.new) result }
    ensures fewer { LeavesFewer search.entry running result }
    ensures later { T.faults tester.old ≤ T.faults tester.new }
    ensures cause { IfOk result (IsGoneCaused (met_tester T.Tester tester.old tester.new)) }
    ensures manner { KeepsManner T.Tester tester.old tester.new }
    ensures own { HasAnswersOf T.Tester tester.new tester.old }
    ensures is_split { T.is_split tester.new ≡ false }
{
    let Running {
        standing,
        mut telling,
    } = running;
    let alloc = telling.text.allocator();
    let report = run_leg(rt, alloc, search, standing, tester)?;
    telling.add_leg(search.history, &report)?;
    gone_with(telling, search.history, report)
}

/// Tests leg by leg what a search asks for, until it has ended or a test fails. After each leg the lines so far
/// are written and the sink is flushed. The answer is what is left to write. There are no more legs than commits,
/// since each leg but the last leaves fewer to ask for: only the tests may be waited for.
fn go_through<R: Host, T: Tester, K: Sink>(
    rt: &R,
    search: RunSettings<'_>,
    running: Running,
    tester: &mut T,
    out: &mut K,
) -> Result<Answer, SinkFault>
    requires reach { search.reach.now ≡ search.history.now.parents }
    requires ready { IsLegReady search.history.now (shown_by T.Tester tester.old) running }
    requires is_split { T.is_split tester.old ≡ false }
    ensures told { TellsRest search.entry running (met_tester T.Tester tester.old tester.new)
        (met_sink K.Sink out.old out.new) result }
    ensures cut { CutsRest search.entry running (met_tester T.Tester tester.old tester.new)
        (met_sink K.Sink out.old out.new) result }
    ensures cause { IfOk result (IsCaused true (met_tester T.Tester tester.old tester.new)) }
    ensures write { FailsOnlyAt SinkFault.Failed (K.faults out.old) (K.faults out.new) result }
    ensures manner { KeepsManner T.Tester tester.old tester.new }
    ensures is_split { T.is_split tester.new ≡ false }
{
    let mut running = running;
    'legs: loop {
        match go_on(rt, search, running, tester)? {
            Gone::Over(answer) => return Ok(answer),
            Gone::On(next) => running = next,
        }
        write_and_flush(out, running.telling.text.as_slice())?;
        running.telling.text.clear();
    }
}

/// Tests what a search asks for that has begun. The answer is what is left to write.
pub fn run_legs<R: Host, T: Tester, K: Sink>(
    rt: &R,
    line: RequestLine<'_>,
    started: Started,
    tester: &mut T,
    out: &mut K,
) -> Result<Answer, SinkFault>
    requires started { IsStarted started }
    requires fresh { T.answers tester.old ≡ [] }
    requires is_split { T.is_split tester.old ≡ false }
    ensures told { IfOk result (TellsRun line.entry started (shown_by T.Tester tester.new)
        (met_sink K.Sink out.old out.new)) }
    ensures cut { CutsRun line.entry started (shown_by T.Tester tester.new)
        (met_sink K.Sink out.old out.new) result }
    ensures cause { IfOk result (IsCaused true (met_tester T.Tester tester.old tester.new)) }
    ensures write { FailsOnlyAt SinkFault.Failed (K.faults out.old) (K.faults out.new) result }
    ensures manner { KeepsManner T.Tester tester.old tester.new }
    ensures is_split { T.is_split tester.new ≡ false }
{
    let Started {
        history,
        reach,
        first,
        ..
    } = started;
    let search = RunSettings {
        history: &history,
        reach: &reach,
        workers: line.request.workers,
        leg: line.request.leg,
    };
    let running = begin_running(line, &history, first)?;
    go_through(rt, search, running, tester, out)
}
