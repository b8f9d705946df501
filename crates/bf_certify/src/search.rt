//! A search that is to be certified: its commits are tested in one run, of which nothing is written before its end.
ghost use Rattle.std.specs.Prelude.{◌≡◌, false, true, [], IfOk};
ghost use Rattle.bf_answers.specs.Answers.{IsCaused, IsWholeAnswer};
ghost use Rattle.bf_answers.specs.Devices.{KeepsManner, met_tester};
ghost use Rattle.bf_answers.specs.Ready.{IsStarted, verb_of};
ghost use Rattle.bf_answers.specs.Steps.{HasPlan};
ghost use Rattle.bf_certify.specs.Tells.{IsOfSearch, TellsPlanned, TellsRun, TellsSearch};
ghost use Rattle.bf_output.specs.Shown.{shown_by};
ghost use Rattle.bf_searches.specs.Lines.{IsCausedIn, IsUsedIn, IsUsedToTest};

use crate::ended::answer_run;
use bf_answers::{Answer, Means, RequestLine, Started};
use bf_runs::{RunSettings, run_leg};
use bf_searches::{Running, begin_running, command_of, tester_of};
use bf_tester::{Host, Tester};
use std::alloc::AllocError;

/// Tests what a search asks for, by its means, and answers with its certificate or with how it ended.
pub(crate) fn certify_search<R: Host, T: Tester>(
    rt: &R,
    line: RequestLine<'_>,
    started: Started,
    tester: &mut T,
) -> Result<Answer, AllocError>
    requires plan { HasPlan line.request.now line.words.now }
    requires whole { line.request.now.leg ≡ 0 }
    requires plain { line.request.now.trace ≡ false }
    requires started { IsStarted started }
    requires asked { verb_of started.means ≡ line.request.now.verb }
    requires fresh { T.answers tester.old ≡ [] }
    requires is_split { T.is_split tester.old ≡ false }
    ensures tells { IfOk result (TellsSearch line.entry started (shown_by T.Tester tester.new)) }
    ensures cause { IfOk result (IsCausedIn line.entry
        (met_tester T.Tester tester.old tester.new)) }
    ensures of_search { IfOk result IsOfSearch }
    ensures used { IsUsedIn line.entry (met_tester T.Tester tester.old tester.new) }
    ensures is_split { T.is_split tester.new ≡ false }
    ensures recalled { T.recalled tester.new ≡ T.recalled tester.old }
{
    match started.means {
        Means::Plan => certify_by_plan(rt, line, started),
        Means::Command => certify_by_command(rt, line, started, tester),
    }
}

/// Tests by the plan that the words write.
fn certify_by_plan<R: Host>(
    rt: &R,
    line: RequestLine<'_>,
    started: Started,
) -> Result<Answer, AllocError>
    requires plan { HasPlan line.request.now line.words.now }
    requires whole { line.request.now.leg ≡ 0 }
    requires plain { line.request.now.trace ≡ false }
    requires started { IsStarted started }
    ensures tells { IfOk result (TellsPlanned line.entry started) }
    ensures whole { IfOk result IsWholeAnswer }
    ensures of_search { IfOk result IsOfSearch }
{
    let mut tester = tester_of(line.alloc, line)?;
    certify_run(rt, line, started, &mut tester)
}

/// Tests by the command that the words name: the tester takes it first.
fn certify_by_command<R: Host, T: Tester>(
    rt: &R,
    line: RequestLine<'_>,
    started: Started,
    tester: &mut T,
) -> Result<Answer, AllocError>
    requires whole { line.request.now.leg ≡ 0 }
    requires plain { line.request.now.trace ≡ false }
    requires started { IsStarted started }
    requires fresh { T.answers tester.old ≡ [] }
    requires is_split { T.is_split tester.old ≡ false }
    ensures tells { IfOk result (TellsRun line.entry started (shown_by T.Tester tester.new)) }
    ensures cause { IfOk result (IsCaused true (met_tester T.Tester tester.old tester.new)) }
    ensures of_search { IfOk result IsOfSearch }
    ensures used { IsUsedToTest line.entry (met_tester T.Tester tester.old tester.new) }
    ensures is_split { T.is_split tester.new ≡ false }
    ensures recalled { T.recalled tester.new ≡ T.recalled tester.old }
{
    tester.prepare(command_of(line), line.request.lenient)?;
    certify_run(rt, line, started, tester)
}

/// Tests what a search asks for, in one run to its end.
fn certify_run<R: Host, T: Tester>(
    rt: &R,
    line: RequestLine<'_>,
    started: Started,
    tester: &mut T,
) -> Result<Answer, AllocError>
    requires whole { line.request.now.leg ≡ 0 }
    requires plain { line.request.now.trace ≡ false }
    requires started { IsStarted started }
    requires fresh { T.answers tester.old ≡ [] }
    requires is_split { T.is_split tester.old ≡ false }
    ensures tells { IfOk result (TellsRun line.entry started (shown_by T.Tester tester.new)) }
    ensures cause { IfOk result (IsCaused true (met_tester T.Tester tester.old tester.new)) }
    ensures of_search { IfOk result IsOfSearch }
    ensures manner { KeepsManner T.Tester tester.old tester.new }
    ensures is_split { T.is_split tester.new ≡ false }
{
    let Started {
        history,
        reach,
        first,
        ..
    } = started;
    let search = RunSettings {
        history: &history,
        reach: &reach,
        workers: line.request.workers,
        leg: line.request.leg,
    };
    let running = begin_running(line, &history, first)?;
    let Running { standing, telling } = running;
    // What the lengths tell is needed: the graph is sorted, and the places of the search are places of it.
    let _commits = reach.len();
    let _places = standing.state.len();
    let report = run_leg(rt, line.alloc, search, standing, tester)?;
    answer_run(&history, &reach, telling, report)
}
