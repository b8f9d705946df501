//! Searches: the commands `simulate` and `run`.
ghost use Rattle.std.specs.Prelude.{◌≡◌, ◌≢◌, true, false, [], IfOk};
ghost use Rattle.bf_io.specs.Causes.{FailsOnlyAt, Rose};
ghost use Rattle.bf_output.specs.Shown as shown;
ghost use Rattle.bf_output.specs.Shown.{TesterShown, shown_by};
ghost use Rattle.bf_answers.specs.Answers.{IsCaused, IsWholeAnswer};
ghost use Rattle.bf_answers.specs.Devices.{met_sink, met_tester};
ghost use Rattle.bf_searches.specs.Lines.{HasTestCauseIn, IsCausedIn, IsUsedIn, IsUsedToTest};
ghost use Rattle.bf_answers.specs.Ready.{IsStarted, verb_of};
ghost use Rattle.bf_searches.specs.Searching.{ConcludesSearch, TellsSearch, CutsSearch};
ghost use Rattle.bf_answers.specs.Steps.{HasPlan};
ghost use Rattle.bf_words.specs.declared.verb.Verb.TheVariants as Verb;

use crate::legs::run_legs;
use crate::plan::tester_of;
use bf_answers::{Answer, Means, RequestLine, Started, say, status_of_fault};
use bf_io::{Sink, SinkFault, Word};
use bf_output::Status;
use bf_tester::{Host, Tester};

/// The words of the command that tests.
pub fn command_of<'a>(line: RequestLine<'a>) -> &'a [Word]
    ensures { result.now ≡ shown.command_of line.entry.request.now line.entry.words.now }
{
    match line.request.tail {
        Some(tail) => line.words.get(tail as usize..).unwrap_or_default(),
        None => &[],
    }
}

/// Tests what a search asks for, writes what it tells, and returns its status.
pub fn search<R: Host, T: Tester, K: Sink>(
    rt: &R,
    line: RequestLine<'_>,
    started: Started,
    tester: &mut T,
    out: &mut K,
) -> Status
    requires plan { HasPlan line.request.now line.words.now }
    requires started { IsStarted started }
    requires asked { verb_of started.means ≡ line.request.now.verb }
    requires fresh { T.answers tester.old ≡ [] }
    requires is_split { T.is_split tester.old ≡ false }
    ensures told { ConcludesSearch line.entry started (met_tester T.Tester tester.old tester.new)
        (met_sink K.Sink out.old out.new) result }
    ensures test { HasTestCauseIn line.entry (met_tester T.Tester tester.old tester.new) result }
    ensures write { result ≡ Status.WriteFault → Rose (K.faults out.old) (K.faults out.new) }
    ensures own { (result ≢ Status.ReadFault) × (result ≢ Status.ShelfFault) }
    ensures no_journal { result ≢ Status.JournalFault }
    ensures is_split { T.is_split tester.new ≡ false }
    ensures grounds { T.grounds tester.new ≡ T.grounds tester.old }
    ensures recalled { T.recalled tester.new ≡ T.recalled tester.old }
    ensures used { IsUsedIn line.entry (met_tester T.Tester tester.old tester.new) }
{
    match search_by(rt, line, started, tester, out) {
        Ok(answer) => say(out, answer.text.as_slice(), answer.status),
        Err(fault) => status_of_fault(fault),
    }
}

/// Tests what a search asks for, by its means. The answer is what is left to write.
fn search_by<R: Host, T: Tester, K: Sink>(
    rt: &R,
    line: RequestLine<'_>,
    started: Started,
    tester: &mut T,
    out: &mut K,
) -> Result<Answer, SinkFault>
    requires plan { HasPlan line.request.now line.words.now }
    requires started { IsStarted started }
    requires asked { verb_of started.means ≡ line.request.now.verb }
    requires fresh { T.answers tester.old ≡ [] }
    requires is_split { T.is_split tester.old ≡ false }
    ensures told { IfOk result (TellsSearch line.entry.request.now.verb line.entry started
        (shown_by T.Tester tester.new) (met_sink K.Sink out.old out.new)) }
    ensures cut { CutsSearch line.entry.request.now.verb line.entry started
        (shown_by T.Tester tester.new) (met_sink K.Sink out.old out.new) result }
    ensures cause { IfOk result (IsCausedIn line.entry
        (met_tester T.Tester tester.old tester.new)) }
    ensures write { FailsOnlyAt SinkFault.Failed (K.faults out.old) (K.faults out.new) result }
    ensures used { IsUsedIn line.entry (met_tester T.Tester tester.old tester.new) }
    ensures is_split { T.is_split tester.new ≡ false }
    ensures grounds { T.grounds tester.new ≡ T.grounds tester.old }
    ensures recalled { T.recalled tester.new ≡ T.recalled tester.old }
{
    match started.means {
        Means::Plan => search_by_plan(rt, line, started, out),
        Means::Command => search_by_command(rt, line, started, tester, out),
    }
}

/// Tests by the plan that the words write.
pub fn search_by_plan<R: Host, K: Sink>(
    rt: &R,
    line: RequestLine<'_>,
    started: Started,
    out: &mut K,
) -> Result<Answer, SinkFault>
    requires plan { HasPlan line.request.now line.words.now }
    requires started { IsStarted started }
    ensures told { (tested : TesterShown) → IfOk result (TellsSearch Verb.Simulate line.entry
        started tested (met_sink K.Sink out.old out.new)) }
    ensures cut { (tested : TesterShown) → CutsSearch Verb.Simulate line.entry started
        tested (met_sink K.Sink out.old out.new) result }
    ensures whole { IfOk result IsWholeAnswer }
    ensures write { FailsOnlyAt SinkFault.Failed (K.faults out.old) (K.faults out.new) result }
{
    let mut tester = tester_of(line.alloc, line)?;
    run_legs(rt, line, started, &mut tester, out)
}

/// Tests by the command that the words name: the tester takes it first.
pub fn search_by_command<R: Host, T: Tester, K: Sink>(
    rt: &R,
    line: RequestLine<'_>,
    started: Started,
    tester: &mut T,
    out: &mut K,
) -> Result<Answer, SinkFault>
    requires started { IsStarted started }
    requires fresh { T.answers tester.old ≡ [] }
    requires is_split { T.is_split tester.old ≡ false }
    ensures told { IfOk result (TellsSearch Verb.Run line.entry started
        (shown_by T.Tester tester.new) (met_sink K.Sink out.old out.new)) }
    ensures cut { CutsSearch Verb.Run line.entry started
        (shown_by T.Tester tester.new) (met_sink K.Sink out.old out.new) result }
    ensures cause { IfOk result (IsCaused true (met_tester T.Tester tester.old tester.new)) }
    ensures write { FailsOnlyAt SinkFault.Failed (K.faults out.old) (K.faults out.new) result }
    ensures used { IsUsedToTest line.entry (met_tester T.Tester tester.old tester.new) }
    ensures is_split { T.is_split tester.new ≡ false }
    ensures grounds { T.grounds tester.new ≡ T.grounds tester.old }
    ensures recalled { T.recalled tester.new ≡ T.recalled tester.old }
{
    tester.prepare(command_of(line), line.request.lenient)?;
    run_legs(rt, line, started, tester, out)
}
