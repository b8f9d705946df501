//! What is told of a search behind a request that changed its machine, and as it begins.
ghost use Rattle.std.specs.Prelude.{◌≡◌, ◌++◌, ◌∷◌, [], ◌<◌, ◌≤◌, codes, drop, length, ℕ, List, All, IfOk, IfSome, OnOk};
ghost use Rattle.std.specs.Option.{option_copied};
ghost use Rattle.bf_core.specs.Machine.{IsConsumed};
ghost use Rattle.bf_graph.specs.Graph.{IsGraph};
ghost use Rattle.bf_log.specs.Lines.{Adds};
ghost use Rattle.bf_many.specs.Cores.{machine_of};
ghost use Rattle.bf_many.specs.Many.{FarmMachine};
ghost use Rattle.bf_log.specs.Written.{known_after_all};
ghost use Rattle.bf_output.specs.Beginning.{Begun, commits_of};
ghost use Rattle.bf_protocol.specs.Events.{events_text};
ghost use Rattle.bf_search.specs.Run.{End};
ghost use Rattle.bf_search.specs.Within.{IsEndingWithin, IsEntryWithin};
ghost use Rattle.bf_spec.specs.Walks.{Tells};
ghost use Rattle.bf_serve.specs.Searches.{left_in};
ghost use Rattle.bf_serve.specs.Steps.{IsOver, KnowsNoLess, StandsAt, StartsAs};
ghost use Rattle.bf_serve.specs.Steps.{TellsBegun, TellsRun};
ghost use Rattle.bf_serve.specs.Turns as turns;
ghost use Rattle.bf_terms.specs.Texts.{log_from};

use crate::ending::put_ending;
use crate::opening::Opening;
use crate::remaining::{Remaining, remaining_in};
use crate::standing::Progress;
use bf_answers::{commits_of, sides_of};
use bf_core::Core;
use bf_import::History;
use bf_io::Bytes;
use bf_log::write_more;
use bf_protocol::{put_left, put_log, put_needless};
use bf_reach::Reach;
use bf_search::{Ending, Entry};
use bf_terms::Terms;
use std::alloc::{AllocError, Global};

/// What is told of: the search of a number, over a history.
#[derive(Clone, Copy)]
pub(crate) struct Subject<'a> {
    pub history: &'a History,
    pub reach: &'a Reach,
    pub number: u32,
}

/// Adds what is left of a search, where it has changed.
fn put_changed_left(
    out: &mut Bytes,
    number: u32,
    before: Remaining,
    now: Remaining,
) -> Result<(), AllocError>
    ensures { Adds out.old out.new result (events_text (turns.changed_left number before now)) }
{
    if before.left == now.left && before.away == now.away {
        Ok(())
    } else {
        put_left(out, number, now.left, now.away)
    }
}

/// Adds the end of a search, where it has one.
fn put_ended(
    history: &History,
    number: u32,
    terms: &Terms,
    ending: Option<&Ending>,
    out: &mut Bytes,
) -> Result<(), AllocError>
    requires { IfSome (option_copied ending) (IsEndingWithin (length history.now.parents)) }
    ensures { (end : End) → Tells (option_copied ending.entry) end → Adds out.old out.new result
        (events_text (turns.ended_by (commits_of history.now) number terms.now end)) }
{
    match ending {
        Some(ending) => put_ending(number, commits_of(history), sides_of(terms), ending, out),
        None => Ok(()),
    }
}

/// Adds the lines of further entries of a log, and notes what they make known.
fn write_entries(
    history: &History,
    opening: &mut Opening,
    entries: &[Entry],
    text: &mut Bytes,
) -> Result<(), AllocError>
    requires { All (IsEntryWithin (length history.now.parents)) entries.now }
    ensures text { let log = log_from (commits_of history.now) opening.old.terms in
        Adds text.old text.new result (log opening.old.known entries.now) }
    ensures opening { OnOk result (opening.new ≡
        record opening.old { known = known_after_all opening.old.known entries.now }) }
{
    let commits = commits_of(history);
    let sides = sides_of(&opening.terms);
    write_more(&mut opening.known, commits, sides, entries, text)
}

/// The entries behind so many.
fn entries_behind(entries: &[Entry], count: usize) -> &[Entry]
    ensures { result.now ≡ drop count entries.now }
{
    entries.get(count..).unwrap_or_default()
}

/// What is left of a search, which stood so before: what was left then, where its run has no further entries.
fn remaining_behind(
    alloc: Global,
    reach: &Reach,
    core: &Core<'_>,
    standing: Progress,
    further: &[Entry],
) -> Result<Remaining, AllocError>
    requires graph { IsGraph reach.now }
    requires over { IsOver reach.now (machine_of core.now) }
    requires consumed { IsConsumed core.now }
    requires further { further.now ≡ drop standing.entries core.now.entries }
    ensures { (old : FarmMachine) → StandsAt old standing → KnowsNoLess old (machine_of core.now) →
        IfOk result (λ remaining. remaining ≡ left_in (machine_of core.now)) }
{
    if further.is_empty() {
        Ok(standing.remaining)
    } else {
        remaining_in(alloc, reach, core.state())
    }
}

/// Adds what is told of the run of a search, which stood so before, and returns what is left of it.
pub(crate) fn put_news(
    subject: Subject<'_>,
    opening: &mut Opening,
    standing: Progress,
    core: &Core<'_>,
    out: &mut Bytes,
) -> Result<Remaining, AllocError>
    requires reach { subject.reach.now ≡ subject.history.now.parents }
    requires graph { IsGraph subject.reach.now }
    requires over { IsOver subject.reach.now (machine_of core.now) }
    requires consumed { IsConsumed core.now }
    ensures { (old : FarmMachine) → StandsAt old standing → KnowsNoLess old (machine_of core.now) →
        IfOk result (TellsRun subject.entry.history.now subject.entry.number old
        (machine_of core.now) opening.old opening.new out.old out.new) }
{
    let mut text = Bytes::new(out.allocator());
    let further = entries_behind(core.entries(), standing.entries);
    write_entries(subject.history, opening, further, &mut text)?;
    put_log(out, subject.number, text.as_slice())?;
    let remaining = remaining_behind(out.allocator(), subject.reach, core, standing, further)?;
    put_changed_left(out, subject.number, standing.remaining, remaining)?;
    if !standing.is_open {
        return Ok(remaining);
    }
    let ending = core.ending();
    put_ended(subject.history, subject.number, &opening.terms, ending, out)?;
    Ok(remaining)
}

/// Adds what is told of a search as it begins, where its log begins with these entries, and returns what is left of it.
pub(crate) fn put_first_news(
    subject: Subject<'_>,
    opening: &mut Opening,
    entries: &[Entry],
    core: &Core<'_>,
    out: &mut Bytes,
) -> Result<Remaining, AllocError>
    requires reach { subject.reach.now ≡ subject.history.now.parents }
    requires graph { IsGraph subject.reach.now }
    requires over { IsOver subject.reach.now (machine_of core.now) }
    requires consumed { IsConsumed core.now }
    requires entries { All (IsEntryWithin (length subject.history.now.parents)) entries.now }
    ensures { (first : Begun) → StartsAs opening.old entries.now first → IfOk result
        (TellsBegun subject.entry.history.now subject.entry.number first (machine_of core.now)
        opening.old opening.new out.old out.new) }
{
    let mut text = Bytes::new(out.allocator());
    write_entries(subject.history, opening, entries, &mut text)?;
    write_entries(subject.history, opening, core.entries(), &mut text)?;
    put_log(out, subject.number, text.as_slice())?;
    let remaining = remaining_in(out.allocator(), subject.reach, core.state())?;
    put_left(out, subject.number, remaining.left, remaining.away)?;
    let ending = core.ending();
    put_ended(subject.history, subject.number, &opening.terms, ending, out)?;
    Ok(remaining)
}

/// Adds the workers whose commits no path of a search asks for, where they have changed.
pub(crate) fn put_changed_needless(
    out: &mut Bytes,
    number: u32,
    before: &[u32],
    now: &[u32],
) -> Result<(), AllocError>
    ensures { let told = turns.changed_needless number before.now now.now in
        Adds out.old out.new result (events_text told) }
{
    if before == now {
        Ok(())
    } else {
        put_needless(out, number, now)
    }
}
