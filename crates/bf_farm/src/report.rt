//! What a run of tests reports.
ghost use Rattle.std.specs.Prelude.{◌≡◌, ◌||◌, ◌∷◌, [], true, length, IfOk, OnOk};
ghost use Rattle.std.specs.Option.{is_some, option_copied};
ghost use Rattle.bf_search.specs.Farm.{end_of};
ghost use Rattle.bf_search.specs.Outcomes.{outcomes_of_table};
ghost use Rattle.bf_search.specs.Run.{End};
ghost use Rattle.bf_spec.specs.Walks.{Tells};
ghost use Rattle.bf_core.specs.Machine.{IsOverGraph};
ghost use Rattle.bf_farm.specs.Answering.{IsReportOver, UsesItsTable, HasHistory};
ghost use Rattle.bf_farm.specs.Cores.{run_of};
ghost use Rattle.bf_farm.specs.Ends.{StopsAt};
ghost use Rattle.bf_farm.specs.Used.{AreKnown, marked_places, ending_place, told_places};
ghost use Rattle.bf_farm.specs.Used.{IsAnswerAt, AreAnswersAt, AreMarkedAnswers, AddsMarked};

use crate::board::Board;
use bf_core::CoreParts;
use bf_oid::Oid;
use bf_search::{Ending, Entry, Event};
use bf_spec::Table;
use bf_state::State;
use bf_tester::Answer;
use std::alloc::{AllocError, Global};

/// A run of tests that has ended.
#[derive(Drop)]
pub struct Report {
    /// The log entries of the run, without the one that began the search.
    pub entries: Vec<Entry>,
    /// How the run ended.
    pub ending: Ending,
    /// The search that the run reached.
    pub state: State,
    /// The answers that the run used, in order, each place once.
    pub used: Vec<Answer>,
    /// The outcomes by place, where they are known. The run did not ask for all of them.
    pub table: Table,
    /// What the workers did, the oldest first. Worker 0 is the calling thread.
    pub events: Vec<Event>,
}

/// The answer that a table gives of a place.
fn answer_at(table: &Table, names: &[Oid], place: u32) -> Answer
    requires known { is_some (outcomes_of_table table.now place) ≡ true }
    requires names { length names.now ≡ length table.now }
    ensures { IsAnswerAt names.now table.now place result }
{
    let (Some(outcome), Some(name)) = (table.get(place), names.get(place as usize)) else {
        unreachable!()
    };
    Answer {
        place,
        name: *name,
        outcome,
    }
}

/// The answers of the places that these entries mark.
fn marked_of(
    alloc: Global,
    table: &Table,
    entries: &[Entry],
    names: &[Oid],
) -> Result<Vec<Answer>, AllocError>
    requires names { length names.now ≡ length table.now }
    requires known { AreKnown table.now (marked_places entries.now) }
    ensures { IfOk result (λ used. AreMarkedAnswers names.now table.now entries.now used.items) }
{
    let mut used = Vec::new(alloc);
    for entry in entries {
        note_marked(&mut used, table, names, entry)?;
    }
    Ok(used)
}

/// Notes the answer of the place that an entry marks, where it marks one.
fn note_marked(
    used: &mut Vec<Answer>,
    table: &Table,
    names: &[Oid],
    entry: &Entry,
) -> Result<(), AllocError>
    requires names { length names.now ≡ length table.now }
    requires known { AreKnown table.now (marked_places (entry.now ∷ [])) }
    ensures { OnOk result (AddsMarked names.now table.now entry.now used.old.items used.new.items) }
{
    if let Entry::Marked { place, .. } = entry {
        used.push(answer_at(table, names, *place))?;
    }
    Ok(())
}

/// The answers that a run used: of the places that it marked, and of one that aborted it.
fn used_of(
    alloc: Global,
    table: &Table,
    entries: &[Entry],
    ending: Option<&Ending>,
    names: &[Oid],
) -> Result<Vec<Answer>, AllocError>
    requires names { length names.now ≡ length table.now }
    requires marked { AreKnown table.now (marked_places entries.now) }
    requires aborting { AreKnown table.now (ending_place (option_copied ending)) }
    ensures { IfOk result (λ used.
        AreAnswersAt names.now table.now (told_places entries.now ending.entry) used.items) }
{
    let mut used = marked_of(alloc, table, entries, names)?;
    if let Some(Ending::Aborted { place, .. }) = ending {
        used.push(answer_at(table, names, *place))?;
    }
    Ok(used)
}

/// How a run ends, where it has ended or the test of a place failed.
fn ending_of(ending: Option<Ending>, failed: Option<u32>) -> Ending
    requires { (is_some ending || is_some failed) ≡ true }
    ensures { (end : End) → Tells ending end → StopsAt end failed → end_of result ≡ end }
{
    match (ending, failed) {
        (Some(ending), _) => ending,
        (None, Some(place)) => Ending::TestFault(place),
        (None, None) => unreachable!(),
    }
}

/// What a board without claims comes to, where its run has ended or the test of a place failed.
pub(crate) fn report_of(
    alloc: Global,
    board: Board<'_>,
    names: &[Oid],
    failed: Option<u32>,
) -> Result<Report, AllocError>
    requires names { length names.now ≡ length board.core.farm.table }
    requires claims { board.core.farm.claims ≡ [] }
    requires stops { StopsAt (run_of board.core).end failed }
    ensures report { IfOk result (IsReportOver board.entry.core names.now) }
    ensures over { OnOk result (IsOverGraph board.entry.core.setting) }
    ensures history { IfOk result (HasHistory board.entry.core.setting board.entry.first) }
    ensures table { IfOk result (λ report. report.table ≡ board.entry.core.farm.table) }
    ensures events { IfOk result (λ report. report.events.items ≡ board.entry.events) }
    ensures used { IfOk result UsesItsTable }
{
    let (parts, events) = board.into_parts();
    let CoreParts {
        entries,
        state,
        ending,
        table,
    } = parts;
    let used = used_of(alloc, &table, entries.as_slice(), ending.as_ref(), names)?;
    Ok(Report {
        entries,
        ending: ending_of(ending, failed),
        state,
        used,
        table,
        events,
    })
}
