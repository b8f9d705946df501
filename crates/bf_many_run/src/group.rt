//! Searches over one history, whose commits the same workers test.
ghost use Rattle.std.specs.Prelude.{◌≡◌, ◌≤◌, [], ◌∷◌, ◌++◌, length, map, All, IfOk, IsErrOf, OnOk};
ghost use Rattle.std.specs.Vec.Iter.{into_iter_items};
ghost use Rattle.bf_answers.specs.Answers.{IsWholeAnswer};
ghost use Rattle.bf_answers.specs.Tellings.{Says};
ghost use Rattle.bf_commands.specs.Many as many;
ghost use Rattle.bf_many_run.specs.Command.{IsCount};
ghost use Rattle.bf_many_run.specs.Groups.{AllCanTell, AreBegun, CanTell, CanTellSlot, TellsSlot};
ghost use Rattle.bf_many_run.specs.Groups.{all_told, behind, plan_in, searches_in, told_over};
ghost use Rattle.bf_many_run.specs.Lists.{IsAskedBy, words_in};
ghost use Rattle.bf_search.specs.Within.{IsEndingWithin, IsEntryWithin};
ghost use Rattle.bf_searches.specs.Telling.{IsLogOf};

use crate::list::ListLine;
use crate::slots::{BegunSearch, Group, ListSlot, begin_all};
use crate::text::Texts;
use bf_answers::{Answer, Fault, commits_of, sides_of};
use bf_farm::Report;
use bf_import::History;
use bf_many::{ManyCase, ReadySearch, run_shared};
use bf_reach::Reach;
use bf_runs::{RunSettings, Standing, run_leg};
use bf_searches::Telling;
use bf_spec::Table;
use bf_tester::{Host, PlanTester, Tester};
use std::alloc::{AllocError, Global};
use std::vec::IntoIter;

/// Adds the search of a slot, where it has begun, to those that shared workers start from. No outcome is known.
fn push_search(
    alloc: Global,
    searches: &mut Vec<ReadySearch>,
    len: u32,
    slot: &ListSlot,
) -> Result<(), AllocError>
    ensures { let more = searches_in len (slot.now ∷ []) in
        OnOk result (searches.new.items ≡ searches.old.items ++ more) }
{
    if let ListSlot::Begun(begun) = slot {
        let state = begun.state.try_clone()?;
        let table = Table::new(alloc, len)?;
        searches.push(ReadySearch { state, table })?;
    }
    Ok(())
}

/// What shared workers start from: the searches that have begun.
fn searches_of(alloc: Global, len: u32, slots: &[ListSlot]) -> Result<Vec<ReadySearch>, AllocError>
    ensures { IfOk result (λ searches. searches.items ≡ searches_in len slots.now) }
{
    let mut searches = Vec::new(alloc);
    for slot in slots {
        push_search(alloc, &mut searches, len, slot)?;
    }
    Ok(searches)
}

/// The log of a search as its run goes on, and how it ended.
fn finish(history: &History, telling: Telling, report: Report) -> Result<Answer, AllocError>
    requires entries { All (IsEntryWithin (length history.now.parents)) report.entries.items }
    requires ending { IsEndingWithin (length history.now.parents) report.ending }
    ensures { IfOk result (IsLogOf history.now telling report) }
{
    let mut telling = telling;
    telling.add_leg(history, &report)?;
    let Report { ending, state, .. } = report;
    let sides = sides_of(&state.terms);
    telling.end(commits_of(history), sides, ending)
}

/// What a search tells, where this is known of its commits. What it asks for beyond that its tester tests.
fn tell<R: Host>(
    rt: &R,
    search: RunSettings<'_>,
    begun: BegunSearch,
    table: Table,
    tester: &mut PlanTester,
) -> Result<Answer, AllocError>
    requires reach { search.reach.now ≡ search.history.now.parents }
    requires whole { search.leg ≡ 0 }
    requires ready { CanTell ⟦<PlanTester as Tester>⟧ search.history.now begun tester.old table }
    ensures told { let plan = plan_in ⟦<PlanTester as Tester>⟧ tester.old in
        IfOk result (Says (told_over search.entry.history.now begun plan)) }
    ensures whole { IfOk result IsWholeAnswer }
{
    let BegunSearch { state, telling } = begun;
    let alloc = telling.text.allocator();
    let report = run_leg(rt, alloc, search, Standing { state, table }, tester)?;
    finish(search.history, telling, report)
}

/// What the next slot of a group tells. A search that has begun takes the next tester and the next table.
fn tell_slot<R: Host>(
    rt: &R,
    search: RunSettings<'_>,
    slot: ListSlot,
    testers: &mut IntoIter<PlanTester>,
    tables: &mut IntoIter<Table>,
) -> Result<Answer, AllocError>
    requires reach { search.reach.now ≡ search.history.now.parents }
    requires whole { search.leg ≡ 0 }
    requires ready { CanTellSlot ⟦<PlanTester as Tester>⟧ search.history.now slot
        (into_iter_items testers.old) (into_iter_items tables.old) }
    ensures told { IfOk result (TellsSlot ⟦<PlanTester as Tester>⟧ search.entry.history.now
        slot (into_iter_items testers.old)) }
    ensures whole { IfOk result IsWholeAnswer }
    ensures testers { into_iter_items testers.new ≡ behind slot (into_iter_items testers.old) }
    ensures tables { into_iter_items tables.new ≡ behind slot (into_iter_items tables.old) }
{
    match slot {
        ListSlot::Refused(answer) => Ok(answer),
        ListSlot::Begun(begun) => match (testers.next(), tables.next()) {
            (Some(mut tester), Some(table)) => tell(rt, search, begun, table, &mut tester),
            _ => unreachable!(),
        },
    }
}

/// Lets so many workers as the search has share the searches, and returns what they find out of the commits of each.
fn share<R: Host>(
    rt: &R,
    search: RunSettings<'_>,
    group: &mut Group,
) -> Result<Vec<Table>, AllocError>
    requires reach { search.reach.now ≡ search.history.now.parents }
    requires workers { IsCount search.workers }
    requires few { length group.old.slots.items ≤ 64 }
    requires begun { AreBegun ⟦<PlanTester as Tester>⟧ search.history.now
        group.old.slots.items group.old.testers.items }
    ensures known { IfOk result (λ tables. AllCanTell ⟦<PlanTester as Tester>⟧
        search.entry.history.now group.new.slots.items group.new.testers.items tables.items) }
    ensures slots { group.new.slots ≡ group.old.slots }
    ensures told { let told = all_told ⟦<PlanTester as Tester>⟧ search.entry.history.now in
        OnOk result (told group.new.slots.items group.new.testers.items
        ≡ told group.old.slots.items group.old.testers.items) }
{
    let len = search.history.len();
    let names = search.history.names();
    let searches = searches_of(group.alloc, len, group.slots.as_slice())?;
    let case = ManyCase {
        reach: search.reach,
        names,
        searches,
    };
    let testers = group.testers.as_mut_slice();
    let shared = run_shared(rt, group.alloc, case, search.workers, testers)?;
    Ok(shared.tables)
}

/// What all searches of a group tell, where this is known of the commits of those that have begun.
fn tell_all<R: Host>(
    rt: &R,
    search: RunSettings<'_>,
    group: Group,
    tables: Vec<Table>,
) -> Result<Answer, AllocError>
    requires reach { search.reach.now ≡ search.history.now.parents }
    requires whole { search.leg ≡ 0 }
    requires few { length group.slots.items ≤ 64 }
    requires ready { AllCanTell ⟦<PlanTester as Tester>⟧ search.history.now
        group.slots.items group.testers.items tables.items }
    ensures told { let told = all_told ⟦<PlanTester as Tester>⟧ search.entry.history.now in
        IfOk result (Says (many.told_of_all (told group.slots.items group.testers.items))) }
    ensures whole { IfOk result IsWholeAnswer }
{
    let Group {
        alloc,
        slots,
        testers,
    } = group;
    let mut texts = Texts::new(alloc);
    let mut testers = testers.into_iter();
    let mut tables = tables.into_iter();
    for slot in slots {
        let answer = tell_slot(rt, search, slot, &mut testers, &mut tables)?;
        texts.add(&answer)?;
    }
    Ok(texts.into_answer())
}

/// What the searches of a list tell, by so many workers.
pub(crate) fn search_all<R: Host>(
    rt: &R,
    alloc: Global,
    workers: u32,
    history: &History,
    lines: &[ListLine],
) -> Result<Answer, Fault>
    requires workers { IsCount workers }
    requires few { length lines.now ≤ 64 }
    requires asked { All IsAskedBy lines.now }
    ensures told { let told = map (many.searched history.now) (map words_in lines.now) in
        IfOk result (Says (many.told_of_all told)) }
    ensures whole { IfOk result IsWholeAnswer }
    ensures memory { (IsErrOf result Fault.Read → ⊥) × (IsErrOf result Fault.Shelf → ⊥) }
{
    let reach = Reach::build(alloc, history.graph())?;
    let search = RunSettings {
        history,
        reach: &reach,
        workers,
        leg: 0,
    };
    let mut group = begin_all(alloc, lines, history, &reach)?;
    let tables = share(rt, search, &mut group)?;
    // by one worker: there is nothing left to test
    let alone = RunSettings {
        workers: 1,
        ..search
    };
    let answer = tell_all(rt, alone, group, tables)?;
    Ok(answer)
}
