//! The outcomes that a journal kept, and those that it is to keep.
ghost use Rattle.std.specs.Prelude.{◌≡◌, ◌≢◌, ◌<◌, ◌++◌, length, true, Err, IfOk, IfSome, OnOk};
ghost use Rattle.std.specs.Option.{is_some};
ghost use Rattle.bf_io.specs.Causes.{FailsOnlyAt};
ghost use Rattle.bf_journal.specs.Disk.{LeavesOnly};
ghost use Rattle.bf_journal.specs.Journal.{Fits};
ghost use Rattle.bf_journal_run.specs.Kept as kept;
ghost use Rattle.bf_journal_run.specs.Kept.{IsSameRun, IsToKeep, KeepsOne, KeepsSince, LeavesOn, StandsForOne, answer_if, answers_of};

use bf_journal::{Disk, Journal, JournalFault};
use bf_oid::Oid;
use bf_search::{Outcome, Verdict};
use bf_spec::Table;
use bf_terms::verdict_of;
use bf_tester::Answer;
use std::alloc::{AllocError, Global};

/// The outcomes that a journal of so many places keeps, by place, with the names of the commits.
pub(crate) fn kept_answers(
    alloc: Global,
    journal: &Journal,
    names: &[Oid],
    len: u32,
) -> Result<Vec<Answer>, AllocError>
    requires names { length names.now ≡ len }
    requires len { length journal.now.kept ≡ len }
    ensures { IfOk result (λ answers. answers.items ≡ answers_of names.now journal.now.kept) }
{
    let mut answers = Vec::new(alloc);
    for place in 0..len {
        let name = names[place as usize];
        push_kept(&mut answers, place, name, journal.kept(place))?;
    }
    Ok(answers)
}

/// Adds the answer of a place, where its outcome is kept.
fn push_kept(
    answers: &mut Vec<Answer>,
    place: u32,
    name: Oid,
    kept: Option<Outcome>,
) -> Result<(), AllocError>
    ensures { OnOk result
        (answers.new.items ≡ answers.old.items ++ answer_if place name kept) }
{
    if let Some(outcome) = kept {
        answers.push(Answer {
            place,
            name,
            outcome,
        })?;
    }
    Ok(())
}

/// What is kept of an outcome: one that ends the run is not.
fn to_keep(known: Option<Outcome>) -> Option<Outcome>
    ensures { result ≡ kept.to_keep known }
{
    let outcome = known?;
    match verdict_of(outcome) {
        Verdict::Mark(_) => Some(outcome),
        Verdict::Abort => None,
    }
}

/// Keeps each outcome of a table of whose place none is kept, by place. A crash at any moment leaves what was kept
/// before, and of the table no more than is to be kept.
pub(crate) fn keep_table<J: Disk>(
    journal: &mut Journal,
    disk: &mut J,
    table: &Table,
) -> Result<(), JournalFault>
    requires len { length journal.old.kept ≡ length table.now }
    requires sound { journal.old.is_sound ≡ true }
    requires fits { Fits J.told J.may_leave disk.old journal.old }
    ensures kept { OnOk result (KeepsSince journal.old.kept table.now journal.new.kept) }
    ensures run { IsSameRun journal.old journal.new }
    ensures sound { OnOk result (journal.new.is_sound ≡ true) }
    ensures fits { OnOk result (Fits J.told J.may_leave disk.new journal.new) }
    ensures told { is_some (J.told disk.new) ≡ is_some (J.told disk.old) }
    ensures any_moment { LeavesOn J.Disk disk.old disk.new journal.old journal.old.kept
        (IsToKeep table.now) }
    ensures failed { FailsOnlyAt JournalFault.Failed
        (J.faults disk.old) (J.faults disk.new) result }
    ensures no_mismatch { (kept : _) → result ≢ Err (JournalFault.Mismatch kept) }
{
    for place in 0..table.len() {
        keep(journal, disk, place, table.get(place))?;
    }
    Ok(())
}

/// Keeps what is known of a place, unless its outcome is kept.
fn keep<J: Disk>(
    journal: &mut Journal,
    disk: &mut J,
    place: u32,
    known: Option<Outcome>,
) -> Result<(), JournalFault>
    requires within { place < length journal.old.kept }
    requires sound { journal.old.is_sound ≡ true }
    requires fits { Fits J.told J.may_leave disk.old journal.old }
    ensures kept { OnOk result (KeepsOne journal.old.kept place known journal.new.kept) }
    ensures run { IsSameRun journal.old journal.new }
    ensures sound { OnOk result (journal.new.is_sound ≡ true) }
    ensures fits { OnOk result (Fits J.told J.may_leave disk.new journal.new) }
    ensures told { is_some (J.told disk.new) ≡ is_some (J.told disk.old) }
    ensures any_moment { IfSome (J.told disk.old) (λ _. LeavesOnly J.moment J.left_since
        disk.old disk.new (StandsForOne journal.old place known)) }
    ensures failed { FailsOnlyAt JournalFault.Failed
        (J.faults disk.old) (J.faults disk.new) result }
    ensures no_mismatch { (kept : _) → result ≢ Err (JournalFault.Mismatch kept) }
{
    if journal.kept(place).is_some() {
        return Ok(());
    }
    match to_keep(known) {
        Some(outcome) => journal.put(disk, place, outcome),
        None => Ok(()),
    }
}
