//! The lines of an answer.
ghost use Rattle.std.specs.Prelude.{◌<◌, length, All};
ghost use Rattle.bf_terms.specs.Texts as texts;
ghost use Rattle.bf_search.specs.Within.{IsAskWithin};
ghost use Rattle.bf_log.specs.Labels.{commits_of, sides_of};
ghost use Rattle.bf_log.specs.Lines.{Adds, name_lines, next_line, waiting_line};

use crate::label::{Commits, Sides, put_hex, put_name_line};
use bf_io::{Bytes, put_decimal};
use bf_search::{Ask, Outcome};
use std::alloc::AllocError;

/// Adds the lines that an ask answers with. An ask that waits has none.
pub(crate) fn put_ask(
    commits: Commits<'_>,
    sides: Sides<'_>,
    ask: &Ask,
    out: &mut Bytes,
) -> Result<(), AllocError>
    requires { IsAskWithin (length commits.names.now) ask.now }
    ensures { Adds out.old out.new result
        (texts.ask_lines (commits_of commits.entry) (sides_of sides.entry) ask.now) }
{
    match ask {
        Ask::WaitBoth | Ask::WaitBad | Ask::WaitGood => Ok(()),
        Ask::Test(place) => put_next(out, commits, *place),
        Ask::MergeBaseBad(place) => put_merge_base_bad(out, commits, sides, *place),
        Ask::GoodNotAncestor(place) => put_not_ancestor(out, commits, sides, *place),
        Ask::BothSides(place) => put_both_sides(out, commits, sides, *place),
        Ask::FirstBad(place) => put_first_bad(out, commits, sides, *place),
        Ask::OnlySkipped(places) => put_only_skipped(out, commits, sides, places.as_slice()),
    }
}

/// Adds the line of a run that a test aborted.
#[tactic(auto, unfolding(bf_terms::specs::Texts::aborted_line))]
pub(crate) fn put_aborted(
    commits: Commits<'_>,
    place: u32,
    outcome: Outcome,
    out: &mut Bytes,
) -> Result<(), AllocError>
    requires { place < length commits.names.now }
    ensures { Adds out.old out.new result
        (texts.aborted_line (commits_of commits.entry) place outcome) }
{
    out.append(b"bisect aborted: ")?;
    put_outcome(out, outcome)?;
    out.append(b" on ")?;
    put_name_line(out, commits, place)
}

/// Adds the line that says what a search waits for: whether a bad commit is known, and how many good
/// ones are.
pub(crate) fn put_waiting_line(
    sides: Sides<'_>,
    bad: bool,
    good_count: u64,
    out: &mut Bytes,
) -> Result<(), AllocError>
    ensures { Adds out.old out.new result (waiting_line (sides_of sides.entry) bad good_count) }
{
    put_waiting(out, sides, bad, good_count)?;
    out.append(b"\n")
}

/// Adds what a search waits for.
pub(crate) fn put_waiting(
    out: &mut Bytes,
    sides: Sides<'_>,
    bad: bool,
    good_count: u64,
) -> Result<(), AllocError>
    ensures { Adds out.old out.new result
        (texts.waiting_text (sides_of sides.entry) bad good_count) }
{
    if bad {
        put_waiting_for_old(out, sides)
    } else if good_count == 0 {
        put_waiting_for_both(out, sides)
    } else {
        put_waiting_for_new(out, sides, good_count)
    }
}

#[tactic(auto, unfolding(bf_terms::specs::Texts::waiting_for_old))]
fn put_waiting_for_old(out: &mut Bytes, sides: Sides<'_>) -> Result<(), AllocError>
    ensures { Adds out.old out.new result (texts.waiting_for_old (sides_of sides.entry)) }
{
    out.append(b"waiting for ")?;
    out.append(sides.old)?;
    out.append(b" commits, ")?;
    out.append(sides.new)?;
    out.append(b" commit known")
}

#[tactic(auto, unfolding(bf_terms::specs::Texts::waiting_for_both))]
fn put_waiting_for_both(out: &mut Bytes, sides: Sides<'_>) -> Result<(), AllocError>
    ensures { Adds out.old out.new result (texts.waiting_for_both (sides_of sides.entry)) }
{
    out.append(b"waiting for both ")?;
    out.append(sides.old)?;
    out.append(b" and ")?;
    out.append(sides.new)?;
    out.append(b" commits")
}

#[tactic(auto, unfolding(bf_terms::specs::Texts::waiting_for_new))]
fn put_waiting_for_new(out: &mut Bytes, sides: Sides<'_>, good_count: u64) -> Result<(), AllocError>
    ensures { Adds out.old out.new result
        (texts.waiting_for_new (sides_of sides.entry) good_count) }
{
    out.append(b"waiting for ")?;
    out.append(sides.new)?;
    out.append(b" commit, ")?;
    put_decimal(out, good_count)?;
    out.append(b" ")?;
    out.append(sides.old)?;
    out.append(b" known")
}

/// Adds how a test ended.
pub(crate) fn put_outcome(out: &mut Bytes, outcome: Outcome) -> Result<(), AllocError>
    ensures { Adds out.old out.new result (texts.outcome_text outcome) }
{
    match outcome {
        Outcome::Exit(status) => {
            out.append(b"exit ")?;
            put_decimal(out, u64::from(status))
        }
        Outcome::Killed => out.append(b"killed"),
    }
}

fn put_next(out: &mut Bytes, commits: Commits<'_>, place: u32) -> Result<(), AllocError>
    requires { place < length commits.names.now }
    ensures { Adds out.old out.new result (next_line (commits_of commits.entry) place) }
{
    out.append(b"next: ")?;
    put_name_line(out, commits, place)
}

#[tactic(auto, unfolding(bf_terms::specs::Texts::merge_base_bad_lines))]
fn put_merge_base_bad(
    out: &mut Bytes,
    commits: Commits<'_>,
    sides: Sides<'_>,
    place: u32,
) -> Result<(), AllocError>
    requires { place < length commits.names.now }
    ensures { Adds out.old out.new result
        (texts.merge_base_bad_lines (commits_of commits.entry) (sides_of sides.entry) place) }
{
    out.append(b"The merge base ")?;
    put_hex(out, commits, place)?;
    out.append(b" is ")?;
    out.append(sides.new)?;
    out.append(b".\nThe change was undone between it and one of the ")?;
    out.append(sides.old)?;
    out.append(b" commits.\n")
}

#[tactic(auto, unfolding(bf_terms::specs::Texts::not_ancestor_line))]
fn put_not_ancestor(
    out: &mut Bytes,
    commits: Commits<'_>,
    sides: Sides<'_>,
    place: u32,
) -> Result<(), AllocError>
    requires { place < length commits.names.now }
    ensures { Adds out.old out.new result
        (texts.not_ancestor_line (commits_of commits.entry) (sides_of sides.entry) place) }
{
    out.append(b"Some ")?;
    out.append(sides.old)?;
    out.append(b" commits are not ancestors of the ")?;
    out.append(sides.new)?;
    out.append(b" commit ")?;
    put_hex(out, commits, place)?;
    out.append(b".\n")
}

#[tactic(auto, unfolding(bf_terms::specs::Texts::both_sides_line))]
fn put_both_sides(
    out: &mut Bytes,
    commits: Commits<'_>,
    sides: Sides<'_>,
    place: u32,
) -> Result<(), AllocError>
    requires { place < length commits.names.now }
    ensures { Adds out.old out.new result
        (texts.both_sides_line (commits_of commits.entry) (sides_of sides.entry) place) }
{
    put_hex(out, commits, place)?;
    out.append(b" was both ")?;
    out.append(sides.old)?;
    out.append(b" and ")?;
    out.append(sides.new)?;
    out.append(b"\n")
}

#[tactic(auto, unfolding(bf_terms::specs::Texts::first_bad_line))]
fn put_first_bad(
    out: &mut Bytes,
    commits: Commits<'_>,
    sides: Sides<'_>,
    place: u32,
) -> Result<(), AllocError>
    requires { place < length commits.names.now }
    ensures { Adds out.old out.new result
        (texts.first_bad_line (commits_of commits.entry) (sides_of sides.entry) place) }
{
    put_hex(out, commits, place)?;
    out.append(b" is the first ")?;
    out.append(sides.new)?;
    out.append(b" commit\n")
}

#[tactic(auto, unfolding(bf_terms::specs::Texts::only_skipped_lines))]
fn put_only_skipped(
    out: &mut Bytes,
    commits: Commits<'_>,
    sides: Sides<'_>,
    places: &[u32],
) -> Result<(), AllocError>
    requires { All (λ p. p < length commits.names.now) places.now }
    ensures { Adds out.old out.new result
        (texts.only_skipped_lines (commits_of commits.entry) (sides_of sides.entry) places.now) }
{
    out.append(b"There are only 'skip'ped commits left to test.\nThe first ")?;
    out.append(sides.new)?;
    out.append(b" commit could be any of:\n")?;
    put_names(out, commits, places)?;
    out.append(b"We cannot bisect more!\n")
}

/// Adds the names of these commits, a line each.
fn put_names(out: &mut Bytes, commits: Commits<'_>, places: &[u32]) -> Result<(), AllocError>
    requires { All (λ p. p < length commits.names.now) places.now }
    ensures { Adds out.old out.new result (name_lines (commits_of commits.entry) places.now) }
{
    for place in places {
        put_name_line(out, commits, *place)?;
    }
    Ok(())
}
