//! The end of a search.
ghost use Rattle.std.specs.Prelude.{◌≡◌, ◌++◌, length, IfOk};
ghost use Rattle.bf_log.specs.Labels as labels;
ghost use Rattle.bf_log.specs.Lines.{Adds};
ghost use Rattle.bf_output.specs.Simulate.{status_of_ask, status_of_end};
ghost use Rattle.bf_protocol.specs.Events.{events_text};
ghost use Rattle.bf_search.specs.Farm.{end_of};
ghost use Rattle.bf_search.specs.Within.{IsAskWithin, IsEndingWithin};
ghost use Rattle.bf_serve.specs.Turns.{end_told};
ghost use Rattle.bf_terms.specs.Texts as texts;

use bf_answers::{Status, status_of_ask};
use bf_io::Bytes;
use bf_log::{Commits, Sides, write_aborted, write_ask};
use bf_protocol::{put_answer, put_end};
use bf_search::{Ask, Ending};
use std::alloc::AllocError;

/// Adds the lines of the answer of a search that has come to its end, and returns its status.
#[tactic(auto, unfolding(bf_terms::specs::Texts::answer_lines))]
fn write_answer(
    commits: Commits<'_>,
    sides: Sides<'_>,
    ending: &Ending,
    out: &mut Bytes,
) -> Result<Status, AllocError>
    requires { IsEndingWithin (length commits.names.now) ending.now }
    ensures status { IfOk result (λ status. status ≡ status_of_end (end_of ending.now)) }
    ensures text { let answer = texts.answer_lines (labels.commits_of commits.entry) in
        Adds out.old out.new result (answer (labels.sides_of sides.entry) (end_of ending.now)) }
{
    match ending {
        Ending::FirstBad(place) => write_told(commits, sides, &Ask::FirstBad(*place), out),
        Ending::OnlySkipped(places) => {
            let places = places.try_clone()?;
            write_told(commits, sides, &Ask::OnlySkipped(places), out)
        }
        Ending::MergeBaseBad(place) => write_told(commits, sides, &Ask::MergeBaseBad(*place), out),
        Ending::GoodNotAncestor(place) => {
            write_told(commits, sides, &Ask::GoodNotAncestor(*place), out)
        }
        Ending::BothSides(place) => write_told(commits, sides, &Ask::BothSides(*place), out),
        Ending::Aborted { place, outcome } => {
            write_aborted(commits, *place, *outcome, out)?;
            Ok(Status::Aborted)
        }
        Ending::Leg | Ending::TestFault(_) => Ok(Status::Done),
    }
}

/// Adds the lines of an ask that ends a search, and returns the status.
fn write_told(
    commits: Commits<'_>,
    sides: Sides<'_>,
    ask: &Ask,
    out: &mut Bytes,
) -> Result<Status, AllocError>
    requires { IsAskWithin (length commits.names.now) ask.now }
    ensures status { IfOk result (λ status. status ≡ status_of_ask ask.now) }
    ensures text { let answer = texts.ask_lines (labels.commits_of commits.entry) in
        Adds out.old out.new result (answer (labels.sides_of sides.entry) ask.now) }
{
    write_ask(commits, sides, ask, out)?;
    Ok(status_of_ask(ask))
}

/// Adds what is told of the search of this number, which has come to its end: its answer, and its status.
pub(crate) fn put_ending(
    number: u32,
    commits: Commits<'_>,
    sides: Sides<'_>,
    ending: &Ending,
    out: &mut Bytes,
) -> Result<(), AllocError>
    requires { IsEndingWithin (length commits.names.now) ending.now }
    ensures { let told = end_told (labels.commits_of commits.entry) number in
        Adds out.old out.new result
        (events_text (told (labels.sides_of sides.entry) (end_of ending.now))) }
{
    let mut text = Bytes::new(out.allocator());
    let status = write_answer(commits, sides, ending, &mut text)?;
    put_answer(out, number, text.as_slice())?;
    put_end(out, number, status.number())
}
