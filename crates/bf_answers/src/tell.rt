//! What the text of an answer is made of: commits, sides, the lines of an end, and its status.
ghost use Rattle.std.specs.Prelude.{◌≡◌, ◌++◌, length, IfOk, OnOk};
ghost use Rattle.bf_log.specs.Labels as labels;
ghost use Rattle.bf_output.specs.Beginning as beginning;
ghost use Rattle.bf_output.specs.Simulate as simulate;
ghost use Rattle.bf_output.specs.Tested.{status_at_end};
ghost use Rattle.bf_search.specs.Farm.{end_of};
ghost use Rattle.bf_search.specs.Within.{IsAskWithin, IsEndingWithin};
ghost use Rattle.bf_terms.specs.Texts as texts;
ghost use Rattle.bf_answers.specs.Answers.{IsWhole};
ghost use Rattle.bf_answers.specs.Tellings.{end_lines_of};

use bf_import::History;
use bf_io::Bytes;
use bf_log::{Commits, Sides, write_aborted, write_ask, write_failed_test};
use bf_output::Status;
use bf_search::{Ask, Ending};
use bf_terms::Terms;
use std::alloc::AllocError;

/// What the texts say of the commits of a history.
pub fn commits_of(history: &History) -> Commits<'_>
    ensures commits { labels.commits_of result ≡ beginning.commits_of history.now }
    ensures same { labels.AreCommits result }
    ensures len { length result.names.now ≡ length history.now.parents }
{
    Commits {
        names: history.names(),
        subjects: history.subjects(),
    }
}

/// The words for the two sides.
pub fn sides_of(terms: &Terms) -> Sides<'_>
    ensures { labels.sides_of result ≡ terms.now }
{
    Sides {
        new: terms.new_term(),
        old: terms.old_term(),
    }
}

/// Adds the lines of the end of a run, or of a test that failed, and returns the status.
#[tactic(auto, unfolding(bf_terms::specs::Texts::answer_lines))]
pub fn write_end(
    commits: Commits<'_>,
    sides: Sides<'_>,
    ending: Ending,
    out: &mut Bytes,
) -> Result<Status, AllocError>
    requires { IsEndingWithin (length commits.names.now) ending }
    ensures status { IfOk result (λ status. status ≡ status_at_end (end_of ending)) }
    ensures text { OnOk result
        (out.new ≡ out.old ++ end_lines_of commits.entry sides.entry ending) }
{
    match ending {
        Ending::FirstBad(place) => write_told(commits, sides, &Ask::FirstBad(place), out),
        Ending::OnlySkipped(places) => write_told(commits, sides, &Ask::OnlySkipped(places), out),
        Ending::MergeBaseBad(place) => write_told(commits, sides, &Ask::MergeBaseBad(place), out),
        Ending::GoodNotAncestor(place) => {
            write_told(commits, sides, &Ask::GoodNotAncestor(place), out)
        }
        Ending::BothSides(place) => write_told(commits, sides, &Ask::BothSides(place), out),
        Ending::Aborted { place, outcome } => {
            write_aborted(commits, place, outcome, out)?;
            Ok(Status::Aborted)
        }
        Ending::Leg => Ok(Status::Done),
        Ending::TestFault(place) => {
            write_failed_test(commits, place, out)?;
            Ok(Status::TestFault { place })
        }
    }
}

/// Adds the lines of an ask that ends a run, and returns the status.
fn write_told(
    commits: Commits<'_>,
    sides: Sides<'_>,
    ask: &Ask,
    out: &mut Bytes,
) -> Result<Status, AllocError>
    requires { IsAskWithin (length commits.names.now) ask.now }
    ensures status { IfOk result (λ status. status ≡ simulate.status_of_ask ask.now) }
    ensures text { let tell = texts.ask_lines (labels.commits_of commits.entry) in
        OnOk result (out.new ≡ out.old ++ tell (labels.sides_of sides.entry) ask.now) }
{
    write_ask(commits, sides, ask, out)?;
    Ok(status_of_ask(ask))
}

/// The status of an ask that ends a command.
pub fn status_of_ask(ask: &Ask) -> Status
    ensures status { result ≡ simulate.status_of_ask ask.now }
    ensures whole { IsWhole result }
{
    match ask {
        Ask::WaitBoth | Ask::WaitBad | Ask::WaitGood => Status::Waiting,
        Ask::Test(_) | Ask::FirstBad(_) => Status::Done,
        Ask::MergeBaseBad(_) => Status::MergeBaseBad,
        Ask::GoodNotAncestor(_) => Status::GoodNotAncestor,
        Ask::BothSides(_) => Status::BothSides,
        Ask::OnlySkipped(_) => Status::OnlySkipped,
    }
}
