//! The command `next`.
ghost use Rattle.std.specs.Prelude.{◌≡◌, ◌++◌, length, IfOk, OnOk};
ghost use Rattle.bf_search.specs.Run.{warnings};
ghost use Rattle.bf_answers.specs.Answers.{IsWholeAnswer};
ghost use Rattle.bf_answers.specs.Steps.{IsStep};
ghost use Rattle.bf_program.specs.Lines.{asked_from, next_of_line};
ghost use Rattle.bf_answers.specs.Tellings.{begun_of, told_of, AreWithin, Says};
ghost use Rattle.bf_search.specs.Ends.{end_entries};

use bf_answers::{Answer, Beginning, RequestLine, Stop, commits_of, sides_of, status_of_ask};
use bf_begin::{LogFile, begin};
use bf_import::History;
use bf_io::Bytes;
use bf_log::{write_ask, write_more};
use bf_reach::Reach;
use bf_search::{Ask, Entry, Step, push_warnings};
use std::alloc::{AllocError, Global};

/// The answer of one ask.
#[tactic(auto, unfolding(bf_output::specs::Next::next_told))]
pub(crate) fn next(
    alloc: Global,
    line: RequestLine<'_>,
    file: Option<&LogFile>,
    history: &History,
) -> Result<Answer, Stop>
    ensures step { IsStep told_of result (next_of_line line.entry file.entry history.now) }
    ensures whole { IfOk result IsWholeAnswer }
{
    let reach = Reach::build(alloc, history.graph())?;
    let mut first = begin(alloc, line, file, history, &reach)?;
    Ok(ask_once(alloc, history, &reach, &mut first)?)
}

/// Adds the entries of an ask: the skipped merge bases that it passes over, and its end.
fn push_asked(entries: &mut Vec<Entry>, step: &Step) -> Result<(), AllocError>
    ensures { OnOk result (entries.new.items ≡ entries.old.items
        ++ (warnings step.now.warned ++ end_entries step.now.ask)) }
{
    push_warnings(entries, step.warned.as_slice())?;
    push_end(entries, &step.ask)
}

/// Adds the entry of an ask that ends the search.
fn push_end(entries: &mut Vec<Entry>, ask: &Ask) -> Result<(), AllocError>
    ensures { OnOk result (entries.new.items ≡ entries.old.items ++ end_entries ask.now) }
{
    match ask {
        Ask::FirstBad(place) => entries.push(Entry::FirstBadFound { place: *place })?,
        Ask::OnlySkipped(places) => entries.push(Entry::OnlySkippedLeft {
            places: places.try_clone()?,
        })?,
        Ask::WaitBoth | Ask::WaitBad | Ask::WaitGood => {}
        Ask::Test(_) | Ask::MergeBaseBad(_) | Ask::GoodNotAncestor(_) | Ask::BothSides(_) => {}
    }
    Ok(())
}

/// The answer of a search that has begun, and asks once.
fn ask_once(
    alloc: Global,
    history: &History,
    reach: &Reach,
    first: &mut Beginning,
) -> Result<Answer, AllocError>
    requires reach { reach.now ≡ history.now.parents }
    requires len { first.old.state.len ≡ length history.now.parents }
    requires places { AreWithin first.old }
    ensures tells { IfOk result (Says (asked_from history.now (begun_of first.old))) }
    ensures whole { IfOk result IsWholeAnswer }
{
    // What the length tells is needed: the places of the search are places of the history.
    let _places = first.state.len();
    prove!(reach.len() == first.state.len);
    let step = first.state.advance(reach)?;
    push_asked(&mut first.entries, &step)?;
    let commits = commits_of(history);
    let sides = sides_of(&first.state.terms);
    let mut text = Bytes::new(alloc);
    write_more(
        &mut first.known,
        commits,
        sides,
        first.entries.as_slice(),
        &mut text,
    )?;
    write_ask(commits, sides, &step.ask, &mut text)?;
    Ok(Answer {
        status: status_of_ask(&step.ask),
        text,
    })
}
