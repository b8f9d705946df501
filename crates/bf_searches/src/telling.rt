//! The text of a search while its commits are tested.
ghost use Rattle.std.specs.Prelude.{◌≡◌, length, All, [], IfOk, OnOk};
ghost use Rattle.bf_search.specs.Within.{IsEndingWithin, IsEntryWithin};
ghost use Rattle.bf_output.specs.Tested.{status_at_end};
ghost use Rattle.bf_searches.specs.Telling.{AddsLines, AddsEvents, AddsLegLines, AddsLegEvents, AddsLegLine, EndsText, LearnsEntries, trace_begun};
ghost use Rattle.bf_search.specs.Farm.{end_of};

use bf_answers::{Answer, commits_of, sides_of, write_end};
use bf_farm::Report;
use bf_import::History;
use bf_io::Bytes;
use bf_log::{Commits, Known, Sides, write_events, write_leg, write_more};
use bf_search::{Ending, Entry, Event};
use bf_state::State;
use std::alloc::{AllocError, Global};

/// The text of a search while its commits are tested.
#[derive(Drop)]
pub struct Telling {
    /// Which ends the log so far makes known.
    pub known: Known,
    /// The lines that are not written yet.
    pub text: Bytes,
    /// The events so far, where they are asked for.
    pub trace: Option<Bytes>,
}

impl Telling {
    /// Nothing is told yet behind a log that makes these ends known.
    pub fn new(alloc: Global, known: Known, is_traced: bool) -> Telling
        ensures known { result.known ≡ known }
        ensures text { result.text ≡ [] }
        ensures trace { result.trace ≡ trace_begun is_traced }
    {
        let trace = if is_traced {
            Some(Bytes::new(alloc))
        } else {
            None
        };
        Telling {
            known,
            text: Bytes::new(alloc),
            trace,
        }
    }

    /// Adds the lines of further entries of a search.
    pub fn add_entries(
        &mut self,
        history: &History,
        state: &State,
        entries: &[Entry],
    ) -> Result<(), AllocError>
        requires { All (IsEntryWithin (length history.now.parents)) entries.now }
        ensures text { OnOk result (AddsLines history.now state.now entries.now self.old self.new) }
        ensures known { OnOk result (LearnsEntries entries.now self.old self.new) }
        ensures trace { self.new.trace ≡ self.old.trace }
    {
        let sides = sides_of(&state.terms);
        write_more(
            &mut self.known,
            commits_of(history),
            sides,
            entries,
            &mut self.text,
        )
    }

    /// Adds the events of a leg to the trace.
    pub fn add_events(&mut self, commits: Commits<'_>, events: &[Event]) -> Result<(), AllocError>
        ensures trace { OnOk result (AddsEvents commits.entry events.now self.old self.new) }
        ensures known { self.new.known ≡ self.old.known }
        ensures text { self.new.text ≡ self.old.text }
    {
        match &mut self.trace {
            Some(lines) => write_events(commits, events, lines),
            None => Ok(()),
        }
    }

    /// Adds the lines and the events of a leg.
    pub fn add_leg(&mut self, history: &History, report: &Report) -> Result<(), AllocError>
        requires { All (IsEntryWithin (length history.now.parents)) report.now.entries.items }
        ensures text { OnOk result (AddsLegLines history.now report.now self.old self.new) }
        ensures known { OnOk result (LearnsEntries report.now.entries.items self.old self.new) }
        ensures trace { OnOk result (AddsLegEvents history.now report.now self.old self.new) }
    {
        self.add_entries(history, &report.state, report.entries.as_slice())?;
        self.add_events(commits_of(history), report.events.as_slice())
    }

    /// Adds the end of a leg to the trace.
    pub fn end_leg(&mut self) -> Result<(), AllocError>
        ensures trace { OnOk result (AddsLegLine self.old self.new) }
        ensures known { self.new.known ≡ self.old.known }
        ensures text { self.new.text ≡ self.old.text }
    {
        match &mut self.trace {
            Some(lines) => write_leg(lines),
            None => Ok(()),
        }
    }

    /// The answer at the end of the run: its lines, and the trace behind them.
    pub fn end(
        self,
        commits: Commits<'_>,
        sides: Sides<'_>,
        ending: Ending,
    ) -> Result<Answer, AllocError>
        requires { IsEndingWithin (length commits.names.now) ending }
        ensures status { IfOk result (λ answer. answer.status ≡ status_at_end (end_of ending)) }
        ensures text { IfOk result (EndsText commits.entry sides.entry ending self) }
    {
        let Telling {
            mut text,
            trace,
            ..
        } = self;
        let status = write_end(commits, sides, ending, &mut text)?;
        if let Some(lines) = &trace {
            text.append(lines.as_slice())?;
        }
        Ok(Answer { status, text })
    }
}
