//! The fold of the command lines.
ghost use Rattle.std.specs.Prelude.{◌≡◌, length, IfOk, IfSome};
ghost use Rattle.bf_names.specs.Leaps.{IsIndexOf};
ghost use Rattle.bf_replay.specs.Meaning.{replay_in, text_of, AreWithin, HasLength};
ghost use Rattle.bf_replay.specs.Parts.{Gives, HasIndex, LeadsTo, IsPlaceOf, line_in, named_in};
ghost use Rattle.bf_replay.specs.Refusals.{Refuses};

use crate::fault::ReplayFault;
use crate::index::index_for;
use crate::mark::take_mark;
use crate::start::{Start, take_start};
use bf_import::History;
use bf_io::Bytes;
use bf_names::{NameFault, NameIndex, resolve_by};
use bf_reach::Reach;
use bf_reading::{LogLine, LogWord};
use bf_search::Entry;
use bf_state::State;
use std::alloc::Global;

/// What a log leads to.
#[derive(Drop)]
pub struct Replayed {
    /// The state of the search, with its terms.
    pub state: State,
    /// The entries from the last start on: the start, the marks, and the warnings of skipped merge bases,
    /// each before the mark that it came with.
    pub entries: Vec<Entry>,
}

/// Replays the command lines of a log over a history, whose reach is given. A start begins anew with the
/// terms and names of its line. A mark is an ask and then the mark.
///
/// # Errors
///
/// The first line that goes wrong is refused. Of a start the terms are tried first, and then its names in
/// order; of a mark that a start came before it, then its word, and then its name. After a start with
/// neither terms nor names, `new` and `old` may be the terms in place of `bad` and `good`, as long as no
/// commit was marked good or bad.
pub fn replay(
    alloc: Global,
    history: &History,
    reach: &Reach,
    lines: &[LogLine],
) -> Result<Replayed, ReplayFault>
    requires { reach.now ≡ history.now.parents }
    ensures replayed { IfOk result (LeadsTo (replay_in history.now lines.now)) }
    ensures len { IfOk result (HasLength (length history.now.parents)) }
    ensures within { IfOk result (AreWithin (length history.now.parents)) }
    ensures refused { Refuses result (replay_in history.now lines.now) }
{
    let index = index_for(alloc, history, lines)?;
    replay_by(alloc, history, reach, &index, lines)
}

/// Replays the command lines of a log with what serves to look its names up.
fn replay_by<'a>(
    alloc: Global,
    history: &'a History,
    reach: &'a Reach,
    index: &'a NameIndex,
    lines: &[LogLine],
) -> Result<Replayed, ReplayFault>
    requires reach { reach.now ≡ history.now.parents }
    requires index { IsIndexOf history.now index.now }
    ensures replayed { IfOk result (LeadsTo (replay_in history.now lines.now)) }
    ensures len { IfOk result (HasLength (length history.now.parents)) }
    ensures within { IfOk result (AreWithin (length history.now.parents)) }
    ensures refused { Refuses result (replay_in history.now lines.now) }
{
    let setting = Setting {
        alloc,
        history,
        reach,
        index,
    };
    let mut replayed = None;
    for line in lines {
        replayed = Some(take_line(setting, replayed, line)?);
    }
    match replayed {
        Some(replayed) => Ok(replayed),
        None => Err(ReplayFault::NotStarted { line: 1 }),
    }
}

/// What a replay is given.
#[derive(Clone, Copy)]
pub(crate) struct Setting<'a> {
    pub(crate) alloc: Global,
    pub(crate) history: &'a History,
    pub(crate) reach: &'a Reach,
    /// What serves to look names up.
    pub(crate) index: &'a NameIndex,
}

/// Replays a line behind what came before.
fn take_line(
    setting: Setting<'_>,
    before: Option<Replayed>,
    line: &LogLine,
) -> Result<Replayed, ReplayFault>
    requires reach { setting.reach.now ≡ setting.history.now.parents }
    requires index { HasIndex setting }
    requires len { IfSome before (HasLength (length setting.history.now.parents)) }
    requires within { IfSome before (AreWithin (length setting.history.now.parents)) }
    ensures replayed { IfOk result (LeadsTo (line_in setting.entry before line.now)) }
    ensures len { IfOk result (HasLength (length setting.entry.history.now.parents)) }
    ensures within { IfOk result (AreWithin (length setting.entry.history.now.parents)) }
    ensures refused { Refuses result (line_in setting.entry before line.now) }
{
    match &line.word {
        LogWord::Start {
            first_parent,
            new,
            old,
            revs,
        } => {
            let start = Start {
                first_parent: *first_parent,
                new: term_text(new),
                old: term_text(old),
                revs: revs.as_slice(),
            };
            take_start(setting, line.line, start)
        }
        LogWord::MarkWord { term, rev } => match before {
            Some(before) => take_mark(setting, before, line.line, term.as_slice(), rev.as_slice()),
            None => Err(ReplayFault::NotStarted { line: line.line }),
        },
    }
}

/// The place that a name in this line means.
pub(crate) fn place_named(setting: Setting<'_>, line: u32, name: &[u8]) -> Result<u32, ReplayFault>
    requires { HasIndex setting }
    ensures place { IfOk result (Gives (named_in setting.entry line name.now)) }
    ensures within { IfOk result (IsPlaceOf setting.entry.history.now) }
    ensures refused { Refuses result (named_in setting.entry line name.now) }
{
    match resolve_by(setting.alloc, setting.history, setting.index, name) {
        Ok(place) => Ok(place),
        Err(NameFault::NoMemory) => Err(ReplayFault::NoMemory),
        Err(fault) => Err(ReplayFault::Name { line, fault }),
    }
}

fn term_text(term: &Option<Bytes>) -> Option<&[u8]>
    ensures { text_of result ≡ term.now }
{
    match term {
        Some(text) => Some(text.as_slice()),
        None => None,
    }
}
