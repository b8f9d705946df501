//! A mark line.
ghost use Rattle.std.specs.Prelude.{◌≡◌, length, IfOk, IfErr, OnOk};
ghost use Rattle.bf_log.specs.Replay as logs;
ghost use Rattle.bf_replay.specs.Meaning.{with_terms, with_open, AreWithin, HasLength};
ghost use Rattle.bf_replay.specs.Parts.{HasIndex, LeadsTo, MakesMark, mark_in, word_in, AddsMark};
ghost use Rattle.bf_replay.specs.Refusals.{Refuses};

use crate::fault::ReplayFault;
use crate::fold::{Replayed, Setting, place_named};
use bf_search::{Entry, Mark, push_warnings};
use bf_state::State;
use bf_terms::Terms;
use std::alloc::{AllocError, Global};

/// Replays a mark of this word and name behind what came before.
pub(crate) fn take_mark(
    setting: Setting<'_>,
    before: Replayed,
    line: u32,
    term: &[u8],
    rev: &[u8],
) -> Result<Replayed, ReplayFault>
    requires reach { setting.reach.now ≡ setting.history.now.parents }
    requires index { HasIndex setting }
    requires len { HasLength (length setting.history.now.parents) before }
    requires within { AreWithin (length setting.history.now.parents) before }
    ensures replayed { IfOk result (LeadsTo (mark_in setting.entry line before term.now rev.now)) }
    ensures len { IfOk result (HasLength (length setting.entry.history.now.parents)) }
    ensures within { IfOk result (AreWithin (length setting.entry.history.now.parents)) }
    ensures refused { Refuses result (mark_in setting.entry line before term.now rev.now) }
{
    let Replayed {
        mut state,
        mut entries,
    } = before;
    let mark = read_mark(setting.alloc, &mut state, line, term)?;
    // What the length tells is needed: the places of the search are places of the history.
    let _places = state.len();
    let place = place_named(setting, line, rev)?;
    let warned = state.take(setting.reach, mark, place)?;
    close_terms(&mut state, mark);
    push_marked(&mut entries, warned.as_slice(), mark, place)?;
    Ok(Replayed { state, entries })
}

/// The mark that a word makes. Where the word makes itself a term, the state has these terms from then on.
fn read_mark(alloc: Global, state: &mut State, line: u32, word: &[u8]) -> Result<Mark, ReplayFault>
    ensures mark { IfOk result (MakesMark state.old word.now state.new) }
    ensures state { OnOk result (state.new ≡ with_terms state.old state.new.terms) }
    ensures refused { Refuses result (logs.worded line (word_in state.old word.now)) }
{
    if let Some(mark) = mark_in(state.terms.new_term(), state.terms.old_term(), word) {
        return Ok(mark);
    }
    if state.terms_open
        && let Some(mark) = mark_in(b"new", b"old", word)
    {
        state.terms = open_terms(alloc)?;
        return Ok(mark);
    }
    Err(ReplayFault::Term { line })
}

/// The mark that a word makes by these terms.
fn mark_in(new: &[u8], old: &[u8], word: &[u8]) -> Option<Mark>
    ensures { result ≡ logs.mark_in (record { new = new.now; old = old.now }) word.now }
{
    if word == new {
        Some(Mark::Bad)
    } else if word == old {
        Some(Mark::Good)
    } else if word == b"skip".as_slice() {
        Some(Mark::Skip)
    } else {
        None
    }
}

/// The terms `new` and `old`.
fn open_terms(alloc: Global) -> Result<Terms, ReplayFault>
    ensures terms { IfOk result (λ terms. terms ≡ logs.open_sides) }
    ensures memory { IfErr result (λ fault. fault ≡ ReplayFault.NoMemory) }
{
    match Terms::read(alloc, b"new", b"old") {
        Ok(terms) => Ok(terms),
        Err(_) => Err(ReplayFault::NoMemory),
    }
}

/// Notes that the terms are settled by a good or bad mark.
fn close_terms(state: &mut State, mark: Mark)
    ensures { state.new ≡ with_open state.old (logs.stays_open state.old.terms_open mark) }
{
    match mark {
        Mark::Good | Mark::Bad => state.terms_open = false,
        Mark::Skip => {}
    }
}

/// Adds a mark, with the warnings that came with it before it.
fn push_marked(
    entries: &mut Vec<Entry>,
    warned: &[u32],
    mark: Mark,
    place: u32,
) -> Result<(), AllocError>
    ensures { OnOk result (AddsMark entries.old.items entries.new.items warned.now mark place) }
{
    push_warnings(entries, warned)?;
    entries.push(Entry::Marked { mark, place })?;
    Ok(())
}
