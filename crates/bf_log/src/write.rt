//! What callers write: each text is made whole before it is added, so that want of memory leaves nothing of
//! it behind.
ghost use Rattle.std.specs.Prelude.{◌≡◌, ◌<◌, length, All, OnOk, OnErr};
ghost use Rattle.bf_log.specs.Written.{known_after_all};
ghost use Rattle.bf_terms.specs.Texts as texts;
ghost use Rattle.bf_log.specs.Labels.{AreCommits, commits_of, sides_of};
ghost use Rattle.bf_search.specs.Within.{IsAskWithin, IsEntryWithin};
ghost use Rattle.bf_log.specs.Lines.{Adds, waiting_line};

use crate::answer::{put_aborted, put_ask, put_waiting_line};
use crate::entries::put_entries;
use crate::known::Known;
use crate::label::{Commits, Sides};
use bf_io::Bytes;
use bf_search::{Ask, Entry, Outcome};
use std::alloc::{AllocError, Global};

/// Adds the lines of a log with these entries. Where an end is not known after a start or a mark, a
/// status line says so. After an error `out` is as before.
pub fn write_entries(
    alloc: Global,
    commits: Commits<'_>,
    sides: Sides<'_>,
    entries: &[Entry],
    out: &mut Bytes,
) -> Result<(), AllocError>
    requires commits { AreCommits commits }
    requires places { All (IsEntryWithin (length commits.names.now)) entries.now }
    ensures ok { Adds out.old out.new result
        (texts.log (commits_of commits.entry) (sides_of sides.entry) entries.now) }
    ensures err { OnErr result (out.new ≡ out.old) }
{
    write_more(&mut Known::nothing(alloc), commits, sides, entries, out)
}

/// Adds the lines of further entries of a log, as they go on from what is known before them, and notes
/// what they make known. After an error all is as before.
pub fn write_more(
    known: &mut Known,
    commits: Commits<'_>,
    sides: Sides<'_>,
    entries: &[Entry],
    out: &mut Bytes,
) -> Result<(), AllocError>
    requires commits { AreCommits commits }
    requires places { All (IsEntryWithin (length commits.names.now)) entries.now }
    ensures ok { Adds out.old out.new result
        (texts.log_from (commits_of commits.entry) (sides_of sides.entry) known.old entries.now) }
    ensures known { OnOk result (known.new ≡ known_after_all known.old entries.now) }
    ensures err { OnErr result ((out.new ≡ out.old) × (known.new ≡ known.old)) }
{
    let mut text = Bytes::new(out.allocator());
    let mut after = known.try_clone()?;
    put_entries(&mut after, commits, sides, entries, &mut text)?;
    out.append(text.as_slice())?;
    *known = after;
    Ok(())
}

/// Adds the lines that an ask answers with. An ask that waits has none: `write_waiting` says what is
/// known. After an error `out` is as before.
pub fn write_ask(
    commits: Commits<'_>,
    sides: Sides<'_>,
    ask: &Ask,
    out: &mut Bytes,
) -> Result<(), AllocError>
    requires { IsAskWithin (length commits.names.now) ask.now }
    ensures ok { Adds out.old out.new result
        (texts.ask_lines (commits_of commits.entry) (sides_of sides.entry) ask.now) }
    ensures err { OnErr result (out.new ≡ out.old) }
{
    let mut text = Bytes::new(out.allocator());
    put_ask(commits, sides, ask, &mut text)?;
    out.append(text.as_slice())
}

/// Adds the line of a run that a test aborted. After an error `out` is as before.
pub fn write_aborted(
    commits: Commits<'_>,
    place: u32,
    outcome: Outcome,
    out: &mut Bytes,
) -> Result<(), AllocError>
    requires { place < length commits.names.now }
    ensures ok { Adds out.old out.new result
        (texts.aborted_line (commits_of commits.entry) place outcome) }
    ensures err { OnErr result (out.new ≡ out.old) }
{
    let mut text = Bytes::new(out.allocator());
    put_aborted(commits, place, outcome, &mut text)?;
    out.append(text.as_slice())
}

/// Adds the line that says what a search waits for: whether a bad commit is known, and how many good
/// ones are. After an error `out` is as before.
pub fn write_waiting(
    sides: Sides<'_>,
    bad: bool,
    good_count: u64,
    out: &mut Bytes,
) -> Result<(), AllocError>
    ensures ok { Adds out.old out.new result (waiting_line (sides_of sides.entry) bad good_count) }
    ensures err { OnErr result (out.new ≡ out.old) }
{
    let mut text = Bytes::new(out.allocator());
    put_waiting_line(sides, bad, good_count, &mut text)?;
    out.append(text.as_slice())
}
