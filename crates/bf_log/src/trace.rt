//! The lines of a trace, and of a test that failed.
ghost use Rattle.std.specs.Prelude.{◌≡◌, OnErr};
ghost use Rattle.bf_terms.specs.Texts.{hex_of};
ghost use Rattle.bf_log.specs.Labels.{commits_of};
ghost use Rattle.bf_log.specs.Lines.{Adds};
ghost use Rattle.bf_log.specs.Trace.{event_line, event_lines, failed_test_line, leg_line, post_text, worker_text};

use crate::answer::put_outcome;
use crate::label::{Commits, put_hex};
use bf_io::{Bytes, put_decimal};
use bf_search::{Event, Outcome};
use std::alloc::AllocError;

/// Adds a line for each event: who claimed which commit, what was posted, and what was given back. A place
/// that has no name is told without one. After an error `out` is as before.
pub fn write_events(
    commits: Commits<'_>,
    events: &[Event],
    out: &mut Bytes,
) -> Result<(), AllocError>
    ensures ok { Adds out.old out.new result (event_lines (commits_of commits.entry) events.now) }
    ensures err { OnErr result (out.new ≡ out.old) }
{
    let mut text = Bytes::new(out.allocator());
    put_events(&mut text, commits, events)?;
    out.append(text.as_slice())
}

/// Adds the line that stands between the events of two legs. After an error `out` is as before.
pub fn write_leg(out: &mut Bytes) -> Result<(), AllocError>
    ensures ok { Adds out.old out.new result leg_line }
    ensures err { OnErr result (out.new ≡ out.old) }
{
    out.append(b"leg\n")
}

/// Adds the line of a test that could not be made. After an error `out` is as before.
pub fn write_failed_test(
    commits: Commits<'_>,
    place: u32,
    out: &mut Bytes,
) -> Result<(), AllocError>
    ensures ok { Adds out.old out.new result (failed_test_line (commits_of commits.entry) place) }
    ensures err { OnErr result (out.new ≡ out.old) }
{
    let mut text = Bytes::new(out.allocator());
    text.append(b"test fault on ")?;
    put_any_hex(&mut text, commits, place)?;
    text.append(b"\n")?;
    out.append(text.as_slice())
}

/// Adds a line for each event.
fn put_events(out: &mut Bytes, commits: Commits<'_>, events: &[Event]) -> Result<(), AllocError>
    ensures { Adds out.old out.new result (event_lines (commits_of commits.entry) events.now) }
{
    for event in events {
        put_event(out, commits, event)?;
    }
    Ok(())
}

/// Adds the line of an event.
fn put_event(out: &mut Bytes, commits: Commits<'_>, event: &Event) -> Result<(), AllocError>
    ensures { Adds out.old out.new result (event_line (commits_of commits.entry) event.now) }
{
    match event {
        Event::Claim { worker, place } => put_worker(out, commits, b"claim", *worker, *place)?,
        Event::Post {
            worker,
            place,
            outcome,
        } => put_post(out, commits, *worker, *place, *outcome)?,
        Event::Give { worker, place } => put_worker(out, commits, b"give", *worker, *place)?,
    }
    out.append(b"\n")
}

/// Adds what a worker posted.
fn put_post(
    out: &mut Bytes,
    commits: Commits<'_>,
    worker: u32,
    place: u32,
    outcome: Outcome,
) -> Result<(), AllocError>
    ensures { Adds out.old out.new result
        (post_text (commits_of commits.entry) worker place outcome) }
{
    put_worker(out, commits, b"post", worker, place)?;
    out.append(b" ")?;
    put_outcome(out, outcome)
}

/// Adds a word, the number of a worker, and the name of a commit.
#[tactic(auto, unfolding(crate::specs::Trace::worker_text))]
fn put_worker(
    out: &mut Bytes,
    commits: Commits<'_>,
    word: &[u8],
    worker: u32,
    place: u32,
) -> Result<(), AllocError>
    ensures { Adds out.old out.new result
        (worker_text (commits_of commits.entry) word.now worker place) }
{
    out.append(word)?;
    out.append(b" ")?;
    put_decimal(out, u64::from(worker))?;
    out.append(b" ")?;
    put_any_hex(out, commits, place)
}

/// Adds the name of a commit in hexadecimal digits; nothing where the place has no commit.
fn put_any_hex(out: &mut Bytes, commits: Commits<'_>, place: u32) -> Result<(), AllocError>
    ensures { Adds out.old out.new result (hex_of (commits_of commits.entry) place) }
{
    if (place as usize) < commits.names.len() {
        put_hex(out, commits, place)
    } else {
        Ok(())
    }
}
