//! The lines of a state.
ghost use Rattle.std.specs.Prelude.{◌≡◌, ◌<◌, length, All, OnErr};
ghost use Rattle.std.specs.Option.{ForSome};
ghost use Rattle.bf_terms.specs.Texts as texts;
ghost use Rattle.bf_log.specs.Labels.{commits_of, sides_of};
ghost use Rattle.bf_log.specs.Lines.{Adds};
ghost use Rattle.bf_log.specs.StateLines as state;

use crate::label::{Commits, Sides, put_name_line};
use bf_io::Bytes;
use std::alloc::AllocError;

/// The places that a state knows: the bad one, the good ones in the order in which they were marked, and
/// the skipped ones.
#[derive(Clone, Copy)]
pub struct MarkedPlaces<'a> {
    pub bad: Option<u32>,
    pub goods: &'a [u32],
    pub skipped: &'a [u32],
}

/// Adds the lines of a state: a line for each commit that it knows. After an error `out` is as before.
pub fn write_state(
    commits: Commits<'_>,
    sides: Sides<'_>,
    marked: MarkedPlaces<'_>,
    out: &mut Bytes,
) -> Result<(), AllocError>
    requires { state.AreMarked (length commits.names.now) marked }
    ensures ok { Adds out.old out.new result
        (state.lines_of_state (commits_of commits.entry) (sides_of sides.entry) marked.entry) }
    ensures err { OnErr result (out.new ≡ out.old) }
{
    let mut text = Bytes::new(out.allocator());
    put_state(commits, sides, marked, &mut text)?;
    out.append(text.as_slice())
}

/// Adds the lines of a state.
#[tactic(auto, unfolding(crate::specs::StateLines::state_lines))]
fn put_state(
    commits: Commits<'_>,
    sides: Sides<'_>,
    marked: MarkedPlaces<'_>,
    out: &mut Bytes,
) -> Result<(), AllocError>
    requires { state.AreMarked (length commits.names.now) marked }
    ensures { Adds out.old out.new result
        (state.lines_of_state (commits_of commits.entry) (sides_of sides.entry) marked.entry) }
{
    put_bad(commits, sides.new, marked.bad, out)?;
    put_named(commits, sides.old, marked.goods, out)?;
    put_named(commits, b"skip", marked.skipped, out)
}

/// Adds the line of the bad commit, where there is one.
fn put_bad(
    commits: Commits<'_>,
    word: &[u8],
    bad: Option<u32>,
    out: &mut Bytes,
) -> Result<(), AllocError>
    requires { ForSome bad (λ p. p < length commits.names.now) }
    ensures { Adds out.old out.new result
        (texts.given_bad (state.name_line (commits_of commits.entry) word.now) bad) }
{
    match bad {
        Some(place) => put_one(commits, word, place, out),
        None => Ok(()),
    }
}

/// Adds a line of this word for each of these commits.
fn put_named(
    commits: Commits<'_>,
    word: &[u8],
    places: &[u32],
    out: &mut Bytes,
) -> Result<(), AllocError>
    requires { All (λ p. p < length commits.names.now) places.now }
    ensures { Adds out.old out.new result
        (state.name_lines (commits_of commits.entry) word.now places.now) }
{
    for place in places {
        put_one(commits, word, *place, out)?;
    }
    Ok(())
}

/// Adds the line of a word and a commit.
fn put_one(commits: Commits<'_>, word: &[u8], place: u32, out: &mut Bytes) -> Result<(), AllocError>
    requires { place < length commits.names.now }
    ensures { Adds out.old out.new result
        (state.name_line (commits_of commits.entry) word.now place) }
{
    out.append(word)?;
    out.append(b": ")?;
    put_name_line(out, commits, place)
}
