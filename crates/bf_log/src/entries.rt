//! The lines of a log.
ghost use Rattle.std.specs.Prelude.{◌≡◌, ◌<◌, length, All, OnOk};
ghost use Rattle.std.specs.Option.{ForSome};
ghost use Rattle.bf_terms.specs.Texts as texts;
ghost use Rattle.bf_log.specs.Written.{known_after_all};
ghost use Rattle.bf_log.specs.Labels.{AreCommits, commits_of, sides_of};
ghost use Rattle.bf_search.specs.Within.{IsEntryWithin};
ghost use Rattle.bf_log.specs.Lines.{Adds, comments, quoted_names};

use crate::known::Known;
use crate::label::{
    Commits, Sides, put_between, put_comment, put_label, put_name_line, put_quoted, put_quoted_name,
};
use bf_io::Bytes;
use bf_search::{Entry, Mark};
use std::alloc::AllocError;

/// Adds the lines of these entries, each with its status line, as they go on from what is known before
/// them.
pub(crate) fn put_entries(
    known: &mut Known,
    commits: Commits<'_>,
    sides: Sides<'_>,
    entries: &[Entry],
    out: &mut Bytes,
) -> Result<(), AllocError>
    requires commits { AreCommits commits }
    requires places { All (IsEntryWithin (length commits.names.now)) entries.now }
    ensures lines { Adds out.old out.new result
        (texts.log_from (commits_of commits.entry) (sides_of sides.entry) known.old entries.now) }
    ensures known { OnOk result (known.new ≡ known_after_all known.old entries.now) }
{
    for entry in entries {
        put_entry(out, commits, sides, entry)?;
        known.learn(entry)?;
        known.put_status(out, sides, entry)?;
    }
    Ok(())
}

/// Adds the lines of an entry, without its status line.
#[tactic(auto, unfolding(bf_terms::specs::Texts::entry_lines))]
fn put_entry(
    out: &mut Bytes,
    commits: Commits<'_>,
    sides: Sides<'_>,
    entry: &Entry,
) -> Result<(), AllocError>
    requires commits { AreCommits commits }
    requires places { IsEntryWithin (length commits.names.now) entry.now }
    ensures { Adds out.old out.new result
        (texts.entry_lines (commits_of commits.entry) (sides_of sides.entry) entry.now) }
{
    match entry {
        Entry::Start {
            first_parent,
            terms_given,
            bad,
            goods,
        } => put_start(
            out,
            commits,
            sides,
            *first_parent,
            *terms_given,
            *bad,
            goods.as_slice(),
        ),
        Entry::Marked { mark, place } => put_mark(out, commits, sides, *mark, *place),
        Entry::SkippedBase { place } => { put_comment(out, commits, b"skipped merge base", *place) }
        Entry::FirstBadFound { place } => put_first_bad(out, commits, sides, *place),
        Entry::OnlySkippedLeft { places } => {
            put_skipped_left(out, commits, sides, places.as_slice())
        }
    }
}

/// Adds the lines of a start entry.
#[tactic(auto, unfolding(bf_terms::specs::Texts::start_lines))]
fn put_start(
    out: &mut Bytes,
    commits: Commits<'_>,
    sides: Sides<'_>,
    first_parent: bool,
    terms_given: bool,
    bad: Option<u32>,
    goods: &[u32],
) -> Result<(), AllocError>
    requires commits { AreCommits commits }
    requires bad { ForSome bad (λ p. p < length commits.names.now) }
    requires goods { All (λ p. p < length commits.names.now) goods.now }
    ensures { Adds out.old out.new result
        (texts.start_lines (commits_of commits.entry) (sides_of sides.entry)
        first_parent terms_given bad goods.now) }
{
    put_ends(out, commits, sides, bad, goods)?;
    out.append(b"git bisect start")?;
    put_options(out, sides, first_parent, terms_given)?;
    put_start_names(out, commits, bad, goods)?;
    out.append(b"\n")
}

/// Adds the ends of a start as comments.
#[tactic(auto, unfolding(bf_terms::specs::Texts::end_lines))]
fn put_ends(
    out: &mut Bytes,
    commits: Commits<'_>,
    sides: Sides<'_>,
    bad: Option<u32>,
    goods: &[u32],
) -> Result<(), AllocError>
    requires commits { AreCommits commits }
    requires bad { ForSome bad (λ p. p < length commits.names.now) }
    requires goods { All (λ p. p < length commits.names.now) goods.now }
    ensures { Adds out.old out.new result
        (texts.end_lines (commits_of commits.entry) (sides_of sides.entry) bad goods.now) }
{
    match bad {
        Some(place) => {
            put_comment(out, commits, sides.new, place)?;
            put_comments(out, commits, sides.old, goods)
        }
        None => put_comments(out, commits, sides.old, goods),
    }
}

/// Adds the names of the ends of a start as words.
#[tactic(auto, unfolding(bf_terms::specs::Texts::end_words))]
fn put_start_names(
    out: &mut Bytes,
    commits: Commits<'_>,
    bad: Option<u32>,
    goods: &[u32],
) -> Result<(), AllocError>
    requires bad { ForSome bad (λ p. p < length commits.names.now) }
    requires goods { All (λ p. p < length commits.names.now) goods.now }
    ensures { Adds out.old out.new result
        (texts.end_words (commits_of commits.entry) bad goods.now) }
{
    match bad {
        Some(place) => {
            put_quoted_name(out, commits, place)?;
            put_quoted_names(out, commits, goods)
        }
        None => put_quoted_names(out, commits, goods),
    }
}

/// Adds the option of the mode.
fn put_mode(out: &mut Bytes, first_parent: bool) -> Result<(), AllocError>
    ensures { Adds out.old out.new result (texts.mode_word first_parent) }
{
    if first_parent {
        put_quoted(out, b"--first-parent")
    } else {
        Ok(())
    }
}

/// Adds the terms, where they were given.
fn put_terms(out: &mut Bytes, sides: Sides<'_>, terms_given: bool) -> Result<(), AllocError>
    ensures { Adds out.old out.new result (texts.term_words (sides_of sides.entry) terms_given) }
{
    if terms_given {
        put_given_terms(out, sides)
    } else {
        Ok(())
    }
}

/// Adds the options of a start line: the mode, and the terms where they were given.
fn put_options(
    out: &mut Bytes,
    sides: Sides<'_>,
    first_parent: bool,
    terms_given: bool,
) -> Result<(), AllocError>
    ensures { Adds out.old out.new result
        (texts.option_words (sides_of sides.entry) first_parent terms_given) }
{
    put_mode(out, first_parent)?;
    put_terms(out, sides, terms_given)
}

/// Adds a comment line for each of these commits.
fn put_comments(
    out: &mut Bytes,
    commits: Commits<'_>,
    words: &[u8],
    places: &[u32],
) -> Result<(), AllocError>
    requires commits { AreCommits commits }
    requires places { All (λ p. p < length commits.names.now) places.now }
    ensures { Adds out.old out.new result
        (comments (commits_of commits.entry) words.now places.now) }
{
    for place in places {
        put_comment(out, commits, words, *place)?;
    }
    Ok(())
}

/// Adds the names of these commits as words.
fn put_quoted_names(out: &mut Bytes, commits: Commits<'_>, places: &[u32]) -> Result<(), AllocError>
    requires { All (λ p. p < length commits.names.now) places.now }
    ensures { Adds out.old out.new result (quoted_names (commits_of commits.entry) places.now) }
{
    for place in places {
        put_quoted_name(out, commits, *place)?;
    }
    Ok(())
}

/// Adds the lines of a mark.
fn put_mark(
    out: &mut Bytes,
    commits: Commits<'_>,
    sides: Sides<'_>,
    mark: Mark,
    place: u32,
) -> Result<(), AllocError>
    requires commits { AreCommits commits }
    requires place { place < length commits.names.now }
    ensures { Adds out.old out.new result
        (texts.mark_lines (commits_of commits.entry)
        (texts.word_of_mark (sides_of sides.entry) mark) place) }
{
    put_marked(out, commits, word_of(sides, mark), place)
}

/// Adds the lines of a mark of this word.
fn put_marked(
    out: &mut Bytes,
    commits: Commits<'_>,
    word: &[u8],
    place: u32,
) -> Result<(), AllocError>
    requires commits { AreCommits commits }
    requires place { place < length commits.names.now }
    ensures { Adds out.old out.new result
        (texts.mark_lines (commits_of commits.entry) word.now place) }
{
    put_comment(out, commits, word, place)?;
    put_between(out, b"git bisect ", word, b" ")?;
    put_name_line(out, commits, place)
}

/// Adds the two terms as options.
fn put_given_terms(out: &mut Bytes, sides: Sides<'_>) -> Result<(), AllocError>
    ensures { Adds out.old out.new result (texts.given_terms (sides_of sides.entry)) }
{
    put_quoted(out, b"--term-new")?;
    put_quoted(out, sides.new)?;
    put_quoted(out, b"--term-old")?;
    put_quoted(out, sides.old)
}

/// Adds the lines of the commits that may be the first bad one.
fn put_possibles(
    out: &mut Bytes,
    commits: Commits<'_>,
    sides: Sides<'_>,
    places: &[u32],
) -> Result<(), AllocError>
    requires commits { AreCommits commits }
    requires places { All (λ p. p < length commits.names.now) places.now }
    ensures { Adds out.old out.new result
        (comments (commits_of commits.entry)
        (texts.possible_words (sides_of sides.entry)) places.now) }
{
    for place in places {
        put_possible(out, commits, sides, *place)?;
    }
    Ok(())
}

/// The word of a mark.
fn word_of(sides: Sides<'_>, mark: Mark) -> &[u8]
    ensures { result.now ≡ texts.word_of_mark (sides_of sides.entry) mark }
{
    match mark {
        Mark::Good => sides.old,
        Mark::Bad => sides.new,
        Mark::Skip => b"skip",
    }
}

/// Adds the line that names the first bad commit.
fn put_first_bad(
    out: &mut Bytes,
    commits: Commits<'_>,
    sides: Sides<'_>,
    place: u32,
) -> Result<(), AllocError>
    requires commits { AreCommits commits }
    requires place { place < length commits.names.now }
    ensures { Adds out.old out.new result
        (texts.comment_of (commits_of commits.entry)
        (texts.first_words (sides_of sides.entry)) place) }
{
    put_between(out, b"# first ", sides.new, b" commit")?;
    out.append(b": ")?;
    put_label(out, commits, place)?;
    out.append(b"\n")
}

/// Adds the lines that name the skipped commits that are left.
#[tactic(auto, unfolding(bf_terms::specs::Texts::skipped_left_lines))]
fn put_skipped_left(
    out: &mut Bytes,
    commits: Commits<'_>,
    sides: Sides<'_>,
    places: &[u32],
) -> Result<(), AllocError>
    requires commits { AreCommits commits }
    requires places { All (λ p. p < length commits.names.now) places.now }
    ensures { Adds out.old out.new result
        (texts.skipped_left_lines (commits_of commits.entry) (sides_of sides.entry) places.now) }
{
    out.append(b"# only skipped commits left to test\n")?;
    put_possibles(out, commits, sides, places)
}

/// Adds the line of a commit that may be the first bad one.
fn put_possible(
    out: &mut Bytes,
    commits: Commits<'_>,
    sides: Sides<'_>,
    place: u32,
) -> Result<(), AllocError>
    requires commits { AreCommits commits }
    requires place { place < length commits.names.now }
    ensures { Adds out.old out.new result
        (texts.comment_of (commits_of commits.entry)
        (texts.possible_words (sides_of sides.entry)) place) }
{
    put_between(out, b"# possible first ", sides.new, b" commit")?;
    out.append(b": ")?;
    put_label(out, commits, place)?;
    out.append(b"\n")
}
