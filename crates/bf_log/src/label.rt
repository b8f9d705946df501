//! How a commit is named in a text.
ghost use Rattle.std.specs.Prelude.{◌<◌, ◌++◌, length};
ghost use Rattle.hex.specs.Hex.{encode_lower};
ghost use Rattle.bf_terms.specs.Texts as texts;
ghost use Rattle.bf_log.specs.Labels.{commits_of};
ghost use Rattle.bf_log.specs.Lines.{Adds, name_line, quoted_name};

use bf_io::Bytes;
use bf_oid::{Oid, oid_hex};
use std::alloc::AllocError;

/// The commits that a text names: their names and subjects, by place.
#[derive(Clone, Copy)]
pub struct Commits<'a> {
    pub names: &'a [Oid],
    pub subjects: &'a [Bytes],
}

/// The words for the two sides of a search, as `bad` and `good`.
#[derive(Clone, Copy)]
pub struct Sides<'a> {
    pub new: &'a [u8],
    pub old: &'a [u8],
}

/// Adds the name of a commit in 40 hexadecimal digits.
pub(crate) fn put_hex(out: &mut Bytes, commits: Commits<'_>, place: u32) -> Result<(), AllocError>
    requires { place < length commits.names.now }
    ensures { Adds out.old out.new result (texts.hex_of (commits_of commits.entry) place) }
{
    let mut digits = [0u8; 40];
    oid_hex(commits.names[place as usize], &mut digits);
    out.append(&digits)
}

/// Adds the name and the subject of a commit.
pub(crate) fn put_label(out: &mut Bytes, commits: Commits<'_>, place: u32) -> Result<(), AllocError>
    requires names { place < length commits.names.now }
    requires subjects { place < length commits.subjects.now }
    ensures { Adds out.old out.new result (texts.label_of (commits_of commits.entry) place) }
{
    out.append(b"[")?;
    put_hex(out, commits, place)?;
    out.append(b"] ")?;
    let subject = &commits.subjects[place as usize];
    out.append(subject.as_slice())
}

/// Adds a comment line that says two words and a commit.
pub(crate) fn put_comment(
    out: &mut Bytes,
    commits: Commits<'_>,
    words: &[u8],
    place: u32,
) -> Result<(), AllocError>
    requires names { place < length commits.names.now }
    requires subjects { place < length commits.subjects.now }
    ensures { Adds out.old out.new result
        (texts.comment_of (commits_of commits.entry) words.now place) }
{
    out.append(b"# ")?;
    out.append(words)?;
    out.append(b": ")?;
    put_label(out, commits, place)?;
    out.append(b"\n")
}

/// Adds SP and a word in single quotes.
pub(crate) fn put_quoted(out: &mut Bytes, word: &[u8]) -> Result<(), AllocError>
    ensures { Adds out.old out.new result (texts.quoted word.now) }
{
    out.append(b" '")?;
    out.append(word)?;
    out.append(b"'")
}

/// Adds SP and the name of a commit in single quotes.
pub(crate) fn put_quoted_name(
    out: &mut Bytes,
    commits: Commits<'_>,
    place: u32,
) -> Result<(), AllocError>
    requires { place < length commits.names.now }
    ensures { Adds out.old out.new result (quoted_name (commits_of commits.entry) place) }
{
    out.append(b" '")?;
    put_hex(out, commits, place)?;
    out.append(b"'")
}

/// Adds the name of a commit and the end of the line.
pub(crate) fn put_name_line(
    out: &mut Bytes,
    commits: Commits<'_>,
    place: u32,
) -> Result<(), AllocError>
    requires { place < length commits.names.now }
    ensures { Adds out.old out.new result (name_line (commits_of commits.entry) place) }
{
    put_hex(out, commits, place)?;
    out.append(b"\n")
}

/// Adds a word between two texts.
pub(crate) fn put_between(
    out: &mut Bytes,
    before: &[u8],
    word: &[u8],
    after: &[u8],
) -> Result<(), AllocError>
    ensures { Adds out.old out.new result (before.now ++ word.now ++ after.now) }
{
    out.append(before)?;
    out.append(word)?;
    out.append(after)
}
