//! Searches and counts in a text.
ghost use Rattle.std.specs.Prelude.{◌≡◌, ◌≤◌, ◌+◌, count_by, length, min};
ghost use Rattle.std.specs.List.{position_or_len};
ghost use Rattle.bf_grammar.specs.Place.{is_end_of_line};
ghost use Rattle.bf_grammar.specs.Lines as lines;

use memchr::memchr;

/// The index of the first LF, or the length where there is none. The first `known` bytes have none.
pub(crate) fn end_of_line(bytes: &[u8], known: usize) -> usize
    requires { known ≤ position_or_len is_end_of_line bytes.now }
    ensures { result ≡ position_or_len is_end_of_line bytes.now }
{
    // A line that was found before is answered without a search.
    if known < bytes.len() && bytes[known] == b'\n' {
        return known;
    }
    match memchr(b'\n', &bytes[known..]) {
        Some(at) => known + at,
        None => bytes.len(),
    }
}

/// The length of a line with its LF, where it ends among so many bytes; else all of them.
pub(crate) fn with_end_of_line(end: usize, held: usize) -> usize
    requires { end ≤ held }
    ensures { result ≡ min (end + 1) held }
{
    if end < held { end + 1 } else { held }
}

/// The length of the parts in which LFs are counted: a multiple of the width of a vector, so short that the
/// count of a part fits into a byte.
const PART: usize = 192;

/// How many LFs there are.
pub(crate) fn count_lines(bytes: &[u8]) -> usize
    ensures { result ≡ count_by is_end_of_line bytes.now }
{
    let mut lines = 0;
    let mut rest = bytes;
    'parts: while !rest.is_empty() {
        let (part, behind) = rest.split_at(rest.len().min(PART));
        lines += count_in_part(part) as usize;
        rest = behind;
    }
    lines
}

/// How many LFs a part has. With a counter of one byte the compiler compares a whole vector at once.
fn count_in_part(part: &[u8]) -> u8
    requires { length part.now ≤ 255 }
    ensures { result ≡ count_by is_end_of_line part.now }
{
    let mut lines = 0u8;
    for byte in part {
        lines += (*byte == b'\n') as u8;
    }
    lines
}

/// Whether a line is passed over: a comment and, where `empty_too`, also an empty line.
pub(crate) fn is_passed_over(empty_too: bool, text: &[u8]) -> bool
    ensures { result ≡ lines.is_passed_over empty_too text.now }
{
    text.starts_with(b"#") || (empty_too && text.is_empty())
}
