//! What is said on the standard error of a file that `check` refuses: what is right at its line.
use bf_io::{Shelf, Word};
use memchr::memchr;

/// The most bytes of a file that is checked.
const MOST_BYTES: u32 = 16_777_216;

/// What is right in a line that begins with this word, if some line of an answer or a certificate does.
fn right_in(word: &[u8]) -> Option<&'static str> {
    match word {
        b"farmdawn-answer" => Some("it is line 1 of an answer, as farmdawn-answer 1"),
        b"sum" => Some(
            "line 2 of an answer has the SHA-256 of all lines behind it: one of them was changed, or the sum",
        ),
        b"word" => Some("the words of the command come first, in printable letters"),
        b"folder" => Some("one folder may stand behind the words, in printable letters"),
        b"term-new" | b"term-old" => Some("a term that git bisect takes, the new one first"),
        b"build" => Some(
            "one command may stand behind words, folder and terms, in printable letters",
        ),
        b"retry" | b"repeat" => Some("a number from 1 to 99, retry before repeat"),
        b"made" => Some("a time as 2026-01-31T12:00:00Z"),
        b"machine" => Some("printable letters, behind the time"),
        b"option" => Some("printable letters, behind the machine"),
        b"called-bad" => {
            Some(
                "one commit of this history, and the status of its test, if it had one, from 1 to 124",
            )
        }
        b"called-good" => Some(
            "a commit of this history that is named once, and the status of its test, if it had one, which is 0",
        ),
        b"outcome" => Some(
            "a commit of this history that was not called good or bad, named once, and a status from 0 to 125",
        ),
        b"against" => Some("a commit of this history, and a status from 0 to 124"),
        b"confirmed" => Some(
            "a commit that is named once, good or bad as the lines above say, and N of M tests, of which N are so",
        ),
        b"certificate" => Some(
            "certificate 1 is the first line, or stands behind words, called-bad and called-good",
        ),
        b"bad" => Some("a commit of this history that was called bad, or whose outcome was bad"),
        b"first-parent" => Some("nothing else stands in this line, and it comes behind bad"),
        b"good" => Some(
            "a commit of this history that is named once, and was called good, or whose outcome was good",
        ),
        b"reach" => Some(
            "a parent from its child, and the child is good, or was reached by a line above",
        ),
        b"end" => Some(
            "all that was called or tested good has a line above, each parent of the bad commit is good or was reached, and nothing stands behind it",
        ),
        _ => None,
    }
}

/// The line of this number, counted from 1, if there is one.
fn line_at(text: &[u8], number: u32) -> Option<&[u8]> {
    let mut rest = text;
    for _ in 1..number {
        let behind = memchr(b'\n', rest)?.checked_add(1)?;
        rest = rest.get(behind..)?;
    }
    if rest.is_empty() {
        return None;
    }
    let end = memchr(b'\n', rest).unwrap_or(rest.len());
    rest.get(..end)
}

/// The first word of a line.
fn first_word(line: &[u8]) -> &[u8] {
    let end = memchr(b' ', line).unwrap_or(line.len());
    line.get(..end).unwrap_or(line)
}

/// Says on the standard error what is right at the line at which the file of `check` fails. Of the file it shows at most
/// a word of its form. If the file is there no more, or it cannot be written, nothing is said.
pub(crate) fn tell<R: Eprint, F: Shelf>(rt: &R, shelf: &mut F, words: &[Word], line: u32) {
    let Some(name) = words.last() else {
        return;
    };
    let Ok(text) = shelf.load(name.as_slice(), MOST_BYTES) else {
        return;
    };
    let Some(found) = line_at(text.as_slice(), line) else {
        let _ = eprintln!(rt; "farmdawn: line {line} is missing: the last line is end");
        return;
    };
    let word = first_word(found);
    let _ = match (right_in(word), std::str::from_utf8(word)) {
        (Some(right), Ok(word)) => eprintln!(rt; "farmdawn: line {line}, {word}: {right}"),
        _ => {
            eprintln!(rt; "farmdawn: line {line}: no line of an answer or a certificate begins so")
        }
    };
}
