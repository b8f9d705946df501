//! What stands in front.
ghost use Rattle.std.specs.Prelude.{◌≡◌};
ghost use Rattle.bf_stream.specs.Cursor.{Advances, KeepsBeyond};
ghost use Rattle.bf_stream.specs.Fronts.{sized, ended, passed, told_passed, told_word, told_line, told_missing};
ghost use Rattle.bf_stream.specs.Steps.{FindsFront, FindsNext, PassesBytes, PassesLine};

use crate::Cursor;
use crate::text::{end_of_line, is_passed_over};
use crate::window::Filled;
use bf_forms::has_word;
use bf_grammar::{Limit, StreamFault};
use bf_io::Source;

/// More than so many bytes of a line that is too long are held, or all. Its first word is among them.
const WORD: usize = 16;

/// What stands in front of a window.
#[derive(Clone, Copy)]
pub(crate) enum Ahead {
    /// The end of the input.
    Nothing,
    /// A line, which is held whole.
    Whole,
    /// A line that is too long. Its front is held.
    Long,
}

/// A line of this length.
fn sized(most: usize, length: usize) -> Ahead
    ensures { result ≡ sized most length }
{
    if most < length {
        Ahead::Long
    } else {
        Ahead::Whole
    }
}

/// What stands in front where so many bytes without LF are all that is left.
fn ended(most: usize, length: usize) -> Ahead
    ensures { result ≡ ended most length }
{
    if length == 0 {
        Ahead::Nothing
    } else {
        sized(most, length)
    }
}

/// What stands in front where so many bytes without LF are all that may be read, and the stream is longer.
fn passed(most: usize, length: usize) -> Result<Ahead, StreamFault>
    ensures { result ≡ passed most length }
{
    if most < length {
        Ok(Ahead::Long)
    } else {
        Err(StreamFault::TooLarge {
            what: Limit::Stream,
        })
    }
}

impl<'a, S: Source> Cursor<'a, S> {
    /// Finds what stands in front, without going on.
    fn find_front(&mut self) -> Result<Ahead, StreamFault>
        ensures front { FindsFront S.left self.old self.new result }
        ensures advances { Advances S.faults self.old self.new result }
        ensures beyond { KeepsBeyond S.left self.old self.new }
    {
        let most = self.limits.line as usize;
        let enough = most.max(WORD);
        let mut scanned = self.window.known();
        'reads: loop {
            let bytes = self.window.bytes();
            let held = bytes.len();
            let end = end_of_line(bytes, scanned);
            if end < held {
                self.window.note_line(end);
                return Ok(sized(most, end));
            }
            if held > enough {
                return Ok(Ahead::Long);
            }
            match self.window.fill(self.source)? {
                Filled::More => scanned = held,
                Filled::End => return Ok(ended(most, held)),
                Filled::Past => return passed(most, held),
            }
        }
    }

    /// Finds what stands in front behind the lines that are passed over: comments, and where a command may
    /// stand also empty lines.
    pub(crate) fn next_front(&mut self, empty_too: bool) -> Result<Ahead, StreamFault>
        ensures front { FindsNext empty_too S.left self.old self.new result }
        ensures advances { Advances S.faults self.old self.new result }
        ensures beyond { KeepsBeyond S.left self.old self.new }
    {
        'lines: loop {
            if let Some(ahead) = self.pass_line(empty_too)? {
                return Ok(ahead);
            }
        }
    }

    /// Goes behind the line in front where it is passed over. Else returns what stands there.
    fn pass_line(&mut self, empty_too: bool) -> Result<Option<Ahead>, StreamFault>
        ensures step { PassesLine empty_too S.left self.old self.new result }
        ensures advances { Advances S.faults self.old self.new result }
        ensures beyond { KeepsBeyond S.left self.old self.new }
        ensures goes { PassesBytes self.old self.new result }
    {
        let ahead = self.find_front()?;
        if tell_passed(ahead, self.window.line(), empty_too)? {
            self.window.take_line();
            return Ok(None);
        }
        Ok(Some(ahead))
    }
}

/// Whether the line that was found is passed over.
fn tell_passed(ahead: Ahead, text: &[u8], empty_too: bool) -> Result<bool, StreamFault>
    ensures { result ≡ told_passed empty_too text.now ahead }
{
    match ahead {
        Ahead::Nothing => Ok(false),
        Ahead::Whole => Ok(is_passed_over(empty_too, text)),
        Ahead::Long => {
            if is_passed_over(false, text) {
                return Err(StreamFault::TooLarge { what: Limit::Line });
            }
            Ok(false)
        }
    }
}

/// Whether the line that was found has this first word.
pub(crate) fn tell_word(ahead: Ahead, text: &[u8], word: &[u8]) -> Result<bool, StreamFault>
    ensures { result ≡ told_word word.now text.now ahead }
{
    match ahead {
        Ahead::Nothing => Ok(false),
        Ahead::Whole => Ok(has_word(word, text)),
        Ahead::Long => {
            if has_word(word, text) {
                return Err(StreamFault::TooLarge { what: Limit::Line });
            }
            Ok(false)
        }
    }
}

/// Whether there is a line.
pub(crate) fn tell_line(ahead: Ahead) -> Result<bool, StreamFault>
    ensures { result ≡ told_line ahead }
{
    match ahead {
        Ahead::Nothing => Ok(false),
        Ahead::Whole => Ok(true),
        Ahead::Long => Err(StreamFault::TooLarge { what: Limit::Line }),
    }
}

/// The refusal of what stands in the place of a part that must stand.
pub(crate) fn tell_missing(ahead: Ahead, line: u64) -> StreamFault
    ensures { result ≡ told_missing line ahead }
{
    match ahead {
        Ahead::Nothing => StreamFault::Truncated { line },
        Ahead::Whole => StreamFault::Syntax { line },
        Ahead::Long => StreamFault::TooLarge { what: Limit::Line },
    }
}
