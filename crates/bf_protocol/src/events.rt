//! Lines of events, which tell of a search.
ghost use Rattle.std.specs.Prelude.{◌≡◌, ◌++◌, map};
ghost use Rattle.bf_log.specs.Lines.{Adds};
ghost use Rattle.bf_protocol.specs.Events as texts;
ghost use Rattle.bf_reading.specs.Reading.{lines_of};

use crate::lines::{put_each, put_lines, put_numbers};
use bf_io::Bytes;
use std::alloc::AllocError;

/// Adds each line of a text as a further line of the log of a search.
pub fn put_log(out: &mut Bytes, search: u32, text: &[u8]) -> Result<(), AllocError>
    ensures { let news = map (texts.Log search) (lines_of text.now) in
        Adds out.old out.new result (texts.events_text news) }
{
    put_lines(out, b"log ", search, text)
}

/// Adds how many commits may still be the first bad one, and how many of them are skipped.
pub fn put_left(out: &mut Bytes, search: u32, left: u32, away: u32) -> Result<(), AllocError>
    ensures { Adds out.old out.new result (texts.event_line (texts.Left search left away)) }
{
    put_numbers(out, b"left", &[search, left, away])
}

/// Adds each line of a text as a line of the answer of a search.
pub fn put_answer(out: &mut Bytes, search: u32, text: &[u8]) -> Result<(), AllocError>
    ensures { let news = map (texts.Answer search) (lines_of text.now) in
        Adds out.old out.new result (texts.events_text news) }
{
    put_lines(out, b"answer ", search, text)
}

/// Adds that a search has its end, with this status.
pub fn put_end(out: &mut Bytes, search: u32, status: u8) -> Result<(), AllocError>
    ensures { Adds out.old out.new result (texts.event_line (texts.Ended search status)) }
{
    put_numbers(out, b"end", &[search, u32::from(status)])
}

/// Adds the workers whose commits no path of a search asks for.
pub fn put_needless(out: &mut Bytes, search: u32, workers: &[u32]) -> Result<(), AllocError>
    ensures { Adds out.old out.new result
        (texts.event_line (texts.Needless search workers.now)) }
{
    out.append(b"needless")?;
    put_each(out, &[search])?;
    put_each(out, workers)?;
    out.append(b"\n")
}
