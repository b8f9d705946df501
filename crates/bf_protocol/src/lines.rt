//! Lines with numbers.
ghost use Rattle.std.specs.Prelude.{◌≡◌, ◌++◌};
ghost use Rattle.bf_log.specs.Lines.{Adds};
ghost use Rattle.bf_protocol.specs.Events as texts;

use crate::parts::first_line;
use bf_io::{Bytes, put_decimal};
use std::alloc::AllocError;

/// Adds a line of a word, a number and a text.
pub(crate) fn put_numbered(
    out: &mut Bytes,
    word: &[u8],
    number: u32,
    text: &[u8],
) -> Result<(), AllocError>
    ensures { Adds out.old out.new result (texts.numbered word.now number text.now) }
{
    out.append(word)?;
    put_decimal(out, u64::from(number))?;
    out.append(b" ")?;
    out.append(text)?;
    out.append(b"\n")
}

/// Adds a line of a word and numbers behind it.
pub(crate) fn put_numbers(out: &mut Bytes, word: &[u8], numbers: &[u32]) -> Result<(), AllocError>
    ensures { Adds out.old out.new result (texts.numbers_line word.now numbers.now) }
{
    out.append(word)?;
    put_each(out, numbers)?;
    out.append(b"\n")
}

/// Adds each number behind a blank.
pub(crate) fn put_each(out: &mut Bytes, numbers: &[u32]) -> Result<(), AllocError>
    ensures { Adds out.old out.new result (texts.each_number numbers.now) }
{
    for number in numbers {
        out.append(b" ")?;
        put_decimal(out, u64::from(*number))?;
    }
    Ok(())
}

/// Adds each line of a text behind a word and a number.
pub(crate) fn put_lines(
    out: &mut Bytes,
    word: &[u8],
    number: u32,
    text: &[u8],
) -> Result<(), AllocError>
    ensures { Adds out.old out.new result (texts.numbered_lines word.now number text.now) }
{
    let mut rest = text;
    while let Some((line, after)) = first_line(rest) {
        put_numbered(out, word, number, line)?;
        rest = after;
    }
    Ok(())
}
