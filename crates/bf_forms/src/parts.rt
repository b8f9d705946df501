//! The lines `mark`, `encoding` and `data`.
ghost use Rattle.std.specs.Prelude.{◌≡◌};
ghost use Rattle.bf_grammar.specs.Forms as forms;
ghost use Rattle.bf_forms.specs.Answers.{IsPart, IsOfText};
ghost use Rattle.bf_forms.specs.DataLines.{IsDataLine, IsCount};

use crate::cuts::text_after;
use bf_grammar::{Limit, Limits, StreamFault};
use bf_io::decimal;

// The bytes of a line before its delimiter: `data <<`.
const BEFORE_DELIMITER: usize = 7;

/// The number of a line `mark :<n>`, which is 1 to 2^64 - 1. Any other line is `Syntax`.
#[tactic(auto, unfolding(bf_grammar::specs::Forms::mark_of))]
pub fn mark_of(line: u64, text: &[u8]) -> Result<u64, StreamFault>
    ensures value { result ≡ forms.mark_of line text.now }
    ensures own { IsOfText result }
{
    let body = text_after(line, b"mark", text)?;
    colon_number(body).ok_or(StreamFault::Syntax { line })
}

/// The number of a mark as it is named: a colon and the number, which is 1 to 2^64 - 1. Any other text has
/// none.
pub fn colon_number(text: &[u8]) -> Option<u64>
    ensures { result ≡ forms.colon_number text.now }
{
    match text {
        [b':', digits @ ..] => decimal(digits).filter(|number| *number != 0),
        _ => None,
    }
}

/// The name of a line `encoding <text>`, which is not empty. Any other line is `Syntax`.
#[tactic(auto, unfolding(bf_grammar::specs::Forms::encoding_of))]
pub fn encoding_of<'a>(line: u64, text: &'a [u8]) -> Result<&'a [u8], StreamFault>
    ensures value { IsPart (forms.encoding_of line text.now) result }
    ensures own { IsOfText result }
{
    let encoding = text_after(line, b"encoding", text)?;
    if encoding.is_empty() {
        Err(StreamFault::Syntax { line })
    } else {
        Ok(encoding)
    }
}

/// A line `data` as it is read: how it announces the bytes that follow it.
#[derive(Clone, Copy, Debug, PartialEq, Eq)]
pub enum DataLine<'a> {
    /// `data <count>`: so many bytes.
    Counted(u64),
    /// `data <<DELIM`: lines up to one that is DELIM alone.
    Delimited(&'a [u8]),
}

/// Reads a line `data <count>` or `data <<DELIM`. A count above the limit on a part is `TooLarge` with
/// `Limit::Data`. Any other line, and an empty DELIM, is `Syntax`.
#[tactic(auto, unfolding(bf_grammar::specs::Forms::data_form))]
pub fn data_line<'a>(limits: Limits, line: u64, text: &'a [u8]) -> Result<DataLine<'a>, StreamFault>
    ensures value { IsDataLine limits line text.now result }
    ensures own { IsOfText result }
{
    let body = text_after(line, b"data", text)?;
    if body.starts_with(b"<<") {
        if body.len() > 2 {
            Ok(DataLine::Delimited(delimiter_in(text)))
        } else {
            Err(StreamFault::Syntax { line })
        }
    } else {
        Ok(DataLine::Counted(counted(limits, line, body)?))
    }
}

// A count of bytes within the limit on a part.
fn counted(limits: Limits, line: u64, digits: &[u8]) -> Result<u64, StreamFault>
    ensures value { IsCount limits line digits.now result }
    ensures own { IsOfText result }
{
    match decimal(digits) {
        None => Err(StreamFault::Syntax { line }),
        Some(count) if count <= limits.part => Ok(count),
        Some(_) => Err(StreamFault::TooLarge { what: Limit::Data }),
    }
}

// What stands behind `data <<`.
fn delimiter_in(text: &[u8]) -> &[u8]
    ensures { result.now ≡ forms.delimiter_in text.now }
{
    text.get(BEFORE_DELIMITER..).unwrap_or_default()
}
