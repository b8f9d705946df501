//! A whole log.
ghost use Rattle.std.specs.Prelude.{◌≡◌, ◌≤◌, ◌<◌, [], length, Ok, IfOk, IfErr, IfSome, MatchOption};
ghost use Rattle.bf_reading.specs.Reading as reading;
ghost use Rattle.bf_reading.specs.Answers.{IsLogRefusal, RefusesLine, IsFirstLine, unnumbered};

use crate::command::read_line;
use crate::line::{LineFault, LogFault, LogLine, LogLines};
use memchr::memchr;
use std::alloc::Global;

/// Reads the command lines of a log of at most 16 MiB. A line whose first word is `git bisect` or
/// `git-bisect` is one, and every other line is passed over, whatever it says.
///
/// A command line is `start` with options and names, or a mark with one name. Words may be quoted as
/// git-bisect writes them. The first command line in no form refuses the log.
pub fn read_log(alloc: Global, bytes: &[u8]) -> Result<LogLines, LogFault>
    requires { length bytes.now ≤ 16777216 }
    ensures lines { IfOk result (λ lines. reading.read_log bytes.now ≡ Ok lines) }
    ensures refused { IfErr result (λ fault. IsLogRefusal fault (reading.read_log bytes.now)) }
{
    let mut lines = LogLines::new(alloc);
    let mut line = 0u32;
    let mut rest = bytes;
    while let Some((text, after)) = first_line(rest) {
        line += 1;
        if let Some(command) = read_numbered(alloc, line, text)? {
            lines.push(command)?;
        }
        rest = after;
    }
    Ok(lines)
}

/// Reads a line, which has this number.
fn read_numbered(alloc: Global, line: u32, text: &[u8]) -> Result<Option<LogLine>, LogFault>
    ensures line { IfOk result (λ command. reading.read_line text.now ≡ unnumbered command) }
    ensures number { IfOk result (λ command. IfSome command (λ command. command.line ≡ line)) }
    ensures refused { RefusesLine result line (reading.read_line text.now) }
{
    match read_line(alloc, text) {
        Ok(Some(word)) => Ok(Some(LogLine { line, word })),
        Ok(None) => Ok(None),
        Err(LineFault::NoForm) => Err(LogFault::Line { line }),
        Err(LineFault::NoMemory) => Err(LogFault::NoMemory),
    }
}

/// The line in front of a text without its LF, and what stands behind it; none where no byte is left.
fn first_line(text: &[u8]) -> Option<(&[u8], &[u8])>
    ensures line { MatchOption result (text.now ≡ []) (λ p. IsFirstLine text.now p.0.now p.1.now) }
    ensures shorter { IfSome result (λ p. length p.1.now < length text.now) }
{
    if text.is_empty() {
        return None;
    }
    match memchr(b'\n', text) {
        Some(end) => Some((&text[..end], &text[end + 1..])),
        None => Some((text, &[])),
    }
}
