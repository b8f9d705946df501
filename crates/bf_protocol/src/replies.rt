//! Lines of replies, and the first line of all.
ghost use Rattle.std.specs.Prelude.{◌≡◌, ◌++◌};
ghost use Rattle.bf_log.specs.Lines.{Adds};
ghost use Rattle.bf_protocol.specs.Events as texts;
ghost use Rattle.bf_protocol.specs.Requests.{refusal_line};

use crate::lines::{put_lines, put_numbered, put_numbers};
use crate::request::{Refusal, words_of_refusal};
use bf_io::Bytes;
use std::alloc::AllocError;

/// The version of the protocol.
const VERSION: u32 = 1;

/// Adds the first line: the version, and how many commits there are.
pub fn put_ready(out: &mut Bytes, commits: u32) -> Result<(), AllocError>
    ensures { Adds out.old out.new result (texts.ready_line commits) }
{
    put_numbers(out, b"ready", &[VERSION, commits])
}

/// Adds that a search of this number was begun.
pub fn put_started(out: &mut Bytes, search: u32) -> Result<(), AllocError>
    ensures { Adds out.old out.new result (texts.reply_text (texts.Started search)) }
{
    put_numbers(out, b"search", &[search])
}

/// Adds that a commit, whose name has these digits, is to be tested for a search.
pub fn put_test(out: &mut Bytes, search: u32, digits: &[u8]) -> Result<(), AllocError>
    ensures { Adds out.old out.new result (texts.reply_text (texts.Test search digits.now)) }
{
    put_numbered(out, b"test ", search, digits)
}

/// Adds that there is no test for now.
pub fn put_wait(out: &mut Bytes) -> Result<(), AllocError>
    ensures { Adds out.old out.new result (texts.reply_text texts.Wait) }
{
    out.append(b"wait\n")
}

/// Adds that there is no test any more.
pub fn put_over(out: &mut Bytes) -> Result<(), AllocError>
    ensures { Adds out.old out.new result (texts.reply_text texts.Over) }
{
    out.append(b"over\n")
}

/// Adds that what was asked was done.
pub fn put_done(out: &mut Bytes) -> Result<(), AllocError>
    ensures { Adds out.old out.new result (texts.reply_text texts.Done) }
{
    out.append(b"ok\n")
}

/// Adds the searches that ask for a commit.
pub fn put_wanted(out: &mut Bytes, searches: &[u32]) -> Result<(), AllocError>
    ensures { Adds out.old out.new result (texts.reply_text (texts.WantedBy searches.now)) }
{
    put_numbers(out, b"wanted", searches)
}

/// Adds each line of the certificate of a search, and the reply behind them.
pub fn put_certificate(out: &mut Bytes, search: u32, text: &[u8]) -> Result<(), AllocError>
    ensures { Adds out.old out.new result (texts.reply_text (texts.Certified search text.now)) }
{
    put_lines(out, b"certificate ", search, text)?;
    put_done(out)
}

/// Adds the reply to a request that is refused.
pub fn put_refusal(out: &mut Bytes, refusal: Refusal) -> Result<(), AllocError>
    ensures { let line = refusal_line refusal in
        Adds out.old out.new result (texts.reply_text (texts.Refused line)) }
{
    out.append(b"refused ")?;
    out.append(words_of_refusal(refusal))?;
    out.append(b"\n")
}

/// Adds the reply to a request that is refused with this line, which has its LF.
pub fn put_refused_line(out: &mut Bytes, line: &[u8]) -> Result<(), AllocError>
    ensures { Adds out.old out.new result (texts.reply_text (texts.Refused line.now)) }
{
    out.append(b"refused ")?;
    out.append(line)
}
