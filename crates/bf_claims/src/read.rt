//! Reading an answer.
ghost use Rattle.std.specs.Prelude.{◌≡◌, ◌+◌, ◌<◌, ◌≤◌, [], codes, length, IfOk, IfErr, IfSome, MatchOption};
ghost use Rattle.bf_cert.specs.Certificates.{IsWithin};
ghost use Rattle.bf_cert.specs.Lines.{lines_of, IsFirstLine};
ghost use Rattle.bf_cert.specs.Reading.{Gives, read_text};
ghost use Rattle.bf_claims.specs.Heads.{IsHead};
ghost use Rattle.bf_claims.specs.Kinds.{is_text};
ghost use Rattle.bf_claims.specs.Reading as reading;
ghost use Rattle.bf_claims.specs.Reading.{IsLineUpTo};

use crate::head::Head;
use crate::kind::is_last;
use crate::line::behind;
use crate::sum::is_sum;
use bf_cert::{Cert, CertFault, read_cert};
use bf_import::History;
use memchr::memchr;
use std::alloc::Global;

/// How many bytes the line of the sum has.
const SUM_LINE: usize = 69;

/// Reads a file of at most 16 MiB over a history. Where its first line is `farmdawn-answer 1` it is an answer:
/// the sum of its lines, what they claim, and the certificate that stands on it. Any other file is a certificate.
///
/// # Errors
///
/// `Line` tells the line at which the reading stops, by its number in the file. The certificate of an answer is read to
/// its end before it is laid beside what its lines claim.
pub fn read_file(alloc: Global, history: &History, bytes: &[u8]) -> Result<Cert, CertFault>
    requires { length bytes.now ≤ 16777216 }
    ensures read { Gives result
        (reading.read_file history.now.names history.now.parents bytes.now) }
    ensures within { IfOk result (IsWithin (length history.now.parents)) }
{
    match behind(b"farmdawn-answer 1\n", bytes) {
        Some(text) => read_summed(alloc, history, text),
        None => read_cert(alloc, history, bytes),
    }
}

/// The certificate of an answer, from its sum on.
#[tactic(auto, unfolding(crate::specs::Reading::read_summed))]
fn read_summed(alloc: Global, history: &History, text: &[u8]) -> Result<Cert, CertFault>
    requires { length text.now ≤ 16777216 }
    ensures read { Gives result
        (reading.read_summed history.now.names history.now.parents text.now) }
    ensures within { IfOk result (IsWithin (length history.now.parents)) }
{
    if text.len() < SUM_LINE {
        return Err(CertFault::Line { line: 2 });
    }
    let (sum, below) = text.split_at(SUM_LINE);
    if !is_sum(alloc, sum, below)? {
        return Err(CertFault::Line { line: 2 });
    }
    let head = Head::new(alloc, history.len())?;
    read_head(alloc, history, head, below)
}

/// The certificate of an answer whose lines from the third on are these.
fn read_head(
    alloc: Global,
    history: &History,
    mut head: Head,
    below: &[u8],
) -> Result<Cert, CertFault>
    requires rows { IsHead (length history.now.parents) head }
    requires short { length below.now ≤ 16777216 }
    ensures read { Gives result (reading.read_head history.now.names history.now.parents
        2 head (lines_of below.now)) }
    ensures within { IfOk result (IsWithin (length history.now.parents)) }
{
    let mut before = 2;
    let mut rest = below;
    while let Some((line, after)) = first_line(rest) {
        if is_certificate(line) {
            return read_behind(alloc, history, head, before, rest);
        }
        let Some(next) = head.take_line(history, line) else {
            return Err(CertFault::Line { line: before + 1 });
        };
        head = next;
        before += 1;
        rest = after;
    }
    Err(CertFault::Line { line: before + 1 })
}

/// Whether a line is the first one of a certificate.
fn is_certificate(line: &[u8]) -> bool
    ensures { result ≡ is_text line.now (codes "certificate 1\n") }
{
    line == b"certificate 1\n".as_slice()
}

/// The certificate behind so many lines, where it may stand there.
#[tactic(auto, unfolding(crate::specs::Reading::read_behind))]
fn read_behind(
    alloc: Global,
    history: &History,
    head: Head,
    before: u32,
    text: &[u8],
) -> Result<Cert, CertFault>
    requires rows { IsHead (length history.now.parents) head }
    requires room { before + length text.now ≤ 16777218 }
    requires short { length text.now ≤ 16777216 }
    ensures read { Gives result (reading.read_behind history.now.names history.now.parents
        before head (lines_of text.now)) }
    ensures within { IfOk result (IsWithin (length history.now.parents)) }
{
    if !is_last(head.rank) {
        return Err(CertFault::Line { line: before + 1 });
    }
    match read_bounded(alloc, history, text) {
        Ok(cert) => head.judge(cert, before),
        Err(CertFault::Line { line }) => Err(CertFault::Line {
            line: before + line,
        }),
        Err(CertFault::NoMemory) => Err(CertFault::NoMemory),
    }
}

/// The certificate of a text, which has a line for each good commit and at most one line less than the number
/// of the line at fault.
fn read_bounded(alloc: Global, history: &History, text: &[u8]) -> Result<Cert, CertFault>
    requires { length text.now ≤ 16777216 }
    ensures read { Gives result (read_text history.now.names history.now.parents text.now) }
    ensures within { IfOk result (IsWithin (length history.now.parents)) }
    ensures goods { IfOk result (λ cert. length cert.goods ≤ length text.now) }
    ensures line { IfErr result (IsLineUpTo (length text.now + 1)) }
{
    read_cert(alloc, history, text)
}

/// The line in front of a text with its LF, and what stands behind it; none where no byte is left.
fn first_line(text: &[u8]) -> Option<(&[u8], &[u8])>
    ensures line { MatchOption result (text.now ≡ []) (λ p. IsFirstLine text.now p.0.now p.1.now) }
    ensures shorter { IfSome result (λ p. length p.1.now < length text.now) }
{
    if text.is_empty() {
        return None;
    }
    match memchr(b'\n', text) {
        Some(end) => Some(text.split_at(end + 1)),
        None => Some((text, &[])),
    }
}
