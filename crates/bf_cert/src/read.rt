//! Reading a certificate.
ghost use Rattle.std.specs.Prelude.{◌≡◌, ◌<◌, ◌≤◌, [], length, option_and_then, Ok, Some, IfOk, IfErr, IfSome, OnOk, MatchOption};
ghost use Rattle.bf_cert.specs.Certificates.{Holds, IsWithin};
ghost use Rattle.bf_cert.specs.Faults.{IsFaultOf, ReadsBack};
ghost use Rattle.bf_cert.specs.Lines.{cert_text, line_of, lines_of, IsFirstLine};
ghost use Rattle.bf_cert.specs.Reading as reading;

use crate::cert::Cert;
use crate::edges::Edges;
use crate::fault::{CertFault, LineFault};
use crate::line::CertLine;
use crate::parse::read_line;
use crate::reader::Reader;
use bf_import::History;
use memchr::memchr;
use std::alloc::Global;

/// Reads the text of a certificate over a history, of at most 16 MiB. It is taken where it holds: each
/// step leads from a good place, or from one that an earlier step leads to, to a parent of it, and so
/// the parents of the bad place are reached.
///
/// # Errors
///
/// `Line` tells the first line with which the text is no front of a certificate any more: it is in no
/// form, stands out of its place, names no commit, is no step, or is the end although a parent is not
/// reached. Where the text stops before its end, the line at fault is the one behind the last.
pub fn read_cert(alloc: Global, history: &History, bytes: &[u8]) -> Result<Cert, CertFault>
    requires { length bytes.now ≤ 16777216 }
    ensures text { IfOk result (λ cert. bytes.now ≡ cert_text history.now.names cert) }
    ensures holds { IfOk result (Holds history.now.parents) }
    ensures within { IfOk result (IsWithin (length history.now.parents)) }
    ensures fault { IfErr result (IsFaultOf history.now.names history.now.parents bytes.now) }
    ensures read { let read = reading.read_text history.now.names history.now.parents bytes.now in
        reading.Gives result read }
    ensures back { ReadsBack history.now.names history.now.parents bytes.now result }
{
    read_lines(alloc, history, bytes)
}

/// The certificate, as its lines tell it one after the other.
fn read_lines(alloc: Global, history: &History, bytes: &[u8]) -> Result<Cert, CertFault>
    requires { length bytes.now ≤ 16777216 }
    ensures read { IfOk result (λ cert.
        reading.read_text history.now.names history.now.parents bytes.now ≡ Ok cert) }
    ensures within { IfOk result (IsWithin (length history.now.parents)) }
    ensures refused { IfErr result (λ fault. reading.IsRefusal fault
        (reading.read_text history.now.names history.now.parents bytes.now)) }
{
    let Some((version, rest)) = first_line(bytes) else {
        return Err(CertFault::Line { line: 1 });
    };
    let Some(CertLine::Version) = read_line(history, version) else {
        return Err(CertFault::Line { line: 1 });
    };
    let Some((bad, rest)) = first_line(rest) else {
        return Err(CertFault::Line { line: 2 });
    };
    let Some(CertLine::Bad(bad)) = read_line(history, bad) else {
        return Err(CertFault::Line { line: 2 });
    };
    let edges = Edges::of(alloc, history.graph())?;
    let reader = Reader::open(alloc, history.len(), bad)?;
    read_on(history, &edges, reader, rest)
}

/// The certificate whose lines from the third on are these.
fn read_on(
    history: &History,
    edges: &Edges<'_>,
    mut reader: Reader,
    bytes: &[u8],
) -> Result<Cert, CertFault>
    requires edges { edges.now ≡ history.now.parents }
    requires len { reader.len ≡ length history.now.parents }
    requires short { length bytes.now ≤ 16777216 }
    ensures read { IfOk result (λ cert. reading.read_on history.now.names history.now.parents
        3 reader (lines_of bytes.now) ≡ Ok cert) }
    ensures within { IfOk result (IsWithin (length history.now.parents)) }
    ensures refused { IfErr result (λ fault. reading.IsRefusal fault
        (reading.read_on history.now.names history.now.parents 3 reader (lines_of bytes.now))) }
{
    let mut line = 3;
    let mut rest = bytes;
    while let Some((text, after)) = first_line(rest) {
        take_numbered(history, edges, &mut reader, line, text)?;
        line += 1;
        rest = after;
    }
    reader.finish(line)
}

/// Takes the line of this number.
fn take_numbered(
    history: &History,
    edges: &Edges<'_>,
    reader: &mut Reader,
    number: u32,
    text: &[u8],
) -> Result<(), CertFault>
    requires edges { edges.now ≡ history.now.parents }
    requires len { reader.old.len ≡ length history.now.parents }
    ensures taken { OnOk result
        (option_and_then (reading.take_line history.now.parents reader.old)
        (line_of history.now.names text.now) ≡ Some reader.new) }
    ensures refused { reading.RefusesNumbered result number
        (option_and_then (reading.take_line history.now.parents reader.old)
        (line_of history.now.names text.now)) }
{
    let Some(line) = read_line(history, text) else {
        return Err(CertFault::Line { line: number });
    };
    match reader.take(edges, line) {
        Ok(()) => Ok(()),
        Err(LineFault::OutOfPlace) => Err(CertFault::Line { line: number }),
        Err(LineFault::NoMemory) => Err(CertFault::NoMemory),
    }
}

/// The line in front of a text with its LF, and what stands behind it; none where no byte is left.
fn first_line(text: &[u8]) -> Option<(&[u8], &[u8])>
    ensures line { MatchOption result (text.now ≡ []) (λ p. IsFirstLine text.now p.0.now p.1.now) }
    ensures shorter { IfSome result (λ p. length p.1.now < length text.now) }
{
    if text.is_empty() {
        return None;
    }
    match memchr(b'\n', text) {
        Some(end) => Some(text.split_at(end + 1)),
        None => Some((text, &[])),
    }
}
