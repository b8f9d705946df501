//! Requests that are answered one after the other.
ghost use Rattle.std.specs.Prelude.{◌≤◌, length, IsErrOf, OnErr, OnOk};
ghost use Rattle.std.specs.Io.KnownBytes.{IsAtEnd};
ghost use Rattle.bf_io.specs.Causes.{FailsOnlyAt};
ghost use Rattle.bf_io.specs.Told.{Appends, AppendsFront};
ghost use Rattle.bf_lines.specs.Lines.{told};
ghost use Rattle.bf_lines.specs.Serving.{IsBefore, IsReply, ServesAll, ServesFront, ServesSome};

use crate::{Answers, Length, Lines, ServeFault};
use bf_io::{Bytes, Sink, SinkFault, Source, write_whole};
use std::alloc::{AllocError, Global};

/// Answers the lines of `held` and of what the source has left behind it, one after the other: the reply to each is
/// written and flushed before anything is read that the line did not need. It ends where no LF is left.
///
/// Where it fails some front of the replies was written; a source that fails cuts it between two replies. More lines than a
/// number of 64 bits counts are taken for want of memory.
pub fn serve_lines<S: Source, K: Sink, B, A: Answers<B>>(
    alloc: Global,
    held: Bytes,
    source: &mut S,
    sink: &mut K,
    answers: &mut A,
    beside: &mut B,
) -> Result<(), ServeFault>
    requires { A.is_ready answers.old }
    ensures served { let input = told held (S.left source.old) in
        OnOk result (ServesAll A.says input (answers.old, beside.old) (answers.new, beside.new)
        (K.held sink.old) (K.held sink.new)) }
    ensures ended { OnOk result (IsAtEnd (S.left source.new)) }
    ensures read { let input = told held (S.left source.old) in
        IsErrOf result ServeFault.Read → ServesSome A.says input
        (answers.old, beside.old) (answers.new, beside.new)
        (K.held sink.old) (K.held sink.new) }
    ensures front { let input = told held (S.left source.old) in
        OnErr result (ServesFront A.says (IsBefore A.faults beside.new) input
        (answers.old, beside.old) (K.held sink.old) (K.held sink.new)) }
    ensures later { A.faults beside.old ≤ A.faults beside.new }
    ensures source { FailsOnlyAt ServeFault.Read
        (S.faults source.old) (S.faults source.new) result }
    ensures sink { FailsOnlyAt ServeFault.Write (K.faults sink.old) (K.faults sink.new) result }
{
    let mut lines = Lines::new(held)?;
    let mut line = Bytes::new(alloc);
    let mut text = Bytes::new(alloc);
    'requests: for _ in 0..u64::MAX {
        match lines.next_line(source, &mut line)? {
            None => return Ok(()),
            Some(kind) => {
                let request = line.as_slice();
                ask(answers, beside, kind, request, &mut text)?;
                let reply = text.as_slice();
                send(sink, reply)?;
            }
        }
    }
    Err(ServeFault::NoMemory)
}

/// Puts the reply to a line into `text`.
fn ask<B, A: Answers<B>>(
    answers: &mut A,
    beside: &mut B,
    kind: Length,
    line: &[u8],
    text: &mut Bytes,
) -> Result<(), AllocError>
    requires ready { A.is_ready answers.old }
    requires short { length line.now ≤ 65535 }
    ensures reply { OnOk result (IsReply A.says (answers.old, beside.old) (answers.new, beside.new)
        line.now kind text.new) }
    ensures ready { OnOk result (A.is_ready answers.new) }
    ensures later { A.faults beside.old ≤ A.faults beside.new }
{
    text.clear();
    match kind {
        Length::Short => answers.answer(beside, line, text),
        Length::Long => answers.answer_long(beside, text),
    }
}

/// Writes a reply, and passes it on at once.
fn send<K: Sink>(sink: &mut K, text: &[u8]) -> Result<(), SinkFault>
    ensures whole { OnOk result (Appends (K.held sink.old) (K.held sink.new) text.now) }
    ensures front { OnErr result (AppendsFront (K.held sink.old) (K.held sink.new) text.now) }
    ensures cause { FailsOnlyAt SinkFault.Failed (K.faults sink.old) (K.faults sink.new) result }
{
    write_whole(sink, text)?;
    sink.flush()
}
