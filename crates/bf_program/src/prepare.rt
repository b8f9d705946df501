//! What stands before the tests: the order of the refusals.
ghost use Rattle.std.specs.Prelude.{is_some, IfOk, IsErrOf, IsTrue};
ghost use Rattle.bf_io.specs.Causes.{FailsOnlyAt};
ghost use Rattle.bf_output.specs.Output.{reads_stream};
ghost use Rattle.bf_answers.specs.Devices.{IsLeftUnless};
ghost use Rattle.bf_program.specs.Lines.{TellsOutput, TellsFile, TellsMade, TellsStream};
ghost use Rattle.bf_answers.specs.Ready.{IsSound};

use crate::generate::{generate, made_stream};
use crate::next::next;
use crate::replay::replay_log;
use crate::sample::sample;
use bf_answers::{Fault, Means, Ready, RequestLine};
use bf_begin::{LogFile, Opened, lent, open, start, told};
use bf_import::History;
use bf_io::{PlainSource, Shelf, Source};
use bf_tester::Host;
use bf_words::Verb;

/// What a line is answered before any commit is tested, or the search that is to be tested.
pub(crate) fn prepare<R: Host, S: Source, F: Shelf>(
    rt: &R,
    line: RequestLine<'_>,
    stream: &mut S,
    shelf: &mut F,
) -> Result<Ready, Fault>
    ensures output { IfOk result (TellsOutput line.entry (F.files shelf.old) (S.left stream.old)) }
    ensures sound { IfOk result (IsSound line.entry.request.now) }
    ensures reads { IsErrOf result Fault.Read → IsTrue (reads_stream line.entry.request.now.verb) }
    ensures cause { FailsOnlyAt Fault.Read (S.faults stream.old) (S.faults stream.new) result }
    ensures unread { IsLeftUnless (reads_stream line.entry.request.now.verb) stream.old stream.new }
    ensures asks { IsErrOf result Fault.Shelf → IsTrue (is_some line.entry.request.now.replay) }
    ensures file { FailsOnlyAt Fault.Shelf (F.faults shelf.old) (F.faults shelf.new) result }
    ensures unloaded { IsLeftUnless (is_some line.entry.request.now.replay) shelf.old shelf.new }
{
    match line.request.verb {
        Verb::Simulate | Verb::Run | Verb::Next | Verb::Replay => {
            prepare_stream(rt, line, stream, shelf)
        }
        Verb::Gen => Ok(Ready::Told(generate(line.alloc, line.request)?)),
        Verb::Sample => prepare_made(rt, line, shelf),
    }
}

/// The same over the stream that a number gives. It is read from memory, so no read fails.
fn prepare_made<R: Host, F: Shelf>(
    rt: &R,
    line: RequestLine<'_>,
    shelf: &mut F,
) -> Result<Ready, Fault>
    ensures output { IfOk result (TellsMade line.entry (F.files shelf.old)) }
    ensures sound { IfOk result (IsSound line.entry.request.now) }
    ensures no_read { IsErrOf result Fault.Read → ⊥ }
    ensures asks { IsErrOf result Fault.Shelf → IsTrue (is_some line.entry.request.now.replay) }
    ensures file { FailsOnlyAt Fault.Shelf (F.faults shelf.old) (F.faults shelf.new) result }
    ensures unloaded { IsLeftUnless (is_some line.entry.request.now.replay) shelf.old shelf.new }
{
    let mut made = PlainSource::new(made_stream(line.alloc, line.request)?);
    prepare_stream(rt, line, &mut made, shelf)
}

/// The same over the stream and the file that the words name.
fn prepare_stream<R: Host, S: Source, F: Shelf>(
    rt: &R,
    line: RequestLine<'_>,
    stream: &mut S,
    shelf: &mut F,
) -> Result<Ready, Fault>
    ensures output { IfOk result (TellsStream line.entry (F.files shelf.old) (S.left stream.old)) }
    ensures sound { IfOk result (IsSound line.entry.request.now) }
    ensures cause { FailsOnlyAt Fault.Read (S.faults stream.old) (S.faults stream.new) result }
    ensures asks { IsErrOf result Fault.Shelf → IsTrue (is_some line.entry.request.now.replay) }
    ensures file { FailsOnlyAt Fault.Shelf (F.faults shelf.old) (F.faults shelf.new) result }
    ensures unloaded { IsLeftUnless (is_some line.entry.request.now.replay) shelf.old shelf.new }
{
    let opened = open(line.alloc, line.words, line.request.replay, stream, shelf)?;
    match opened {
        Opened::Over(history, file) => prepare_command(rt, line, lent(&file), history),
        Opened::Refused(answer) => Ok(Ready::Told(answer)),
    }
}

/// The same over a history and the file that the words name.
fn prepare_command<R: Host>(
    rt: &R,
    line: RequestLine<'_>,
    file: Option<&LogFile>,
    history: History,
) -> Result<Ready, Fault>
    ensures tells { IfOk result (TellsFile line.entry file.entry history) }
    ensures sound { IfOk result (IsSound line.entry.request.now) }
    ensures no_read { IsErrOf result Fault.Read → ⊥ }
    ensures no_shelf { IsErrOf result Fault.Shelf → ⊥ }
{
    let alloc = line.alloc;
    match line.request.verb {
        Verb::Simulate => start(line, file, history, Means::Plan),
        Verb::Run => start(line, file, history, Means::Command),
        Verb::Next => told(next(alloc, line, file, &history)),
        Verb::Replay => told(replay_log(alloc, file, &history)),
        Verb::Gen => Ok(Ready::Told(generate(alloc, line.request)?)),
        Verb::Sample => Ok(Ready::Told(sample(rt, alloc, line.request, &history)?)),
    }
}
