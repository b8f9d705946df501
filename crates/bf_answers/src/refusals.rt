//! The answers that are refusals: each is a status and a line that says where the input is at fault.
ghost use Rattle.std.specs.Prelude.{◌≡◌, ◌++◌, IfOk, OnOk, IsErrOf};
ghost use Rattle.bf_output.specs.Refusals as refusals;
ghost use Rattle.bf_output.specs.Statuses as words;
ghost use Rattle.bf_answers.specs.Answers.{IsWholeAnswer};
ghost use Rattle.bf_answers.specs.Tellings.{waiting_in, Says, SaysWord};

use crate::answer::{Answer, Fault};
use crate::tell::sides_of;
use bf_grammar::{Limit, StreamFault};
use bf_history::ImportFault;
use bf_io::{Bytes, put_decimal};
use bf_log::write_waiting;
use bf_names::NameFault;
use bf_output::{Status, StreamKind};
use bf_state::State;
use bf_words::WordFault;
use std::alloc::{AllocError, Global};

/// The answer to a stream that gave no history. `Read` comes only where the source could not be read.
pub fn refusal(alloc: Global, fault: ImportFault) -> Result<Answer, Fault>
    ensures tells { IfOk result (Says (refusals.refusal fault)) }
    ensures whole { IfOk result IsWholeAnswer }
    ensures read { IsErrOf result Fault.Read → fault ≡ ImportFault.Stream StreamFault.Read }
    ensures no_shelf { IsErrOf result Fault.Shelf → ⊥ }
{
    match fault {
        ImportFault::Stream(fault) => refusal_of_stream(alloc, fault),
        ImportFault::BadFrom { line } => Ok(refused_at(alloc, line, StreamKind::BadFrom)?),
        ImportFault::BadMark { line } => Ok(refused_at(alloc, line, StreamKind::BadMark)?),
        ImportFault::BadPath { line } => Ok(refused_at(alloc, line, StreamKind::BadPath)?),
        ImportFault::Unsupported { line } => Ok(refused_at(alloc, line, StreamKind::Unsupported)?),
        ImportFault::NoContent { line } => Ok(no_content(alloc, line)?),
        ImportFault::TooLarge { what } => Ok(too_large(alloc, what)?),
        ImportFault::NoMemory => Err(Fault::NoMemory),
    }
}

fn refusal_of_stream(alloc: Global, fault: StreamFault) -> Result<Answer, Fault>
    ensures tells { IfOk result (Says (refusals.refusal_of_stream fault)) }
    ensures whole { IfOk result IsWholeAnswer }
    ensures read { IsErrOf result Fault.Read → fault ≡ StreamFault.Read }
    ensures no_shelf { IsErrOf result Fault.Shelf → ⊥ }
{
    match fault {
        StreamFault::Syntax { line } => Ok(refused_at(alloc, line, StreamKind::Syntax)?),
        StreamFault::Unsupported { line } => Ok(refused_at(alloc, line, StreamKind::Unsupported)?),
        StreamFault::Truncated { line } => Ok(refused_at(alloc, line, StreamKind::Truncated)?),
        StreamFault::NoDone { line } => Ok(refused_at(alloc, line, StreamKind::NoDone)?),
        StreamFault::Read => Err(Fault::Read),
        StreamFault::TooLarge { what } => Ok(too_large(alloc, what)?),
        StreamFault::NoMemory => Err(Fault::NoMemory),
    }
}

#[tactic(auto, unfolding(bf_output::specs::Refusals::refused_at))]
fn refused_at(alloc: Global, line: u64, kind: StreamKind) -> Result<Answer, AllocError>
    ensures tells { IfOk result (Says (refusals.refused_at line kind)) }
    ensures whole { IfOk result IsWholeAnswer }
{
    let mut text = Bytes::from_slice(alloc, b"stream refused at line ")?;
    put_decimal(&mut text, line)?;
    text.append(b": ")?;
    text.append(words_of_kind(kind))?;
    text.append(b"\n")?;
    Ok(Answer {
        status: Status::StreamRefused { line, kind },
        text,
    })
}

/// The answer where a limit was passed.
#[tactic(auto, unfolding(bf_output::specs::Refusals::too_large))]
pub fn too_large(alloc: Global, what: Limit) -> Result<Answer, AllocError>
    ensures tells { IfOk result (Says (refusals.too_large what)) }
    ensures whole { IfOk result IsWholeAnswer }
{
    let mut text = Bytes::from_slice(alloc, b"too large: ")?;
    text.append(word_of_limit(what))?;
    text.append(b"\n")?;
    Ok(Answer {
        status: Status::TooLarge { what },
        text,
    })
}

/// The answer to a name that means no commit.
#[tactic(auto, unfolding(bf_output::specs::Refusals::name_refused))]
pub fn name_refusal(alloc: Global, word: u32, fault: NameFault) -> Result<Answer, AllocError>
    ensures tells { IfOk result (Says (refusals.name_refused word fault)) }
    ensures whole { IfOk result IsWholeAnswer }
{
    let mut text = Bytes::from_slice(alloc, b"name refused at word ")?;
    put_decimal(&mut text, u64::from(word))?;
    text.append(b": ")?;
    put_name_fault(&mut text, fault)?;
    text.append(b"\n")?;
    Ok(Answer {
        status: Status::NameRefused { word, fault },
        text,
    })
}

/// The answer to a log that is refused at a line.
#[tactic(auto, unfolding(bf_output::specs::Refusals::log_refused))]
pub fn log_refusal(alloc: Global, line: u32) -> Result<Answer, AllocError>
    ensures tells { IfOk result (Says (refusals.log_refused line)) }
    ensures whole { IfOk result IsWholeAnswer }
{
    let mut text = Bytes::from_slice(alloc, b"log refused at line ")?;
    put_decimal(&mut text, u64::from(line))?;
    text.append(b"\n")?;
    Ok(Answer {
        status: Status::LogRefused { line },
        text,
    })
}

/// The answer to a commit of the stream that has a file without content.
#[tactic(auto, unfolding(bf_output::specs::Refusals::no_content))]
fn no_content(alloc: Global, line: u64) -> Result<Answer, AllocError>
    ensures tells { IfOk result (Says (refusals.no_content line)) }
    ensures whole { IfOk result IsWholeAnswer }
{
    let mut text = Bytes::from_slice(alloc, b"no content at line ")?;
    put_decimal(&mut text, line)?;
    text.append(b"\n")?;
    Ok(Answer {
        status: Status::NoContent { line },
        text,
    })
}

/// The answer where the shelf has no file of the name that a word gives.
pub fn no_file(alloc: Global) -> Result<Answer, AllocError>
    ensures tells { IfOk result (Says refusals.no_file) }
    ensures whole { IfOk result IsWholeAnswer }
{
    Ok(Answer {
        status: Status::NoFile,
        text: Bytes::from_slice(alloc, b"no such file\n")?,
    })
}

fn words_of_kind(kind: StreamKind) -> &'static [u8]
    ensures { result.now ≡ words.words_of_kind kind }
{
    match kind {
        StreamKind::Syntax => b"syntax",
        StreamKind::Unsupported => b"unsupported",
        StreamKind::Truncated => b"truncated",
        StreamKind::NoDone => b"no done",
        StreamKind::BadFrom => b"bad from",
        StreamKind::BadMark => b"bad mark",
        StreamKind::BadPath => b"bad path",
    }
}

fn word_of_limit(what: Limit) -> &'static [u8]
    ensures { result.now ≡ words.word_of_limit what }
{
    match what {
        Limit::Line => b"line",
        Limit::Data => b"data",
        Limit::Stream => b"stream",
        Limit::Commits => b"commits",
        Limit::Entries => b"entries",
        Limit::Log => b"log",
    }
}

fn put_name_fault(out: &mut Bytes, fault: NameFault) -> Result<(), AllocError>
    ensures { OnOk result (out.new ≡ out.old ++ words.words_of_name_fault fault) }
{
    match fault {
        NameFault::Unknown => out.append(b"unknown"),
        NameFault::Ambiguous { count } => {
            out.append(b"ambiguous ")?;
            put_decimal(out, u64::from(count))
        }
        NameFault::NoParent => out.append(b"no parent"),
        NameFault::BadForm => out.append(b"bad form"),
        NameFault::NoMemory => out.append(b"out of memory"),
    }
}

/// The answer to words that are in no form: the index is that of the first word at fault.
#[tactic(auto, unfolding(bf_output::specs::Refusals::usage))]
pub fn usage(alloc: Global, word: u32) -> Result<Answer, AllocError>
    ensures tells { IfOk result (Says (refusals.usage word)) }
    ensures whole { IfOk result IsWholeAnswer }
{
    let mut text = Bytes::from_slice(alloc, b"usage fault at word ")?;
    put_decimal(&mut text, u64::from(word))?;
    text.append(b"\n")?;
    Ok(Answer {
        status: Status::Usage { word },
        text,
    })
}

/// The answer to words that are at fault.
pub fn word_refusal(alloc: Global, fault: WordFault) -> Result<Answer, Fault>
    ensures tells { IfOk result (SaysWord fault) }
    ensures whole { IfOk result IsWholeAnswer }
    ensures memory { (IsErrOf result Fault.Read → ⊥) × (IsErrOf result Fault.Shelf → ⊥) }
{
    match fault {
        WordFault::At { word } => Ok(usage(alloc, word)?),
        WordFault::NoMemory => Err(Fault::NoMemory),
    }
}

/// The answer of a search that waits for an end.
#[tactic(auto, unfolding(bf_output::specs::Refusals::waiting))]
pub fn waiting(alloc: Global, state: &State) -> Result<Answer, AllocError>
    ensures tells { IfOk result (Says (waiting_in state.now)) }
    ensures whole { IfOk result IsWholeAnswer }
{
    let mut text = Bytes::new(alloc);
    let goods = state.goods.len() as u64;
    write_waiting(
        sides_of(&state.terms),
        state.bad.is_some(),
        goods,
        &mut text,
    )?;
    Ok(Answer {
        status: Status::Waiting,
        text,
    })
}
