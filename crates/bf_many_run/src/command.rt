//! The command `many`.
ghost use Rattle.std.specs.Prelude.{◌≡◌, ◌≢◌, ℕ, ◌≤◌, length, Some, IfOk, IfErr, IfSome, IsErrOf, IsTrue};
ghost use Rattle.bf_io.specs.Causes.{FailsOnlyAt, Rose};
ghost use Rattle.bf_output.specs.Shown.{TesterShown};
ghost use Rattle.bf_answers.specs.Answers.{Answers, IsComplete, IsWholeAnswer};
ghost use Rattle.bf_answers.specs.Devices.{IsLeftUnless, met_shelf, met_sink, met_source, met_untested};
ghost use Rattle.bf_commands.specs.Many as many;
ghost use Rattle.bf_words.specs.Options as options;
ghost use Rattle.bf_words.specs.declared.options.Form.TheVariants.{Count};
ghost use Rattle.bf_many_run.specs.Command.{IsAsked, IsCount, loads_list, to_many};
ghost use Rattle.bf_many_run.specs.Tells.{TellsOutput, TellsStreamed, TellsText};

use crate::group::search_all;
use crate::list::{ListFault, read_list};
use crate::text::list_refusal;
use bf_answers::{Answer, Fault, say_answer, usage, word_at};
use bf_begin::{FileLine, OpenedText, open_text};
use bf_grammar::Limits;
use bf_import::History;
use bf_io::{Shelf, Sink, Source, Word, decimal};
use bf_output::Status;
use bf_tester::Host;
use std::alloc::Global;

/// The number of words that a line of `many` has: the command, the number of its workers, and its file.
const WORDS: usize = 3;

/// The most workers.
const MOST_WORKERS: u64 = 64;

/// Searches as each line of the file asks for that word 2 names, with as many workers as word 1 says, over the
/// history of the stream, and tells each search as `simulate` does.
///
/// The stream is read to its end before the file is asked for. The status is that of the first search that did
/// not end with `Done`. It is `ReadFault` only where the count of faults of the stream rose, `ShelfFault` only
/// where that of the shelf did, and `WriteFault` only where that of the sink did. Want of memory may be answered at
/// any point.
pub fn many<R: Host, S: Source, F: Shelf, K: Sink>(
    rt: &R,
    alloc: Global,
    words: &[Word],
    stream: &mut S,
    shelf: &mut F,
    out: &mut K,
) -> Status
    ensures answers { (tested : TesterShown) →
        let met = met_untested words.now (met_source S.Source stream.old stream.new)
        (met_shelf F.Shelf shelf.old shelf.new) tested (met_sink K.Sink out.old out.new) in
        Answers (to_many met) met result }
    ensures complete { (tested : TesterShown) →
        let met = met_untested words.now (met_source S.Source stream.old stream.new)
        (met_shelf F.Shelf shelf.old shelf.new) tested (met_sink K.Sink out.old out.new) in
        IsComplete (to_many met) met result }
    ensures read { result ≡ Status.ReadFault → Rose (S.faults stream.old) (S.faults stream.new) }
    ensures file { result ≡ Status.ShelfFault → Rose (F.faults shelf.old) (F.faults shelf.new) }
    ensures write { result ≡ Status.WriteFault → Rose (K.faults out.old) (K.faults out.new) }
    ensures no_test { (place : ℕ) → result ≢ Status.TestFault place }
    ensures no_journal { result ≢ Status.JournalFault }
    ensures unread { IsLeftUnless (loads_list words.now) stream.old stream.new }
    ensures unloaded { IsLeftUnless (loads_list words.now) shelf.old shelf.new }
{
    let answer = answer(rt, alloc, words, stream, shelf);
    say_answer(out, answer)
}

/// The words of `many`, and how many workers they ask for; and where the answer has its memory.
#[derive(Clone, Copy)]
struct ManyLine<'a> {
    alloc: Global,
    words: &'a [Word],
    workers: u32,
}

/// How many workers the words ask for, or the word at fault: the number first, then a word that is missing, and
/// then the first further one.
fn workers_of(words: &[Word]) -> Result<u32, u32>
    ensures workers { IfOk result (IsAsked words.now) }
    ensures wrong { IfErr result (λ word. many.wrong_word words.now ≡ Some word) }
{
    if words.len() < 2 {
        return Err(words.len() as u32);
    }
    let Some(workers) = count_of(word_at(words, 1)) else {
        return Err(1);
    };
    if words.len() < WORDS {
        Err(words.len() as u32)
    } else if words.len() > WORDS {
        Err(WORDS as u32)
    } else {
        Ok(workers)
    }
}

/// A number of workers, 1 to 64.
fn count_of(word: &[u8]) -> Option<u32>
    ensures count { result ≡ options.count_of (Count 64) word.now }
    ensures bounds { IfSome result IsCount }
{
    match decimal(word) {
        Some(number) if 1 <= number && number <= MOST_WORKERS => Some(number as u32),
        _ => None,
    }
}

/// What is answered, or why there is no answer.
fn answer<R: Host, S: Source, F: Shelf>(
    rt: &R,
    alloc: Global,
    words: &[Word],
    stream: &mut S,
    shelf: &mut F,
) -> Result<Answer, Fault>
    ensures tells { IfOk result (TellsOutput words.now (F.files shelf.old) (S.left stream.old)) }
    ensures whole { IfOk result IsWholeAnswer }
    ensures reads { IsErrOf result Fault.Read → IsTrue (loads_list words.now) }
    ensures cause { FailsOnlyAt Fault.Read (S.faults stream.old) (S.faults stream.new) result }
    ensures loads { IsErrOf result Fault.Shelf → IsTrue (loads_list words.now) }
    ensures file { FailsOnlyAt Fault.Shelf (F.faults shelf.old) (F.faults shelf.new) result }
    ensures unread { IsLeftUnless (loads_list words.now) stream.old stream.new }
    ensures unloaded { IsLeftUnless (loads_list words.now) shelf.old shelf.new }
{
    match workers_of(words) {
        Err(word) => Ok(usage(alloc, word)?),
        Ok(workers) => {
            let line = ManyLine {
                alloc,
                words,
                workers,
            };
            many_file(rt, line, stream, shelf)
        }
    }
}

/// What is answered to the file that word 2 names, over the stream.
fn many_file<R: Host, S: Source, F: Shelf>(
    rt: &R,
    line: ManyLine<'_>,
    stream: &mut S,
    shelf: &mut F,
) -> Result<Answer, Fault>
    requires workers { IsCount line.workers }
    ensures tells { IfOk result (TellsStreamed line.entry.words.now (F.files shelf.old)
        (S.left stream.old)) }
    ensures whole { IfOk result IsWholeAnswer }
    ensures cause { FailsOnlyAt Fault.Read (S.faults stream.old) (S.faults stream.new) result }
    ensures file { FailsOnlyAt Fault.Shelf (F.faults shelf.old) (F.faults shelf.new) result }
{
    let file = FileLine {
        alloc: line.alloc,
        words: line.words,
        index: 2,
        limits: Limits::standard(),
    };
    let opened = open_text(file, stream, shelf)?;
    match opened {
        OpenedText::Over(history, text) => many_text(rt, line, &history, text.as_slice()),
        OpenedText::Refused(answer) => Ok(answer),
    }
}

/// What is answered to the text of a list.
fn many_text<R: Host>(
    rt: &R,
    line: ManyLine<'_>,
    history: &History,
    text: &[u8],
) -> Result<Answer, Fault>
    requires workers { IsCount line.workers }
    requires size { length text.now ≤ 16777216 }
    ensures tells { IfOk result (TellsText history.now text.now) }
    ensures whole { IfOk result IsWholeAnswer }
    ensures memory { (IsErrOf result Fault.Read → ⊥) × (IsErrOf result Fault.Shelf → ⊥) }
{
    match read_list(line.alloc, text) {
        Ok(lines) => search_all(rt, line.alloc, line.workers, history, lines.as_slice()),
        Err(ListFault::Line { line: number }) => Ok(list_refusal(line.alloc, number)?),
        Err(ListFault::NoMemory) => Err(Fault::NoMemory),
    }
}
