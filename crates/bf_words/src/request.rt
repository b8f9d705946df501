//! What the words ask for.
ghost use Rattle.std.specs.Prelude.{◌≡◌, ◌≤◌, ◌<◌, length, [], drop, map, slice_get, All, IfOk, IfSome, OnOk};
ghost use Rattle.std.specs.Option.{option_map};
ghost use Rattle.bf_words.specs.Steps as steps;
ghost use Rattle.bf_words.specs.Words as line;
ghost use Rattle.bf_words.specs.declared.request.WordFault.TheVariants as faults;

use crate::checks::{has_ends, line_fault, plan_in, read_terms, refuse};
use crate::found::{
    has_option, has_replay, index_of, number_or, tail_of, value_at, word_at, words_of,
};
use crate::options::count_of;
use crate::reading::{form_of_number, read_roles};
use crate::verb::verb_of;
use crate::{Choice, Role, Verb};
use bf_graph::Places;
use bf_io::{Word, decimal};
use bf_terms::Terms;
use std::alloc::{AllocError, AllocFailed, Global};
use thiserror::Error;

/// What the words of the command line ask for. A word is given by its index in the line, where the
/// command has the index 0.
#[derive(Debug, Drop)]
pub struct Request {
    /// The command.
    pub verb: Verb,
    /// The word of the bad commit. `simulate`, `run` and `next` have it, where no log is replayed.
    pub bad: Option<u32>,
    /// The words of the good commits, in order.
    pub goods: Places,
    /// The words that the options `--skip` give, in order: names or ranges of commits.
    pub skips: Places,
    /// The word with the plan of outcomes, which `simulate` has.
    pub plan: Option<u32>,
    /// The first word of the command that `run` tests by. It goes up to the end of the line.
    pub tail: Option<u32>,
    /// The word with the name of the log to replay.
    pub replay: Option<u32>,
    /// How many tests may run at once, from 1 to 64.
    pub workers: u32,
    /// After how many marks the log is written, from 1 to 1,000,000; 0 where it is written at the end.
    pub leg: u32,
    /// Whether the search follows first parents alone.
    pub first_parent: bool,
    /// Whether the events of the workers are printed.
    pub trace: bool,
    /// The terms, where the words give one.
    pub terms: Option<Terms>,
    /// The number from which `gen` and `sample` make a stream; else 0.
    pub number: u64,
    /// How many commits `gen` and `sample` make, from 1 to 100,000; else 0.
    pub count: u32,
    /// Whether a command that could not be started counts as one that found its commit bad.
    pub lenient: bool,
}

/// Why the words ask for nothing.
#[derive(Clone, Copy, Debug, PartialEq, Eq, Error)]
pub enum WordFault {
    /// The word of this index is at fault. A word that is missing has the number of words as its index.
    #[error("the word {word} is at fault")]
    At {
        /// The index of the word, from 0.
        word: u32,
    },
    /// Memory ran out.
    #[error("out of memory")]
    NoMemory,
}

impl From<AllocError> for WordFault {
    ghost from_gives = { λ _ e. e ≡ faults.NoMemory };

    fn from(_error: AllocError) -> WordFault {
        WordFault::NoMemory
    }
}

impl<T: Drop> From<AllocFailed<T>> for WordFault {
    ghost from_gives = { λ _ e. e ≡ faults.NoMemory };

    fn from(_error: AllocFailed<T>) -> WordFault {
        WordFault::NoMemory
    }
}

/// The fault of the word of an index.
pub(crate) fn fault_at(index: usize) -> WordFault
    requires { index ≤ 1000000 }
    ensures { result ≡ faults.At index }
{
    WordFault::At { word: index as u32 }
}

// A line of words that are read.
#[derive(Clone, Copy)]
struct WordLine<'a> {
    verb: Verb,
    words: &'a [Word],
    roles: &'a [Role],
    // The words that belong to no option.
    plains: &'a [u32],
}

// BAD and the GOOD words.
fn ends_in(verb: Verb, replay: bool, plains: &[u32]) -> &[u32]
    ensures { result.now ≡ line.ends_in verb replay plains.now }
{
    if !has_ends(verb, replay) {
        &[]
    } else if verb.line_form().plan {
        &plains[..plains.len().saturating_sub(1)]
    } else {
        plains
    }
}

// All but the first.
fn goods_in(ends: &[u32]) -> &[u32]
    ensures { result.now ≡ drop 1 ends.now }
{
    match ends {
        [] => ends,
        [_, goods @ ..] => goods,
    }
}

// The word of a number by its place among the words that belong to no option.
fn plain_word<'a>(plains: &[u32], place: usize, words: &'a [Word]) -> &'a [u8]
    ensures { result.now ≡ line.word_or [] words.now (slice_get plains.now place) }
{
    match plains.get(place) {
        None => b"",
        Some(index) => word_at(words, *index as usize),
    }
}

// NUMBER.
#[tactic(auto, unfolding(crate::specs::Words::number_in))]
fn number_in(verb: Verb, plains: &[u32], words: &[Word]) -> u64
    ensures { result ≡ line.number_in verb plains.now words.now }
{
    if verb.line_form().numbers {
        decimal(plain_word(plains, 0, words)).unwrap_or(0)
    } else {
        0
    }
}

// COUNT.
#[tactic(auto, unfolding(crate::specs::Words::count_in))]
fn count_in(verb: Verb, plains: &[u32], words: &[Word]) -> u32
    ensures { result ≡ line.count_in verb plains.now words.now }
{
    if verb.line_form().numbers {
        count_of(form_of_number(1), plain_word(plains, 1, words)).unwrap_or(0)
    } else {
        0
    }
}

// What a line asks for.
#[tactic(auto, unfolding(crate::specs::Words::request_of))]
fn request_of(
    alloc: Global,
    read: WordLine<'_>,
    terms: Option<Terms>,
) -> Result<Request, AllocError>
    requires size { length read.roles.now ≤ 1000000 }
    requires plains { read.plains.now ≡ line.plains_of read.roles.now }
    requires terms { terms ≡ line.terms_of read.roles.now read.words.now }
    ensures { IfOk result (λ made. made ≡ steps.request_of_line read.entry) }
{
    let WordLine {
        verb,
        words,
        roles,
        plains,
    } = read;
    let ends = ends_in(verb, has_replay(roles), plains);
    Ok(Request {
        verb,
        bad: ends.first().copied(),
        goods: Places::from_slice(alloc, goods_in(ends))?,
        skips: words_of(alloc, roles, Some(Choice::Skip))?,
        plan: plan_in(verb, plains),
        tail: index_of(tail_of(roles)),
        replay: index_of(value_at(roles, Choice::Replay)),
        workers: number_or(1, Choice::Workers, roles, words),
        leg: number_or(0, Choice::Leg, roles, words),
        first_parent: has_option(roles, Choice::FirstParent),
        trace: has_option(roles, Choice::Trace),
        terms,
        number: number_in(verb, plains, words),
        count: count_in(verb, plains, words),
        lenient: has_option(roles, Choice::LenientExit),
    })
}

// What a line asks for whose words are read.
#[tactic(auto, unfolding(crate::specs::Words::plains_of))]
fn read_rest(
    alloc: Global,
    verb: Verb,
    words: &[Word],
    roles: &[Role],
) -> Result<Request, WordFault>
    requires words { length words.now ≤ 1000000 }
    requires roles { length roles.now ≤ 1000000 }
    ensures { line.IsRead (steps.read_rest verb roles.now words.now) result }
{
    let terms = read_terms(alloc, roles, words)?;
    let plains = words_of(alloc, roles, None)?;
    refuse(line_fault(verb, roles, plains.as_slice(), words))?;
    let read = WordLine {
        verb,
        words,
        roles,
        plains: plains.as_slice(),
    };
    Ok(request_of(alloc, read, terms)?)
}

// Reads the line of a command.
fn read_line(alloc: Global, verb: Verb, words: &[Word]) -> Result<Request, WordFault>
    requires some { 0 < length words.now }
    requires size { length words.now ≤ 1000000 }
    ensures { line.IsRead (line.read_line verb words.now) result }
{
    let roles = read_roles(alloc, verb, words)?;
    read_rest(alloc, verb, words, roles.as_slice())
}

// The most words of a line.
const MOST_WORDS: usize = 1_000_000;

/// Reads the words of the command line: the command, its options and its other words.
///
/// A fault comes at the first word of the line, from left to right, that is at fault; where there is
/// none, by the terms, then by an option that a replayed log forbids, then by a word that is missing, by
/// one too many, and by the plan. A line of more than 1,000,000 words is at fault at word 1000000.
/// `NoMemory` comes only for want of memory.
#[tactic(auto, unfolding(crate::specs::Words::request))]
pub fn read_words(alloc: Global, words: &[Word]) -> Result<Request, WordFault>
    ensures { line.IsRead (line.request words.now) result }
{
    if words.len() > MOST_WORDS {
        return Err(fault_at(MOST_WORDS));
    }
    match verb_of(word_at(words, 0)) {
        None => Err(fault_at(0)),
        Some(verb) => read_line(alloc, verb, words),
    }
}

// The index behind one, where there is one.
fn next_index(index: Option<u32>) -> Option<u32>
    requires { IfSome index (λ i. i < 1000000) }
    ensures { result ≡ option_map line.next_index index }
{
    match index {
        Some(index) => Some(index + 1),
        None => None,
    }
}

// The indexes behind these.
fn next_indexes(alloc: Global, indexes: &[u32]) -> Result<Places, AllocError>
    requires { All (λ i. i < 1000000) indexes.now }
    ensures { IfOk result (λ further. further ≡ map line.next_index indexes.now) }
{
    let mut further = Places::new(alloc);
    for index in indexes {
        further.push(*index + 1)?;
    }
    Ok(further)
}

impl Request {
    // Moves the request one word further in its line. After an error some of it may be moved.
    fn move_on(&mut self, alloc: Global) -> Result<(), AllocError>
        requires { steps.IsIndexed 1000000 self.old }
        ensures { OnOk result (self.new ≡ line.one_further self.old) }
    {
        self.bad = next_index(self.bad);
        self.goods = next_indexes(alloc, self.goods.as_slice())?;
        self.skips = next_indexes(alloc, self.skips.as_slice())?;
        self.plan = next_index(self.plan);
        self.tail = next_index(self.tail);
        self.replay = next_index(self.replay);
        Ok(())
    }
}

/// Reads the words behind the first one as a line of their own. The indexes of the request, and of the word at
/// fault, are those of the whole line.
#[tactic(auto, unfolding(crate::specs::Words::request_behind))]
pub fn read_words_behind(alloc: Global, words: &[Word]) -> Result<Request, WordFault>
    ensures { line.IsRead (line.request_behind words.now) result }
{
    match read_words(alloc, words.get(1..).unwrap_or_default()) {
        Ok(mut request) => {
            request.move_on(alloc)?;
            Ok(request)
        }
        Err(WordFault::At { word }) => Err(WordFault::At { word: word + 1 }),
        Err(WordFault::NoMemory) => Err(WordFault::NoMemory),
    }
}
