//! What the words of a line ask for.
ghost use Rattle.std.specs.Prelude.{◌≡◌, IfOk};
ghost use Rattle.bf_protocol.specs.Requests as requests;

use bf_io::{Word, decimal};
use bf_search::Outcome;

/// The most workers: a worker is a number from 1 to this one.
const MOST_WORKERS: u32 = 1024;

/// The most searches: a search is a number from 1 to this one.
const MOST_SEARCHES: u32 = 64;

/// What a line asks for. Words that name a commit, or that are handed on, are not in it: they stand in the line.
#[derive(Clone, Copy, PartialEq, Eq, Debug)]
pub enum Asked {
    /// The words behind the first one stand in front of those of the next search; where there is none, all are
    /// forgotten.
    Words,
    /// A search, by the words behind the first one.
    Search,
    /// A test for a worker.
    Pick {
        worker: u32,
    },
    /// The test of a worker ended so.
    Post {
        worker: u32,
        outcome: Result<Outcome, Refusal>,
    },
    /// The test of a worker was lost.
    Give {
        worker: u32,
    },
    /// The outcome of a commit, the third word, is known to a search.
    Learn {
        search: u32,
        outcome: Result<Outcome, Refusal>,
    },
    /// The searches that ask for a commit, the second word.
    Wanted,
    /// The certificate of a search.
    Certificate {
        search: u32,
    },
}

/// Why a request is refused.
#[derive(Clone, Copy, PartialEq, Eq, Debug)]
pub enum Refusal {
    /// The first word asks for nothing.
    UnknownRequest,
    /// There are too few words, or too many.
    WrongNumberOfWords,
    /// The word of a worker is no number from 1 to 1,024.
    BadWorker,
    /// The word of a search is no number from 1 to 64.
    BadSearch,
    /// The word of an outcome is neither a status nor `killed`.
    BadOutcome,
    /// No search of this number was begun.
    NoSuchSearch,
    /// The history has no such commit.
    NoSuchCommit,
    /// More words would stand than may.
    TooManyWords,
    /// There are as many searches as there may be.
    TooManySearches,
    /// The worker has a test already.
    WorkerHasATest,
    /// The worker has no test.
    WorkerHasNoTest,
    /// An outcome of the commit is known to the search.
    HasAnOutcome,
    /// A worker tests the commit for the search.
    IsUnderTest,
    /// The search has not ended with the first bad commit.
    NoCertificate,
    /// The line has more bytes than a request may.
    LineTooLong,
}

/// A kind of request, by its first word.
#[derive(Clone, Copy, PartialEq, Eq, Debug)]
enum Verb {
    Words,
    Search,
    Pick,
    Post,
    Give,
    Learn,
    Wanted,
    Certificate,
}

/// What the words of a line ask for. The first word decides, then their number, then from left to right what each is in
/// itself.
pub fn asked_by(words: &[Word]) -> Result<Asked, Refusal>
    ensures asked { result ≡ requests.asked_by words.now }
    ensures numbers { IfOk result requests.HasNumbersWithin }
{
    match words {
        [verb, others @ ..] => match verb_of(verb.as_slice()) {
            Some(verb) => asked_with(verb, others),
            None => Err(Refusal::UnknownRequest),
        },
        [] => Err(Refusal::UnknownRequest),
    }
}

/// The kind of request that a word names.
fn verb_of(word: &[u8]) -> Option<Verb>
    ensures { result ≡ requests.verb_of word.now }
{
    if word == b"words".as_slice() {
        Some(Verb::Words)
    } else if word == b"search".as_slice() {
        Some(Verb::Search)
    } else if word == b"pick".as_slice() {
        Some(Verb::Pick)
    } else if word == b"post".as_slice() {
        Some(Verb::Post)
    } else if word == b"give".as_slice() {
        Some(Verb::Give)
    } else if word == b"learn".as_slice() {
        Some(Verb::Learn)
    } else if word == b"wanted".as_slice() {
        Some(Verb::Wanted)
    } else if word == b"certificate".as_slice() {
        Some(Verb::Certificate)
    } else {
        None
    }
}

/// What a request asks for, with these words behind the first.
fn asked_with(verb: Verb, words: &[Word]) -> Result<Asked, Refusal>
    ensures { result ≡ requests.asked_with verb words.now }
{
    match verb {
        Verb::Words => Ok(Asked::Words),
        Verb::Search => Ok(Asked::Search),
        Verb::Pick => pick_of(words),
        Verb::Post => post_of(words),
        Verb::Give => give_of(words),
        Verb::Learn => learn_of(words),
        Verb::Wanted => wanted_of(words),
        Verb::Certificate => certificate_of(words),
    }
}

/// What `pick` asks for, with these words behind it.
fn pick_of(words: &[Word]) -> Result<Asked, Refusal>
    ensures { result ≡ requests.pick_of words.now }
{
    let [worker] = words else {
        return Err(Refusal::WrongNumberOfWords);
    };
    let worker = worker_of(worker.as_slice())?;
    Ok(Asked::Pick { worker })
}

/// What `post` asks for, with these words behind it.
fn post_of(words: &[Word]) -> Result<Asked, Refusal>
    ensures { result ≡ requests.post_of words.now }
{
    let [worker, outcome] = words else {
        return Err(Refusal::WrongNumberOfWords);
    };
    let worker = worker_of(worker.as_slice())?;
    let outcome = outcome_of(outcome.as_slice());
    Ok(Asked::Post { worker, outcome })
}

/// What `give` asks for, with these words behind it.
fn give_of(words: &[Word]) -> Result<Asked, Refusal>
    ensures { result ≡ requests.give_of words.now }
{
    let [worker] = words else {
        return Err(Refusal::WrongNumberOfWords);
    };
    let worker = worker_of(worker.as_slice())?;
    Ok(Asked::Give { worker })
}

/// What `learn` asks for, with these words behind it.
fn learn_of(words: &[Word]) -> Result<Asked, Refusal>
    ensures { result ≡ requests.learn_of words.now }
{
    let [search, _, outcome] = words else {
        return Err(Refusal::WrongNumberOfWords);
    };
    let search = search_of(search.as_slice())?;
    let outcome = outcome_of(outcome.as_slice());
    Ok(Asked::Learn { search, outcome })
}

/// What `wanted` asks for, with these words behind it.
fn wanted_of(words: &[Word]) -> Result<Asked, Refusal>
    ensures { result ≡ requests.wanted_of words.now }
{
    match words {
        [_] => Ok(Asked::Wanted),
        _ => Err(Refusal::WrongNumberOfWords),
    }
}

/// What `certificate` asks for, with these words behind it.
fn certificate_of(words: &[Word]) -> Result<Asked, Refusal>
    ensures { result ≡ requests.certificate_of words.now }
{
    let [search] = words else {
        return Err(Refusal::WrongNumberOfWords);
    };
    let search = search_of(search.as_slice())?;
    Ok(Asked::Certificate { search })
}

/// The number that a word is, in decimal without leading zeros.
fn number_in(word: &[u8]) -> Option<u64>
    ensures { result ≡ requests.number_in word.now }
{
    if 1 < word.len() && word.starts_with(b"0") {
        None
    } else {
        decimal(word)
    }
}

/// The number from 1 to this one that a word is.
fn number_to(most: u32, word: &[u8]) -> Option<u32>
    ensures { result ≡ requests.number_to most word.now }
{
    match number_in(word) {
        Some(number) if 1 <= number && number <= u64::from(most) => Some(number as u32),
        _ => None,
    }
}

/// The worker that a word names.
fn worker_of(word: &[u8]) -> Result<u32, Refusal>
    ensures { result ≡ requests.worker_of word.now }
{
    number_to(MOST_WORKERS, word).ok_or(Refusal::BadWorker)
}

/// The search that a word names.
fn search_of(word: &[u8]) -> Result<u32, Refusal>
    ensures { result ≡ requests.search_of word.now }
{
    number_to(MOST_SEARCHES, word).ok_or(Refusal::BadSearch)
}

/// The outcome that a word names.
fn outcome_of(word: &[u8]) -> Result<Outcome, Refusal>
    ensures { result ≡ requests.outcome_of word.now }
{
    if word == b"killed".as_slice() {
        return Ok(Outcome::Killed);
    }
    match number_in(word) {
        Some(number) if number <= 255 => Ok(Outcome::Exit(number as u8)),
        _ => Err(Refusal::BadOutcome),
    }
}

/// Why a request is refused, in words.
pub(crate) fn words_of_refusal(refusal: Refusal) -> &'static [u8]
    ensures { result.now ≡ requests.words_of_refusal refusal }
{
    match refusal {
        Refusal::UnknownRequest => b"unknown request",
        Refusal::WrongNumberOfWords => b"wrong number of words",
        Refusal::BadWorker => b"bad worker",
        Refusal::BadSearch => b"bad search",
        Refusal::BadOutcome => b"bad outcome",
        Refusal::NoSuchSearch => b"no such search",
        Refusal::NoSuchCommit => b"no such commit",
        Refusal::TooManyWords => b"too many words",
        Refusal::TooManySearches => b"too many searches",
        Refusal::WorkerHasATest => b"worker has a test",
        Refusal::WorkerHasNoTest => b"worker has no test",
        Refusal::HasAnOutcome => b"has an outcome",
        Refusal::IsUnderTest => b"is under test",
        Refusal::NoCertificate => b"no certificate",
        Refusal::LineTooLong => b"line too long",
    }
}
