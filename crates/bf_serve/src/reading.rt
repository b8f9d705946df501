//! The words of a search.
ghost use Rattle.std.specs.Prelude.{◌≡◌, ◌<◌, ◌≤◌, ◌++◌, Some, length, map, All, IfOk, IfSome, OnOk};
ghost use Rattle.std.specs.Option.{option_map};
ghost use Rattle.bf_serve.specs.Begins as begins;
ghost use Rattle.bf_words.specs.Steps.{IsIndexed};
ghost use Rattle.bf_words.specs.Words.{IsRead};

use bf_graph::Places;
use bf_io::{Bytes, Word};
use bf_words::{Choice, Request, Verb, WordFault, first_option, read_words};
use std::alloc::{AllocError, Global};

/// The most words of a line.
const MOST_WORDS: usize = 1_000_000;

/// The words of a search: `next`, those that stand, and those of its own line behind the first.
pub(crate) fn words_to_begin(
    alloc: Global,
    pending: &[Word],
    words: &[Word],
) -> Result<Vec<Word>, AllocError>
    ensures { IfOk result (λ all. all.items ≡ begins.words_to_begin pending.now words.now) }
{
    let mut all = Vec::new(alloc);
    all.push(Bytes::from_slice(alloc, b"next")?)?;
    add_words(&mut all, pending)?;
    add_words(&mut all, words.get(1..).unwrap_or_default())?;
    Ok(all)
}

/// Adds copies of words.
pub(crate) fn add_words(all: &mut Vec<Word>, words: &[Word]) -> Result<(), AllocError>
    ensures { OnOk result (all.new.items ≡ all.old.items ++ words.now) }
{
    for word in words {
        all.push(word.try_clone()?)?;
    }
    Ok(())
}

/// What the words of a search ask for: those of `next`, and `--lenient-exit`.
pub(crate) fn read_search(alloc: Global, words: &[Word]) -> Result<Request, WordFault>
    requires { 0 < length words.now }
    ensures { IsRead (begins.request_to_search words.now) result }
{
    if words.len() > MOST_WORDS {
        return Err(WordFault::At { word: 1_000_000 });
    }
    match first_option(Verb::Run, words, &[Choice::LenientExit]) {
        None => read_words(alloc, words),
        Some(at) => read_without(alloc, words, at),
    }
}

/// What words ask for without the one of an index, which is `--lenient-exit`.
fn read_without(alloc: Global, words: &[Word], at: u32) -> Result<Request, WordFault>
    requires size { length words.now ≤ 1000000 }
    requires at { at < length words.now }
    ensures { IsRead (begins.read_without words.now (Some at)) result }
{
    let index = at as usize;
    let mut rest = Vec::new(alloc);
    add_words(&mut rest, &words[..index])?;
    add_words(&mut rest, &words[index + 1..])?;
    match read_words(alloc, rest.as_slice()) {
        Ok(request) => Ok(request_past(alloc, request, at)?),
        Err(WordFault::At { word }) => Err(WordFault::At {
            word: index_past(at, word),
        }),
        Err(WordFault::NoMemory) => Err(WordFault::NoMemory),
    }
}

/// An index among the words without that of another index, as one of the whole line.
fn index_past(at: u32, index: u32) -> u32
    requires { index ≤ 1000000 }
    ensures { result ≡ begins.index_past at index }
{
    if index < at { index } else { index + 1 }
}

/// The same, where there is one.
fn maybe_past(at: u32, index: Option<u32>) -> Option<u32>
    requires { IfSome index (λ i. i < 1000000) }
    ensures { result ≡ option_map (begins.index_past at) index }
{
    match index {
        Some(index) => Some(index_past(at, index)),
        None => None,
    }
}

/// The same of each.
fn each_past(alloc: Global, at: u32, indexes: &[u32]) -> Result<Places, AllocError>
    requires { All (λ i. i < 1000000) indexes.now }
    ensures { IfOk result (λ all. all ≡ map (begins.index_past at) indexes.now) }
{
    let mut all = Places::new(alloc);
    for index in indexes {
        all.push(index_past(at, *index))?;
    }
    Ok(all)
}

/// What is asked for, with the indexes of the whole line, and leniently.
fn request_past(alloc: Global, request: Request, at: u32) -> Result<Request, AllocError>
    requires { IsIndexed 1000000 request }
    ensures { IfOk result (λ past. past ≡ begins.request_past at request) }
{
    let goods = each_past(alloc, at, request.goods.as_slice())?;
    let skips = each_past(alloc, at, request.skips.as_slice())?;
    let bad = maybe_past(at, request.bad);
    let replay = maybe_past(at, request.replay);
    Ok(Request {
        bad,
        goods,
        skips,
        replay,
        lenient: true,
        ..request
    })
}
