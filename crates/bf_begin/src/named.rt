//! The commits that words name.
ghost use Rattle.std.specs.Prelude.{◌≡◌, ◌<◌, length, All, IfOk, IfErr};
ghost use Rattle.std.specs.Option.{ForSome};
ghost use Rattle.bf_output.specs.Beginning as beginning;
ghost use Rattle.bf_output.specs.Beginning.{gathered, one_named};
ghost use Rattle.bf_answers.specs.Steps.{IsStep, RefusesName};

use bf_answers::{Stop, name_refusal, word_at};
use bf_graph::Places;
use bf_import::History;
use bf_io::Word;
use bf_names::{NameFault, resolve, resolve_range};
use bf_reach::{Reach, Row};
use std::alloc::Global;

/// What a name means, or the refusal of the word that it stands in.
fn or_refusal<X: Drop>(alloc: Global, word: u32, meant: Result<X, NameFault>) -> Result<X, Stop>
    ensures ok { IfOk result (λ x. meant ≡ Ok x) }
    ensures err { IfErr result (λ stop. RefusesName word meant stop) }
{
    match meant {
        Ok(x) => Ok(x),
        Err(NameFault::NoMemory) => Err(Stop::NoMemory),
        Err(fault) => Err(Stop::Refused(name_refusal(alloc, word, fault)?)),
    }
}

/// The place that the word of an index names.
fn named(alloc: Global, history: &History, words: &[Word], index: u32) -> Result<u32, Stop>
    ensures step { IsStep (λ p. p) result (beginning.named history.now words.now index) }
    ensures within { IfOk result (λ p. p < length history.now.parents) }
{
    or_refusal(alloc, index, resolve(alloc, history, word_at(words, index)))
}

/// The place that the word of an index names, where there is one.
pub fn named_if_given(
    alloc: Global,
    history: &History,
    words: &[Word],
    index: Option<u32>,
) -> Result<Option<u32>, Stop>
    ensures step { IsStep (λ p. p) result (beginning.named_if_given history.now words.now index) }
    ensures within { IfOk result (λ place. ForSome place (λ p. p < length history.now.parents)) }
{
    match index {
        Some(index) => Ok(Some(named(alloc, history, words, index)?)),
        None => Ok(None),
    }
}

/// The places that words name, in their order.
pub fn all_named(
    alloc: Global,
    history: &History,
    words: &[Word],
    indexes: &[u32],
) -> Result<Places, Stop>
    ensures step { IsStep (λ ps. ps) result
        (gathered (one_named history.now words.now) indexes.now) }
    ensures within { IfOk result (λ ps. All (λ p. p < length history.now.parents) ps) }
{
    let mut places = Places::new(alloc);
    for index in indexes {
        places.push(named(alloc, history, words, *index)?)?;
    }
    Ok(places)
}

/// By place, whether the word of an index means it.
pub fn meant(
    alloc: Global,
    history: &History,
    reach: &Reach,
    words: &[Word],
    index: u32,
) -> Result<Row, Stop>
    requires { reach.now ≡ history.now.parents }
    ensures step { IsStep (λ row. row) result (beginning.meant history.now words.now index) }
    ensures within { IfOk result (λ row. length row ≡ length history.now.parents) }
{
    or_refusal(
        alloc,
        index,
        resolve_range(alloc, history, reach, word_at(words, index)),
    )
}
