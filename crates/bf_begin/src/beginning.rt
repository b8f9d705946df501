//! How a search begins.
ghost use Rattle.std.specs.Prelude.{◌≡◌, ◌<◌, [], ◌∷◌, length, is_some, unwrap_or, All, IfOk};
ghost use Rattle.std.specs.Option.{ForSome};
ghost use Rattle.bf_state.specs.Ends.{HasEnds};
ghost use Rattle.bf_output.specs.Beginning as beginning;
ghost use Rattle.bf_output.specs.Beginning.{begun_by_words};
ghost use Rattle.bf_terms.specs.Texts.{standard_sides};
ghost use Rattle.bf_search.specs.declared.entries.Entry.TheVariants.{Start};
ghost use Rattle.bf_begin.specs.Files.{given_of};
ghost use Rattle.bf_begin.specs.Lines.{begun_by_file, begun_by_line, begun_with_line};
ghost use Rattle.bf_answers.specs.Steps.{IsStep};
ghost use Rattle.bf_answers.specs.Tellings.{begun_of, AreWithin, IsBegun};

use crate::file::{LogFile, replay_file};
use crate::named::{all_named, named_if_given};
use crate::skips::{all_meant, skip_all};
use bf_answers::{Beginning, RequestLine, Stop, waiting};
use bf_import::History;
use bf_io::Word;
use bf_log::Known;
use bf_reach::Reach;
use bf_replay::Replayed;
use bf_search::Entry;
use bf_state::State;
use bf_terms::Terms;
use bf_words::Request;
use std::alloc::{AllocError, Global};

/// The terms that words give, or else those of git.
fn terms_or_standard(alloc: Global, request: &Request) -> Result<Terms, AllocError>
    ensures { let sides = unwrap_or request.now.terms standard_sides in
        IfOk result (λ terms. terms ≡ sides) }
{
    match &request.terms {
        Some(terms) => terms.try_clone(),
        None => Terms::standard(alloc),
    }
}

/// The entry that begins the log of a search between ends, alone.
fn start_alone(
    alloc: Global,
    request: &Request,
    bad: Option<u32>,
    state: &State,
) -> Result<Vec<Entry>, AllocError>
    ensures { let request = request.now in
        let start = Start request.first_parent (is_some request.terms) bad state.now.search.goods in
        IfOk result (λ entries. entries.items ≡ start ∷ []) }
{
    let mut entries = Vec::new(alloc);
    entries.push(Entry::Start {
        first_parent: request.first_parent,
        terms_given: request.terms.is_some(),
        bad,
        goods: state.goods.to_places()?,
    })?;
    Ok(entries)
}

/// A search between ends. Of equal good places the first is kept.
pub fn between_ends(
    alloc: Global,
    request: &Request,
    len: u32,
    bad: Option<u32>,
    goods: &[u32],
) -> Result<Beginning, AllocError>
    requires bad { ForSome bad (λ p. p < len) }
    requires goods { All (λ p. p < len) goods.now }
    ensures begun { IfOk result (IsBegun (beginning.between_ends request.now len bad goods.now)) }
    ensures len { IfOk result (λ first. first.state.len ≡ len) }
    ensures places { IfOk result AreWithin }
{
    let terms = terms_or_standard(alloc, request)?;
    let state = State::new(alloc, len, terms, false, request.first_parent, bad, goods)?;
    let entries = start_alone(alloc, request, bad, &state)?;
    Ok(Beginning {
        state,
        known: Known::nothing(alloc),
        entries,
    })
}

/// The search that the words for its ends begin. The bad word is tried first, then the good ones.
#[tactic(auto, unfolding(bf_output::specs::Beginning::begun_by_words))]
fn begin_by_words(
    alloc: Global,
    request: &Request,
    words: &[Word],
    history: &History,
) -> Result<Beginning, Stop>
    ensures step { IsStep begun_of result (begun_by_words request.now words.now history.now) }
    ensures len { IfOk result (λ first. first.state.len ≡ length history.now.parents) }
    ensures places { IfOk result AreWithin }
{
    let bad = named_if_given(alloc, history, words, request.bad)?;
    let goods = all_named(alloc, history, words, request.goods.as_slice())?;
    Ok(between_ends(alloc, request, history.len(), bad, goods.as_slice())?)
}

/// The search that the file of a log leads to. The log stands already, so no entry is left to write.
fn begin_by_log(
    alloc: Global,
    history: &History,
    reach: &Reach,
    file: &LogFile,
) -> Result<Beginning, Stop>
    requires { reach.now ≡ history.now.parents }
    ensures step { IsStep begun_of result (begun_by_file history.now (given_of file.now)) }
    ensures len { IfOk result (λ first. first.state.len ≡ length history.now.parents) }
    ensures places { IfOk result AreWithin }
{
    let Replayed { state, entries } = replay_file(alloc, history, reach, file)?;
    let mut known = Known::nothing(alloc);
    known.learn_all(entries.as_slice())?;
    Ok(Beginning {
        state,
        known,
        entries: Vec::new(alloc),
    })
}

/// The search that the words for its ends begin, or the log that they name.
fn begin_first(
    alloc: Global,
    line: RequestLine<'_>,
    file: Option<&LogFile>,
    history: &History,
    reach: &Reach,
) -> Result<Beginning, Stop>
    requires { reach.now ≡ history.now.parents }
    ensures step { IsStep begun_of result (begun_by_line line.entry file.entry history.now) }
    ensures len { IfOk result (λ first. first.state.len ≡ length history.now.parents) }
    ensures places { IfOk result AreWithin }
{
    match file {
        Some(file) => begin_by_log(alloc, history, reach, file),
        None => begin_by_words(alloc, line.request, line.words, history),
    }
}

/// A search that has both ends, or the answer of one that waits for an end.
fn with_ends(alloc: Global, first: Beginning) -> Result<Beginning, Stop>
    ensures step { IsStep begun_of result (beginning.with_ends (begun_of first)) }
    ensures same { IfOk result (λ whole. whole ≡ first) }
{
    if first.state.bad.is_some() && !first.state.goods.is_empty() {
        return Ok(first);
    }
    Err(Stop::Refused(waiting(alloc, &first.state)?))
}

/// The search that words begin: its ends or its log first, then the words of `--skip`, and then whether an end is
/// missing; then the skips are made.
#[tactic(auto, unfolding(bf_output::specs::Beginning::begun_with_skips))]
pub fn begin(
    alloc: Global,
    line: RequestLine<'_>,
    file: Option<&LogFile>,
    history: &History,
    reach: &Reach,
) -> Result<Beginning, Stop>
    requires { reach.now ≡ history.now.parents }
    ensures step { IsStep begun_of result (begun_with_line line.entry file.entry history.now) }
    ensures len { IfOk result (λ first. first.state.len ≡ length history.now.parents) }
    ensures places { IfOk result AreWithin }
    ensures ends { IfOk result (λ first. HasEnds first.state.search) }
{
    let skips = line.request.skips.as_slice();
    let first = begin_first(alloc, line, file, history, reach)?;
    let places = all_meant(alloc, history, reach, line.words, skips)?;
    let mut whole = with_ends(alloc, first)?;
    skip_all(&mut whole, reach, places.as_slice())?;
    Ok(whole)
}
