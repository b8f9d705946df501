//! The commits that are skipped before a search.
ghost use Rattle.std.specs.Prelude.{◌≡◌, ◌<◌, [], ◌∷◌, ◌++◌, length, All, IfOk, OnOk};
ghost use Rattle.bf_search.specs.Candidates.{places_of};
ghost use Rattle.bf_search.specs.Run.{warnings};
ghost use Rattle.bf_search.specs.declared.entries.Entry.TheVariants.{Marked};
ghost use Rattle.bf_search.specs.declared.outcomes.Mark.TheVariants.{Skip};
ghost use Rattle.bf_output.specs.Beginning.{gathered, places_meant};
ghost use Rattle.bf_answers.specs.Steps.{IsStep};
ghost use Rattle.bf_answers.specs.Tellings.{KeepsWithin, SkipsPlace, SkipsPlaces};

use crate::named::meant;
use bf_answers::{Beginning, Stop};
use bf_import::History;
use bf_io::Word;
use bf_reach::{Reach, Row};
use bf_search::{Entry, Mark, push_warnings};
use bf_state::true_places;
use std::alloc::{AllocError, Global};

/// Adds the places of a row.
fn add_places(alloc: Global, row: &Row, places: &mut Vec<u32>) -> Result<(), AllocError>
    ensures { OnOk result (places.new.items ≡ places.old.items ++ places_of row.now) }
{
    let more = true_places(alloc, row)?;
    places.extend_from_slice(more.as_slice())?;
    Ok(())
}

/// The places that words of `--skip` mean: those of each word by place, in the order of the words.
pub fn all_meant(
    alloc: Global,
    history: &History,
    reach: &Reach,
    words: &[Word],
    indexes: &[u32],
) -> Result<Vec<u32>, Stop>
    requires { reach.now ≡ history.now.parents }
    ensures step { IsStep (λ ps. ps.items) result
        (gathered (places_meant history.now words.now) indexes.now) }
    ensures within { IfOk result (λ ps. All (λ p. p < length history.now.parents) ps.items) }
{
    let mut places = Vec::new(alloc);
    for index in indexes {
        let row = meant(alloc, history, reach, words, *index)?;
        add_places(alloc, &row, &mut places)?;
    }
    Ok(places)
}

/// Adds the entry of a skip, with the skipped merge bases to warn of before it.
fn push_skip(entries: &mut Vec<Entry>, warned: &[u32], place: u32) -> Result<(), AllocError>
    ensures { OnOk result (entries.new.items ≡ entries.old.items
        ++ (warnings warned.now ++ Marked Skip place ∷ [])) }
{
    push_warnings(entries, warned)?;
    entries.push(Entry::Marked {
        mark: Mark::Skip,
        place,
    })?;
    Ok(())
}

/// Skips a place, whatever is asked. After an error some of it may be done.
fn skip(first: &mut Beginning, reach: &Reach, place: u32) -> Result<(), AllocError>
    requires len { length reach.now ≡ first.old.state.len }
    requires place { place < first.old.state.len }
    ensures begun { OnOk result (SkipsPlace reach.now place first.old first.new) }
    ensures len { OnOk result (first.new.state.len ≡ first.old.state.len) }
    ensures places { OnOk result (KeepsWithin first.old first.new) }
{
    let _len = first.state.len();
    let warned = first.state.take(reach, Mark::Skip, place)?;
    push_skip(&mut first.entries, warned.as_slice(), place)
}

/// Skips places, one after the other. After an error some of it may be done.
pub fn skip_all(first: &mut Beginning, reach: &Reach, places: &[u32]) -> Result<(), AllocError>
    requires len { length reach.now ≡ first.old.state.len }
    requires places { All (λ p. p < first.old.state.len) places.now }
    ensures begun { OnOk result (SkipsPlaces reach.now places.now first.old first.new) }
    ensures len { OnOk result (first.new.state.len ≡ first.old.state.len) }
    ensures places { OnOk result (KeepsWithin first.old first.new) }
{
    for place in places {
        skip(first, reach, *place)?;
    }
    Ok(())
}
