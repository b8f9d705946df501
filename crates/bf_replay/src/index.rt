//! What serves to look the names of a log up. It decides what a replay costs, and nothing of its answer.
ghost use Rattle.std.specs.Prelude.{IfOk, IfSome};
ghost use Rattle.bf_names.specs.Leaps.{AreLeaps, IsIndexOf};
ghost use Rattle.bf_names.specs.Order.{IsOrderOf};

use bf_import::History;
use bf_io::Bytes;
use bf_names::{Leaps, NameIndex, NameOrder, has_ancestor, may_abbreviate};
use bf_reading::{LogLine, LogWord};
use std::alloc::{AllocError, Global};

/// What serves to look the names in these lines up over a history. Each part is made only where some name
/// may want it.
pub(crate) fn index_for(
    alloc: Global,
    history: &History,
    lines: &[LogLine],
) -> Result<NameIndex, AllocError>
    ensures { IfOk result (IsIndexOf history.now) }
{
    let order = order_for(alloc, history, lines)?;
    let leaps = leaps_for(alloc, history, lines)?;
    Ok(NameIndex { order, leaps })
}

/// The order of the names of a history, where a name in these lines may be an abbreviation.
fn order_for(
    alloc: Global,
    history: &History,
    lines: &[LogLine],
) -> Result<Option<NameOrder>, AllocError>
    ensures { IfOk result (λ order. IfSome order (IsOrderOf history.now.names)) }
{
    if lines.iter().any(|line| abbreviates(&line.word)) {
        let order = NameOrder::new(alloc, history.names(), history.len())?;
        return Ok(Some(order));
    }
    Ok(None)
}

/// The leaps over the graph of a history, where a name in these lines has a step to an ancestor.
fn leaps_for(
    alloc: Global,
    history: &History,
    lines: &[LogLine],
) -> Result<Option<Leaps>, AllocError>
    ensures { IfOk result (λ leaps. IfSome leaps (AreLeaps history.now.parents)) }
{
    if lines.iter().any(|line| goes_up(&line.word)) {
        let leaps = Leaps::new(alloc, history.graph())?;
        return Ok(Some(leaps));
    }
    Ok(None)
}

fn abbreviates(word: &LogWord) -> bool {
    names_in(word)
        .iter()
        .any(|name| may_abbreviate(name.as_slice()))
}

fn goes_up(word: &LogWord) -> bool {
    names_in(word)
        .iter()
        .any(|name| has_ancestor(name.as_slice()))
}

fn names_in(word: &LogWord) -> &[Bytes] {
    match word {
        LogWord::Start { revs, .. } => revs.as_slice(),
        LogWord::MarkWord { rev, .. } => std::slice::from_ref(rev),
    }
}
