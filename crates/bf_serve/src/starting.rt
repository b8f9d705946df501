//! How a search is begun.
ghost use Rattle.std.specs.Prelude.{◌≡◌, ◌<◌, ◌≤◌, length, All, IfOk};
ghost use Rattle.bf_answers.specs.Tellings.{AreWithin, Says};
ghost use Rattle.bf_output.specs.Refusals as refusals;
ghost use Rattle.bf_state.specs.Ends.{HasEnds};
ghost use Rattle.bf_serve.specs.Steps.{BeginsBy};

use bf_answers::{Answer, Beginning, Fault, RequestLine, Status, Stop};
use bf_begin::{begin, lent, load_file};
use bf_import::History;
use bf_io::{Bytes, Shelf};
use bf_reach::Reach;
use std::alloc::{AllocError, Global};

/// The search that a line of words begins, or its refusal.
pub(crate) fn begin_by<F: Shelf>(
    line: RequestLine<'_>,
    history: &History,
    reach: &Reach,
    shelf: &mut F,
) -> Result<Beginning, Stop>
    requires { reach.now ≡ history.now.parents }
    ensures step { BeginsBy (F.files shelf.old) (F.faults shelf.old) (F.faults shelf.new)
        history.now line.entry.words.now line.entry.request.now result }
    ensures len { IfOk result (λ first. first.state.len ≡ length history.now.parents) }
    ensures places { IfOk result AreWithin }
    ensures ends { IfOk result (λ first. HasEnds first.state.search) }
    ensures files { F.files shelf.new ≡ F.files shelf.old }
    ensures faults { F.faults shelf.old ≤ F.faults shelf.new }
{
    match load_file(line.words, line.request.replay, shelf) {
        Ok(file) => begin(line.alloc, line, lent(&file), history, reach),
        Err(Fault::Shelf) => Err(Stop::Refused(file_fault(line.alloc)?)),
        Err(Fault::Read | Fault::NoMemory) => Err(Stop::NoMemory),
    }
}

/// The answer where the shelf fails.
fn file_fault(alloc: Global) -> Result<Answer, AllocError>
    ensures { IfOk result (Says refusals.file_fault) }
{
    Ok(Answer {
        status: Status::ShelfFault,
        text: Bytes::from_slice(alloc, b"file fault\n")?,
    })
}
