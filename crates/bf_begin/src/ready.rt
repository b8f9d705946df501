//! What is answered before any commit is tested, or the search that is to be tested.
ghost use Rattle.std.specs.Prelude.{◌≡◌, IfOk, IsErrOf};
ghost use Rattle.bf_begin.specs.Lines.{TellsSearchFrom};
ghost use Rattle.bf_begin.specs.Opening.{IsBegunFile, IsOf};
ghost use Rattle.bf_answers.specs.Ready.{IsSound, KeepsSound, TellsStep, verb_of};

use crate::beginning::begin;
use crate::file::LogFile;
use bf_answers::{Answer, Fault, Means, Ready, RequestLine, Started, Stop};
use bf_import::History;
use bf_reach::Reach;

/// The search that words begin over a history, or its refusal.
pub fn start(
    line: RequestLine<'_>,
    file: Option<&LogFile>,
    history: History,
    means: Means,
) -> Result<Ready, Fault>
    requires asked { verb_of means ≡ line.request.now.verb }
    ensures tells { IfOk result (TellsSearchFrom line.entry file.entry history means) }
    ensures begins { IfOk result (IsBegunFile line.entry file.entry history) }
    ensures own { IfOk result (IsOf history) }
    ensures sound { IfOk result (IsSound line.entry.request.now) }
    ensures no_read { IsErrOf result Fault.Read → ⊥ }
    ensures no_shelf { IsErrOf result Fault.Shelf → ⊥ }
{
    let reach = Reach::build(line.alloc, history.graph())?;
    match begin(line.alloc, line, file, &history, &reach) {
        Ok(first) => Ok(Ready::Search(Started {
            history,
            reach,
            first,
            means,
        })),
        Err(Stop::Refused(answer)) => Ok(Ready::Told(answer)),
        Err(Stop::NoMemory) => Err(Fault::NoMemory),
    }
}

/// What a command answers that tests nothing, or its refusal.
pub fn told(step: Result<Answer, Stop>) -> Result<Ready, Fault>
    ensures tells { TellsStep step result }
    ensures sound { KeepsSound step result }
    ensures no_read { IsErrOf result Fault.Read → ⊥ }
    ensures no_shelf { IsErrOf result Fault.Shelf → ⊥ }
{
    match step {
        Ok(answer) | Err(Stop::Refused(answer)) => Ok(Ready::Told(answer)),
        Err(Stop::NoMemory) => Err(Fault::NoMemory),
    }
}
