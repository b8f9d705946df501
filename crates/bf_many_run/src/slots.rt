//! Searches that have begun, line by line of a list, and their refusals.
ghost use Rattle.std.specs.Prelude.{◌≡◌, ◌++◌, ◌∷◌, [], ℕ, List, Ok, length, map, All, IfOk, IsErrOf, OnOk};
ghost use Rattle.bf_answers.specs.Tellings.{AreWithin};
ghost use Rattle.bf_many_run.specs.Groups.{AreSearchesOf, IsBegunAs};
ghost use Rattle.bf_many_run.specs.Lists.{IsAskedBy, words_in};
ghost use Rattle.bf_words.specs.Words.{request};

use crate::list::ListLine;
use bf_answers::{Answer, Beginning, Fault, RequestLine, Stop};
use bf_begin::begin;
use bf_import::History;
use bf_reach::Reach;
use bf_searches::{Telling, tester_of};
use bf_state::State;
use bf_tester::{PlanTester, Tester};
use std::alloc::{AllocError, Global};

/// A search that has begun: where it stands, and its log so far.
#[derive(Drop)]
pub(crate) struct BegunSearch {
    pub state: State,
    pub telling: Telling,
}

/// What a line of a list comes to before its commits are tested.
#[derive(Drop)]
pub(crate) enum ListSlot {
    /// Its search is refused, with this answer.
    Refused(Answer),
    /// Its search has begun.
    Begun(BegunSearch),
}

/// The searches of a list, line by line, with a tester for each that has begun.
#[derive(Drop)]
pub(crate) struct Group {
    pub alloc: Global,
    pub slots: Vec<ListSlot>,
    pub testers: Vec<PlanTester>,
}

/// A search of which no commit is tested yet, with the first lines of its log.
fn begun_of(alloc: Global, history: &History, first: Beginning) -> Result<BegunSearch, AllocError>
    requires len { first.state.len ≡ length history.now.parents }
    requires places { AreWithin first }
    ensures { IfOk result (IsBegunAs history.now first) }
{
    // What the length tells is needed: the places of the search are places of the history.
    let _places = first.state.len();
    let Beginning {
        state,
        known,
        entries,
    } = first;
    let mut telling = Telling::new(alloc, known, false);
    telling.add_entries(history, &state, entries.as_slice())?;
    Ok(BegunSearch { state, telling })
}

impl Group {
    /// Adds the search of a line, or its refusal.
    fn add(&mut self, line: RequestLine<'_>, history: &History, reach: &Reach) -> Result<(), Fault>
        requires asked { request line.words.now ≡ Ok line.request.now }
        requires reach { reach.now ≡ history.now.parents }
        ensures added { (lines : List (List (List ℕ))) →
            AreSearchesOf ⟦<PlanTester as Tester>⟧ history.now lines
            self.old.slots.items self.old.testers.items →
            OnOk result (AreSearchesOf ⟦<PlanTester as Tester>⟧ history.now
            (lines ++ line.entry.words.now ∷ []) self.new.slots.items self.new.testers.items) }
        ensures no_read { IsErrOf result Fault.Read → ⊥ }
        ensures no_shelf { IsErrOf result Fault.Shelf → ⊥ }
    {
        match begin(line.alloc, line, None, history, reach) {
            Ok(first) => {
                let begun = begun_of(line.alloc, history, first)?;
                let tester = tester_of(line.alloc, line)?;
                self.slots.push(ListSlot::Begun(begun))?;
                self.testers.push(tester)?;
                Ok(())
            }
            Err(Stop::Refused(answer)) => {
                self.slots.push(ListSlot::Refused(answer))?;
                Ok(())
            }
            Err(Stop::NoMemory) => Err(Fault::NoMemory),
        }
    }
}

/// The searches of a list over a history. No commit is tested yet.
pub(crate) fn begin_all(
    alloc: Global,
    lines: &[ListLine],
    history: &History,
    reach: &Reach,
) -> Result<Group, Fault>
    requires asked { All IsAskedBy lines.now }
    requires reach { reach.now ≡ history.now.parents }
    ensures group { IfOk result (λ group. AreSearchesOf ⟦<PlanTester as Tester>⟧ history.now
        (map words_in lines.now) group.slots.items group.testers.items) }
    ensures no_read { IsErrOf result Fault.Read → ⊥ }
    ensures no_shelf { IsErrOf result Fault.Shelf → ⊥ }
{
    let mut group = Group {
        alloc,
        slots: Vec::new(alloc),
        testers: Vec::new(alloc),
    };
    for line in lines {
        group.add(line.line(alloc), history, reach)?;
    }
    Ok(group)
}
