//! The search of a node, which shares what is the same in the nodes around it.
ghost use Rattle.std.specs.Prelude.{◌≡◌, ◌<◌, List, ℕ, All, IfOk, OnOk};
ghost use Rattle.bf_state.specs.Session.{after_ask, after_mark};
ghost use Rattle.bf_spec.specs.Kept as kept_;

use bf_search::Mark;
use bf_state::State;
use std::alloc::{AllocError, Global};
use std::marker::Model;
use std::sync::Arc;

/// So many marks may stand behind a shared state. Where there are more, the state itself is kept.
const MOST_MARKS: usize = 256;

/// A mark of a place.
#[derive(Clone, Copy)]
pub struct Marking {
    pub mark: Mark,
    pub place: u32,
}

/// A search: that of a shared state with some marks more. Contracts see its session.
///
/// The good places, the skips and the terms are those of the state and the marks, so a node takes memory for these marks
/// alone. The rest, which asks change as well, stands here.
#[derive(Drop)]
pub struct Kept {
    base: Arc<State>,
    marks: Vec<Marking>,
    bad: Option<u32>,
    checked: bool,
    expected: Option<u32>,
    bad_asked: bool,
}

impl Model for Kept {
    ghost use Rattle.std.specs.Arc.{arc_value};
    ghost use Rattle.bf_state.specs.Session.{Session};
    ghost use Rattle.bf_spec.specs.Kept.{session_of, IsKept};

    ghost Value = { Session };

    ghost view = { λ k. session_of (arc_value k.base) k.marks.items k.bad k.checked k.expected k.bad_asked };

    ghost invariant = { λ k. IsKept (arc_value k.base) k.marks.items k.bad k.checked k.expected k.bad_asked };
}

impl Kept {
    /// The search of a state, which is shared from now on.
    pub(crate) fn new(alloc: Global, state: State) -> Result<Kept, AllocError>
        ensures { IfOk result (λ kept. kept ≡ state) }
    {
        let bad = state.bad;
        let checked = state.checked;
        let expected = state.expected;
        let bad_asked = state.bad_asked;
        Ok(Kept {
            base: Arc::new(alloc, state)?,
            marks: Vec::new(alloc),
            bad,
            checked,
            expected,
            bad_asked,
        })
    }

    /// A state that has asked after one more mark of this search.
    pub(crate) fn next(
        &self,
        alloc: Global,
        mark: Mark,
        place: u32,
        state: State,
    ) -> Result<Kept, AllocError>
        requires place { place < self.now.len }
        requires asks { (graph : List (List ℕ)) × (state ≡ after_ask graph (after_mark self.now mark place)) }
        ensures { IfOk result (λ kept. kept ≡ state) }
    {
        if self.marks.len() >= MOST_MARKS {
            return Kept::new(alloc, state);
        }
        let mut marks = Vec::with_capacity(alloc, self.marks.len() + 1)?;
        marks.extend_from_slice(self.marks.as_slice())?;
        marks.push(Marking { mark, place })?;
        Ok(Kept {
            base: Arc::try_clone(&self.base)?,
            marks,
            bad: state.bad,
            checked: state.checked,
            expected: state.expected,
            bad_asked: state.bad_asked,
        })
    }

    /// Its state.
    pub(crate) fn state(&self) -> Result<State, AllocError>
        ensures { IfOk result (λ state. state ≡ self.now) }
    {
        let mut state = self.base.try_clone()?;
        mark_all(&mut state, self.marks.as_slice())?;
        state.bad = self.bad;
        state.checked = self.checked;
        state.expected = self.expected;
        state.bad_asked = self.bad_asked;
        Ok(state)
    }

    /// The bad place.
    pub(crate) fn bad(&self) -> Option<u32>
        ensures { result ≡ self.now.search.bad }
    {
        self.bad
    }

    /// Whether the check of the merge bases has passed.
    pub(crate) fn is_checked(&self) -> bool
        ensures { result ≡ self.now.search.checked }
    {
        self.checked
    }
}

/// Marks places, one after the other. After an error some of them may be marked.
fn mark_all(state: &mut State, marks: &[Marking]) -> Result<(), AllocError>
    requires { All (λ m. m.place < state.old.len) marks.now }
    ensures { OnOk result (state.new ≡ kept_.after_marks state.old marks.now) }
{
    for marking in marks {
        state.mark(marking.mark, marking.place)?;
    }
    Ok(())
}
