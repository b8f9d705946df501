//! Asks that hand out the candidates and their weights, or are given them.
ghost use Rattle.std.specs.Prelude.{◌≡◌, length, Some, IfOk};
ghost use Rattle.bf_graph.specs.Graph.{IsGraph};
ghost use Rattle.bf_state.specs.Session.{IsSearchBelow};
ghost use Rattle.bf_state.specs.Steps as steps;
ghost use Rattle.bf_state.specs.Weighed.{mask_of, weights_of, AreNeeded};

use crate::asking::{Decision, Passage, ask_over, pass};
use crate::state::State;
use bf_choice::{candidates, weights};
use bf_reach::{Reach, Row};
use bf_search::Step;
use std::alloc::AllocError;

/// One step of a search, with the candidates and the weights that its ask had in hand.
#[derive(Drop)]
pub struct Weighed {
    /// What was asked.
    pub step: Step,
    /// By place, whether it is a candidate.
    pub mask: Row,
    /// By place, how many candidates each candidate reaches in the mode. They are there exactly where
    /// both ends are known and the check of the merge bases has passed.
    pub weights: Option<Vec<u32>>,
}

/// What an ask leaves, and the weights that it needed.
#[derive(Drop)]
pub(crate) struct Weighing {
    pub(crate) decision: Decision,
    pub(crate) weights: Option<Vec<u32>>,
}

/// The candidates of a state.
pub(crate) fn mask_of(state: &State, reach: &Reach) -> Result<Row, AllocError>
    requires { length reach.now ≡ state.now.len }
    ensures { IfOk result (λ mask. mask ≡ mask_of reach.now state.now.search) }
{
    let alloc = state.goods.allocator();
    match state.bad {
        Some(bad) => candidates(
            alloc,
            reach,
            bad,
            state.goods.as_slice(),
            state.first_parent,
        ),
        None => Row::new(alloc, state.len),
    }
}

/// The weights of the candidates of a state with a bad place.
pub(crate) fn weights_of(
    state: &State,
    reach: &Reach,
    bad: u32,
    mask: &Row,
) -> Result<Vec<u32>, AllocError>
    requires len { length reach.now ≡ state.now.len }
    requires bad { state.now.search.bad ≡ Some bad }
    requires mask { mask.now ≡ mask_of reach.now state.now.search }
    ensures { IfOk result (λ all. all.items ≡ weights_of reach.now state.now.search) }
{
    prove!(reach.len() == state.len());
    weights(state.goods.allocator(), reach, mask, state.first_parent)
}

/// The next ask of a state over its candidates, which are weighed where the check has passed.
pub(crate) fn weigh(state: &State, reach: &Reach, mask: &Row) -> Result<Weighing, AllocError>
    requires len { length reach.now ≡ state.now.len }
    requires mask { mask.now ≡ mask_of reach.now state.now.search }
    ensures graph { IsGraph reach.now }
    ensures below { IsSearchBelow state.now.len state.now.search }
    ensures decides { IfOk result (λ w. steps.IsDecisionOf reach.now state.now.search w.decision) }
    ensures weights { IfOk result (λ w. AreNeeded reach.now state.now w.weights) }
{
    match pass(state, reach)? {
        Passage::Asks(step) => Ok(Weighing {
            decision: Decision {
                checked: state.checked,
                step,
            },
            weights: None,
        }),
        Passage::Passed { warned, bad } => {
            let weights = weights_of(state, reach, bad, mask)?;
            let ask = ask_over(state, bad, mask, weights.as_slice())?;
            Ok(Weighing {
                decision: Decision {
                    checked: true,
                    step: Step { warned, ask },
                },
                weights: Some(weights),
            })
        }
    }
}

/// The next ask of a state over its candidates and their weights.
pub(crate) fn decide_over(
    state: &State,
    reach: &Reach,
    mask: &Row,
    weights: &[u32],
) -> Result<Decision, AllocError>
    requires len { length reach.now ≡ state.now.len }
    requires mask { mask.now ≡ mask_of reach.now state.now.search }
    requires weights { weights.now ≡ weights_of reach.now state.now.search }
    ensures graph { IsGraph reach.now }
    ensures below { IsSearchBelow state.now.len state.now.search }
    ensures decides { IfOk result (steps.IsDecisionOf reach.now state.now.search) }
{
    match pass(state, reach)? {
        Passage::Asks(step) => Ok(Decision {
            checked: state.checked,
            step,
        }),
        Passage::Passed { warned, bad } => {
            let ask = ask_over(state, bad, mask, weights)?;
            Ok(Decision {
                checked: true,
                step: Step { warned, ask },
            })
        }
    }
}
