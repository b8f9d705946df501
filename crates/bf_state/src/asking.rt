//! The choice of the next ask.
ghost use Rattle.std.specs.Prelude.{◌≡◌, ◌≢◌, ◌≤◌, false, All, [], length, if◌then◌else◌, Some, IfOk};
ghost use Rattle.bf_graph.specs.Graph.{IsGraph};
ghost use Rattle.bf_search.specs.Candidates.{IsCandidateRow};
ghost use Rattle.bf_search.specs.Choice.{count_in};
ghost use Rattle.bf_search.specs.State.{best_of};
ghost use Rattle.bf_search.specs.Bases.{check};
ghost use Rattle.bf_state.specs.Session.{IsSearchBelow};
ghost use Rattle.bf_state.specs.Steps as steps;
ghost use Rattle.bf_state.specs.Weighed.{row_below};

use crate::state::State;
use bf_choice::{candidates, check, choose, weights};
use bf_graph::Places;
use bf_reach::{Reach, Row, true_places};
use bf_search::{Ask, Check, Step};
use std::alloc::AllocError;

/// What an ask leaves: its step, and whether the check of the merge bases has passed.
#[derive(Drop)]
pub(crate) struct Decision {
    pub(crate) checked: bool,
    pub(crate) step: Step,
}

/// How far an ask goes without a look at the candidates.
#[derive(Drop)]
pub(crate) enum Passage {
    /// Ends are missing, or the check of the merge bases has not passed: this is the step.
    Asks(Step),
    /// The check has passed, with these bases to warn of, so a candidate of this bad place is asked.
    Passed { warned: Places, bad: u32 },
}

/// Whether the check of the merge bases has passed after so much of an ask.
pub(crate) fn passed_after(checked: bool, passage: &Passage) -> bool
    ensures { result ≡ steps.passed_after checked passage.now }
{
    match passage {
        Passage::Asks(_) => checked,
        Passage::Passed { .. } => true,
    }
}

/// The bases to warn of.
pub(crate) fn warned_after(passage: Passage) -> Places
    ensures { result ≡ steps.warned_after passage }
{
    match passage {
        Passage::Asks(step) => step.warned,
        Passage::Passed { warned, .. } => warned,
    }
}

/// The place that an ask asks to test.
pub(crate) fn tested(ask: &Ask) -> Option<u32>
    ensures { result ≡ steps.tested ask.now }
{
    match ask {
        Ask::Test(place) => Some(*place),
        _ => None,
    }
}

/// How a search with these candidates ends without a look at the skipped ones.
pub(crate) fn ending(places: &[u32], bad: u32) -> Option<Ask>
    ensures { result ≡ steps.ending places.now bad }
{
    match places {
        [] => Some(Ask::BothSides(bad)),
        [only] if *only == bad => Some(Ask::FirstBad(bad)),
        _ => None,
    }
}

fn ask_of_best(places: Places, best: Option<u32>) -> Ask
    ensures { result ≡ steps.ask_of_best places best }
{
    match best {
        Some(place) => Ask::Test(place),
        None => Ask::OnlySkipped(places),
    }
}

/// The best candidate of a state, whose candidates are those of `mask`.
fn best(state: &State, reach: &Reach, bad: u32, mask: &Row) -> Result<Option<u32>, AllocError>
    requires len { length reach.now ≡ state.now.len }
    requires candidates { IsCandidateRow reach.now state.now.search.first_parent mask.now }
    requires mask { mask.now ≡ row_below reach.now (Some bad) state.now.search }
    ensures { IfOk result (λ best. best ≡ best_of reach.now state.now.search bad) }
{
    let alloc = state.goods.allocator();
    let weights = weights(alloc, reach, mask, state.first_parent)?;
    Ok(choose(mask, weights.as_slice(), bad, &state.skips))
}

/// The ask of a state whose check has passed.
fn ask_candidates(state: &State, reach: &Reach, bad: u32) -> Result<Ask, AllocError>
    requires len { length reach.now ≡ state.now.len }
    requires bad { state.now.search.bad ≡ Some bad }
    ensures { IfOk result (λ answer. answer ≡ steps.candidate_ask reach.now state.now.search bad) }
{
    let alloc = state.goods.allocator();
    let goods = state.goods.as_slice();
    let mask = candidates(alloc, reach, bad, goods, state.first_parent)?;
    let places = true_places(alloc, &mask)?;
    if let Some(ask) = ending(places.as_slice(), bad) {
        return Ok(ask);
    }
    let best = best(state, reach, bad, &mask)?;
    Ok(ask_of_best(places, best))
}

/// The ask of a state whose check has passed, over these candidates and their weights.
pub(crate) fn ask_over(
    state: &State,
    bad: u32,
    mask: &Row,
    weights: &[u32],
) -> Result<Ask, AllocError>
    requires len { length mask.now ≡ state.now.len }
    requires weights { length weights.now ≡ length mask.now }
    requires within { All (λ weight. weight ≤ count_in mask.now) weights.now }
    ensures { IfOk result (steps.IsAskOver mask.now weights.now bad state.now.search) }
{
    let places = true_places(state.goods.allocator(), mask)?;
    if let Some(ask) = ending(places.as_slice(), bad) {
        return Ok(ask);
    }
    Ok(ask_of_best(places, choose(mask, weights, bad, &state.skips)))
}

/// A step that asks this, with no base to warn of.
fn step_of(state: &State, ask: Ask) -> Step
    ensures { result ≡ record { warned = []; ask = ask } }
{
    Step {
        warned: Places::new(state.goods.allocator()),
        ask,
    }
}

/// What the check of the merge bases leaves to ask.
fn passage_of(state: &State, bad: u32, answer: Check) -> Passage
    requires bad { state.now.search.bad ≡ Some bad }
    requires goods { state.now.search.goods ≢ [] }
    requires unchecked { state.now.search.checked ≡ false }
    ensures { steps.IsPassageAfter state.now.search bad answer result }
{
    match answer {
        Check::Passed { warned } => Passage::Passed { warned, bad },
        Check::Bad(base) => Passage::Asks(step_of(state, ask_of_bad_base(base, state.bad_asked))),
        Check::Test(base) => Passage::Asks(step_of(state, Ask::Test(base))),
    }
}

fn ask_of_bad_base(base: u32, bad_asked: bool) -> Ask
    ensures { result ≡ (if bad_asked then Ask.MergeBaseBad base else Ask.GoodNotAncestor base) }
{
    if bad_asked {
        Ask::MergeBaseBad(base)
    } else {
        Ask::GoodNotAncestor(base)
    }
}

/// How far the next ask of a state goes without a look at its candidates.
pub(crate) fn pass(state: &State, reach: &Reach) -> Result<Passage, AllocError>
    requires { length reach.now ≡ state.now.len }
    ensures graph { IsGraph reach.now }
    ensures below { IsSearchBelow state.now.len state.now.search }
    ensures passes { IfOk result (steps.IsPassageOf reach.now state.now.search) }
{
    prove!(reach.len() == state.len);
    let Some(bad) = state.bad else {
        let ask = if state.goods.is_empty() {
            Ask::WaitBoth
        } else {
            Ask::WaitBad
        };
        return Ok(Passage::Asks(step_of(state, ask)));
    };
    if state.goods.is_empty() {
        return Ok(Passage::Asks(step_of(state, Ask::WaitGood)));
    }
    let alloc = state.goods.allocator();
    if state.checked {
        return Ok(Passage::Passed {
            warned: Places::new(alloc),
            bad,
        });
    }
    let answer = check(alloc, reach, bad, state.goods.as_slice(), &state.skips)?;
    Ok(passage_of(state, bad, answer))
}

/// What the next ask of a state leaves.
pub(crate) fn decide(state: &State, reach: &Reach) -> Result<Decision, AllocError>
    requires { length reach.now ≡ state.now.len }
    ensures graph { IsGraph reach.now }
    ensures below { IsSearchBelow state.now.len state.now.search }
    ensures decides { IfOk result (steps.IsDecisionOf reach.now state.now.search) }
{
    match pass(state, reach)? {
        Passage::Asks(step) => Ok(Decision {
            checked: state.checked,
            step,
        }),
        Passage::Passed { warned, bad } => {
            let ask = ask_candidates(state, reach, bad)?;
            Ok(Decision {
                checked: true,
                step: Step { warned, ask },
            })
        }
    }
}
