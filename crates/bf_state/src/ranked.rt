//! Asks over a ranking of the candidates, which skips leave as it is.
ghost use Rattle.std.specs.Prelude.{◌≡◌, ◌<◌, Some, length, All, IfOk};
ghost use Rattle.bf_graph.specs.Graph.{IsGraph};
ghost use Rattle.bf_state.specs.Ranked.{IsRankingOf, AreSkipped, IsAskRanked, ask_of_choice};
ghost use Rattle.bf_state.specs.Session.{IsSearchBelow};
ghost use Rattle.bf_state.specs.Steps as steps;
ghost use Rattle.bf_state.specs.Weighed.{mask_of};

use crate::asking::{Decision, Passage, ending, pass};
use crate::state::State;
use crate::weighed::weights_of;
use bf_choice::Ranking;
use bf_reach::{Reach, Row, true_places};
use bf_search::{Ask, Step};
use std::alloc::AllocError;

/// One step of a search over a ranking of its candidates.
#[derive(Drop)]
pub struct Ranked {
    /// What was asked.
    pub step: Step,
    /// How many of the ranking are skipped before the place that was asked, or in all where none was.
    pub passed: usize,
}

/// What an ask leaves, and how many of the ranking are skipped.
#[derive(Drop)]
pub(crate) struct RankedDecision {
    pub(crate) decision: Decision,
    pub(crate) passed: usize,
}

/// The ranking of the candidates of a state.
pub(crate) fn rank(
    state: &State,
    reach: &Reach,
    bad: u32,
    mask: &Row,
) -> Result<Ranking, AllocError>
    requires len { length reach.now ≡ state.now.len }
    requires bad { state.now.search.bad ≡ Some bad }
    requires mask { mask.now ≡ mask_of reach.now state.now.search }
    ensures { IfOk result (IsRankingOf reach.now state.now.search) }
{
    let weights = weights_of(state, reach, bad, mask)?;
    Ranking::new(state.goods.allocator(), mask, weights.as_slice(), bad)
}

/// The ask among candidates of which this one is the best, or none may be asked.
fn ask_of_choice(
    state: &State,
    bad: u32,
    mask: &Row,
    choice: Option<u32>,
) -> Result<Ask, AllocError>
    ensures { IfOk result (λ answer. answer ≡ ask_of_choice mask.now bad choice) }
{
    if let Some(place) = choice {
        return Ok(Ask::Test(place));
    }
    let places = true_places(state.goods.allocator(), mask)?;
    match ending(places.as_slice(), bad) {
        Some(ask) => Ok(ask),
        None => Ok(Ask::OnlySkipped(places)),
    }
}

/// The ask of a state whose check has passed, over a ranking of its candidates of which so many are
/// skipped, and how many are then.
fn ask_ranked(
    state: &State,
    bad: u32,
    mask: &Row,
    ranking: &Ranking,
    passed: usize,
) -> Result<(Ask, usize), AllocError>
    requires within { All (λ p. p < length state.now.search.skips) ranking.now }
    requires passed { AreSkipped state.now ranking.now passed }
    ensures answer { IfOk result (λ found. IsAskRanked mask.now ranking.now bad state.now found.0) }
    ensures passed { IfOk result (λ found. AreSkipped state.now ranking.now found.1) }
{
    let chosen = ranking.choose(&state.skips, passed);
    let ask = ask_of_choice(state, bad, mask, chosen.place)?;
    Ok((ask, chosen.passed))
}

/// The next ask of a state over the ranking of its candidates.
pub(crate) fn decide_ranked(
    state: &State,
    reach: &Reach,
    mask: &Row,
    ranking: &Ranking,
    passed: usize,
) -> Result<RankedDecision, AllocError>
    requires len { length reach.now ≡ state.now.len }
    requires mask { mask.now ≡ mask_of reach.now state.now.search }
    requires ranking { IsRankingOf reach.now state.now.search ranking.now }
    requires passed { AreSkipped state.now ranking.now passed }
    ensures graph { IsGraph reach.now }
    ensures below { IsSearchBelow state.now.len state.now.search }
    ensures decides { IfOk result (λ d. steps.IsDecisionOf reach.now state.now.search d.decision) }
    ensures passed { IfOk result (λ d. AreSkipped state.now ranking.now d.passed) }
{
    match pass(state, reach)? {
        Passage::Asks(step) => Ok(RankedDecision {
            decision: Decision {
                checked: state.checked,
                step,
            },
            passed,
        }),
        Passage::Passed { warned, bad } => {
            let (ask, passed) = ask_ranked(state, bad, mask, ranking, passed)?;
            Ok(RankedDecision {
                decision: Decision {
                    checked: true,
                    step: Step { warned, ask },
                },
                passed,
            })
        }
    }
}
