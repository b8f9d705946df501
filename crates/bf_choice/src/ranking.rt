//! The candidates in the order in which they are chosen.
ghost use Rattle.std.specs.Prelude.{◌≡◌, ◌+◌, ◌^◌, ◌≤◌, ◌<◌, length, IfOk, IfSome, IfNone};
ghost use Rattle.std.specs.List.{All};
ghost use Rattle.bf_search.specs.Choice.{count_in};
ghost use Rattle.bf_choice.specs.Ranking.{IsRanking, IsPassed, StandsAt, IsBestRanked, IsOtherRanked, AreAllRanks};

use crate::choosing::value_of_weight;
use bf_reach::Row;
use std::alloc::{AllocError, Global};
use std::marker::Model;

/// How many candidates the test of a place may leave, beside the place: fewer are better, and among equals
/// the earlier place.
#[derive(Clone, Copy, PartialEq, Eq, PartialOrd, Ord)]
struct Rank {
    left: u32,
    place: u32,
}

/// The candidates but the bad one, in the order in which they are chosen. Contracts see their list.
#[derive(Drop)]
pub struct Ranking {
    ranks: Vec<Rank>,
}

impl Model for Ranking {
    ghost use Rattle.std.specs.Prelude.{List, ℕ, map};

    ghost Value = { List ℕ };

    ghost view = { λ ranking. map (λ rank. rank.place) ranking.ranks.items };
}

/// A choice in a ranking.
#[derive(Clone, Copy)]
pub struct Chosen {
    /// The place that is chosen, if there is one.
    pub place: Option<u32>,
    /// How many of the ranking stand before it.
    pub passed: usize,
}

impl Ranking {
    /// Ranks the candidates. They are the true places of `mask`, and `weights` has for each of them how
    /// many of them it reaches.
    pub fn new(alloc: Global, mask: &Row, weights: &[u32], bad: u32) -> Result<Ranking, AllocError>
        requires weight_each { length weights.now ≡ length mask.now }
        requires within { All (λ weight. weight ≤ count_in mask.now) weights.now }
        ensures { IfOk result (IsRanking mask.now weights.now bad) }
    {
        let mut ranks = ranks(alloc, mask, weights, bad)?;
        ranks.sort_unstable();
        Ok(Ranking { ranks })
    }

    /// The best candidate that is not skipped, where so many of the first are known to be skipped. It
    /// looks at no candidate before them, and at none after the best.
    pub fn choose(&self, skips: &Row, passed: usize) -> Chosen
        requires within { All (λ p. p < length skips.now) self.now }
        requires passed { IsPassed skips.now self.now passed }
        ensures best { IsBestRanked self.now skips.now result.place }
        ensures other { IsOtherRanked self.now result.place }
        ensures passed { IsPassed skips.now self.now result.passed }
    {
        let mut at = passed;
        while let Some(place) = self.place_at(at) {
            if !skips.get(place) {
                return Chosen {
                    place: Some(place),
                    passed: at,
                };
            }
            at += 1;
        }
        Chosen {
            place: None,
            passed: at,
        }
    }

    /// The place that stands there in the order.
    fn place_at(&self, at: usize) -> Option<u32>
        ensures some { IfSome result (StandsAt self.now at) }
        ensures none { IfNone result (length self.now ≤ at) }
        ensures can_go_on { IfSome result (λ _. at + 1 < 2 ^ 64) }
    {
        match self.ranks.get(at) {
            Some(rank) => Some(rank.place),
            None => None,
        }
    }
}

/// The ranks of the candidates but the bad one, by place.
fn ranks(alloc: Global, mask: &Row, weights: &[u32], bad: u32) -> Result<Vec<Rank>, AllocError>
    requires weight_each { length weights.now ≡ length mask.now }
    requires within { All (λ weight. weight ≤ count_in mask.now) weights.now }
    ensures { IfOk result (λ ranks. AreAllRanks mask.now weights.now bad ranks.items) }
{
    let count = mask.count();
    let mut ranks = Vec::new(alloc);
    let mut from = 0;
    while let Some(place) = mask.next_from(from) {
        if place != bad {
            let value = value_of_weight(count, weights[place as usize]);
            ranks.push(Rank {
                left: count - value,
                place,
            })?;
        }
        from = place + 1;
    }
    Ok(ranks)
}
