//! The state of a search.
ghost use Rattle.std.specs.Prelude.{◌≡◌, ◌≢◌, ℕ, ◌<◌, true, false, length, Some, None, All, IfSome, IfOk, OnOk, OnErr};
ghost use Rattle.bf_graph.specs.Graph.{IsGraph};
ghost use Rattle.bf_terms.specs.Texts.{with_good};
ghost use Rattle.bf_search.specs.Bases.{has_place};
ghost use Rattle.bf_search.specs.State as searches;
ghost use Rattle.bf_search.specs.declared.asks.Ask.TheVariants.{Test};
ghost use Rattle.bf_state.specs.Session.{after_ask, asked_step, bases_warned_of, after_mark, after_take, IsNewSession, IsSearchBelow};
ghost use Rattle.bf_state.specs.FirstBad.{TellsFirstBad};
ghost use Rattle.bf_state.specs.Settled.{is_settled};
ghost use Rattle.bf_state.specs.Steps as steps;
ghost use Rattle.bf_state.specs.Ranked.{IsRankingOf, AreSkipped};
ghost use Rattle.bf_state.specs.Weighed.{mask_of, weights_of, AreNeeded};

use crate::asking::{Decision, decide, pass, passed_after, tested, warned_after};
use crate::ranked::{self, Ranked, RankedDecision, decide_ranked};
use crate::weighed::{self, Weighed, Weighing, decide_over};
use bf_choice::Ranking;
use bf_goods::Goods;
use bf_graph::Places;
use bf_reach::{Reach, Row};
use bf_search::{Mark, Step};
use bf_terms::Terms;
use std::alloc::{AllocError, Global};
use std::marker::Model;

/// What a search knows of the commits of a graph: its ends, the skipped ones, and what was asked last.
///
/// The places are below `len`, the good ones stand in the order in which they were marked, each once,
/// and `skips` has a truth value for each commit. Contracts see the search with `len` and the terms.
pub struct State {
    /// The number of commits.
    pub len: u32,
    /// The words for the two sides.
    pub terms: Terms,
    /// Whether the first mark may still choose the terms.
    pub terms_open: bool,
    /// Whether the bad side follows first parents alone.
    pub first_parent: bool,
    /// The bad place.
    pub bad: Option<u32>,
    /// The good places.
    pub goods: Goods,
    /// By place, whether it is skipped.
    pub skips: Row,
    /// Whether the check of the merge bases has passed.
    pub checked: bool,
    /// The place that was asked last, where it was not marked since.
    pub expected: Option<u32>,
    /// Whether the last good or bad mark said that the place that was asked is bad.
    pub bad_asked: bool,
}

/// Written out, so that it is proved once: what is derived is proved anew on each way out of each function
/// that has a state.
impl Drop for State {
    fn drop(self) {
        let State {
            len: _,
            terms: _,
            terms_open: _,
            first_parent: _,
            bad: _,
            goods: _,
            skips: _,
            checked: _,
            expected: _,
            bad_asked: _,
        } = self;
    }
}

impl Model for State {
    ghost use Rattle.bf_state.specs.Session.{Session, IsSearchBelow};

    ghost Value = { Session };

    ghost view = { λ s. record {
      len = s.len;
      terms = s.terms;
      terms_open = s.terms_open;
      search = record {
        first_parent = s.first_parent;
        bad = s.bad;
        goods = s.goods;
        skips = s.skips;
        checked = s.checked;
        expected = s.expected;
        bad_asked = s.bad_asked;
      };
    } };

    ghost invariant = { λ s. IsSearchBelow s.len (record {
      first_parent = s.first_parent;
      bad = s.bad;
      goods = s.goods;
      skips = s.skips;
      checked = s.checked;
      expected = s.expected;
      bad_asked = s.bad_asked;
    }) };
}

impl State {
    /// A search with these ends, of which nothing was asked yet. Of equal good places the first is kept.
    pub fn new(
        alloc: Global,
        len: u32,
        terms: Terms,
        terms_open: bool,
        first_parent: bool,
        bad: Option<u32>,
        goods: &[u32],
    ) -> Result<State, AllocError>
        requires bad { IfSome bad (λ bad. bad < len) }
        requires goods { All (λ good. good < len) goods.now }
        ensures { IfOk result (IsNewSession len terms terms_open first_parent bad goods.now) }
    {
        let goods = Goods::each_once(alloc, goods)?;
        let skips = Row::new(alloc, len)?;
        Ok(State {
            len,
            terms,
            terms_open,
            first_parent,
            bad,
            goods,
            skips,
            checked: false,
            expected: None,
            bad_asked: false,
        })
    }

    /// The number of commits.
    pub fn len(&self) -> u32
        ensures len { result ≡ self.now.len }
        ensures below { IsSearchBelow self.now.len self.now.search }
    {
        self.len
    }

    /// An equal state.
    pub fn try_clone(&self) -> Result<State, AllocError>
        ensures { IfOk result (λ copy. copy ≡ self.now) }
    {
        Ok(State {
            len: self.len,
            terms: self.terms.try_clone()?,
            terms_open: self.terms_open,
            first_parent: self.first_parent,
            bad: self.bad,
            goods: self.goods.try_clone()?,
            skips: self.skips.try_clone()?,
            checked: self.checked,
            expected: self.expected,
            bad_asked: self.bad_asked,
        })
    }

    /// Asks what comes next, over the reach of a graph of `len` commits. While no check of the merge
    /// bases has passed, one is made. After an error the state is as before.
    pub fn advance(&mut self, reach: &Reach) -> Result<Step, AllocError>
        requires { length reach.now ≡ self.old.len }
        ensures step { IfOk result (λ step. step ≡ asked_step reach.now self.old) }
        ensures state { OnOk result (self.new ≡ after_ask reach.now self.old) }
        ensures err { OnErr result (self.new ≡ self.old) }
        ensures asked { IfOk result (λ step. (p : ℕ) → step.ask ≡ Test p → p < self.old.len) }
        ensures warned { IfOk result (λ step. All (λ p. p < self.old.len) step.warned) }
        ensures first_bad { IfOk result (TellsFirstBad reach.now self.old.search) }
    {
        let decision = decide(self, reach)?;
        self.follow(&decision);
        Ok(decision.step)
    }

    /// Asks what comes next, and hands out the candidates and the weights that the ask has in hand.
    /// After an error the state is as before.
    pub fn weigh(&mut self, reach: &Reach) -> Result<Weighed, AllocError>
        requires { length reach.now ≡ self.old.len }
        ensures step { IfOk result (λ weighed. weighed.step ≡ asked_step reach.now self.old) }
        ensures mask { IfOk result (λ weighed. weighed.mask ≡ mask_of reach.now self.old.search) }
        ensures weights { IfOk result (λ weighed. AreNeeded reach.now self.old weighed.weights) }
        ensures state { OnOk result (self.new ≡ after_ask reach.now self.old) }
        ensures err { OnErr result (self.new ≡ self.old) }
    {
        let mask = weighed::mask_of(self, reach)?;
        self.weigh_over(reach, mask)
    }

    /// The same, where the candidates are known. After an error the state is as before.
    pub fn weigh_over(&mut self, reach: &Reach, mask: Row) -> Result<Weighed, AllocError>
        requires len { length reach.now ≡ self.old.len }
        requires mask { mask ≡ mask_of reach.now self.old.search }
        ensures step { IfOk result (λ weighed. weighed.step ≡ asked_step reach.now self.old) }
        ensures mask { IfOk result (λ weighed. weighed.mask ≡ mask_of reach.now self.old.search) }
        ensures weights { IfOk result (λ weighed. AreNeeded reach.now self.old weighed.weights) }
        ensures state { OnOk result (self.new ≡ after_ask reach.now self.old) }
        ensures err { OnErr result (self.new ≡ self.old) }
    {
        let Weighing { decision, weights } = weighed::weigh(self, reach, &mask)?;
        self.follow(&decision);
        Ok(Weighed {
            step: decision.step,
            mask,
            weights,
        })
    }

    /// Asks what comes next, where the candidates and their weights are known: they are not weighed
    /// again. After an error the state is as before.
    pub fn advance_over(
        &mut self,
        reach: &Reach,
        mask: &Row,
        weights: &[u32],
    ) -> Result<Step, AllocError>
        requires len { length reach.now ≡ self.old.len }
        requires mask { mask.now ≡ mask_of reach.now self.old.search }
        requires weights { weights.now ≡ weights_of reach.now self.old.search }
        ensures step { IfOk result (λ step. step ≡ asked_step reach.now self.old) }
        ensures state { OnOk result (self.new ≡ after_ask reach.now self.old) }
        ensures err { OnErr result (self.new ≡ self.old) }
    {
        let decision = decide_over(self, reach, mask, weights)?;
        self.follow(&decision);
        Ok(decision.step)
    }

    /// Ranks the candidates, where there is a bad place.
    pub fn rank(&self, reach: &Reach, bad: u32, mask: &Row) -> Result<Ranking, AllocError>
        requires len { length reach.now ≡ self.now.len }
        requires bad { self.now.search.bad ≡ Some bad }
        requires mask { mask.now ≡ mask_of reach.now self.now.search }
        ensures { IfOk result (IsRankingOf reach.now self.now.search) }
    {
        ranked::rank(self, reach, bad, mask)
    }

    /// Asks what comes next over a ranking of the candidates, of which so many of the first are skipped:
    /// no candidate before them is looked at, and none after the place that is asked. It also returns how
    /// many are skipped then. After an error the state is as before.
    pub fn advance_ranked(
        &mut self,
        reach: &Reach,
        mask: &Row,
        ranking: &Ranking,
        passed: usize,
    ) -> Result<Ranked, AllocError>
        requires len { length reach.now ≡ self.old.len }
        requires mask { mask.now ≡ mask_of reach.now self.old.search }
        requires ranking { IsRankingOf reach.now self.old.search ranking.now }
        requires passed { AreSkipped self.old ranking.now passed }
        ensures step { IfOk result (λ ranked. ranked.step ≡ asked_step reach.now self.old) }
        ensures state { OnOk result (self.new ≡ after_ask reach.now self.old) }
        ensures passed { IfOk result (λ ranked. AreSkipped self.old ranking.now ranked.passed) }
        ensures err { OnErr result (self.new ≡ self.old) }
    {
        let RankedDecision { decision, passed } = decide_ranked(
            self, reach, mask, ranking, passed,
        )?;
        self.follow(&decision);
        Ok(Ranked {
            step: decision.step,
            passed,
        })
    }

    /// Marks a place. After an error the state is as before.
    pub fn mark(&mut self, mark: Mark, place: u32) -> Result<(), AllocError>
        requires { place < self.old.len }
        ensures ok { OnOk result (self.new ≡ after_mark self.old mark place) }
        ensures err { OnErr result (self.new ≡ self.old) }
    {
        self.add_if_good(mark, place)?;
        self.settle(mark, place);
        Ok(())
    }

    /// Asks what comes next and then marks a place, whatever was asked. It returns the skipped merge bases
    /// to warn of, by place. After an error the state is as before.
    pub fn take(&mut self, reach: &Reach, mark: Mark, place: u32) -> Result<Vec<u32>, AllocError>
        requires len { length reach.now ≡ self.old.len }
        requires place { place < self.old.len }
        ensures warned { IfOk result (λ warned. warned.items ≡ bases_warned_of reach.now self.old) }
        ensures state { OnOk result (self.new ≡ after_take reach.now self.old mark place) }
        ensures err { OnErr result (self.new ≡ self.old) }
    {
        if let Mark::Skip = mark {
            return self.take_skip(reach, place);
        }
        if self.is_settled(place) {
            return self.take_settled(reach, mark, place);
        }
        let decision = decide(self, reach)?;
        self.add_if_good(mark, place)?;
        self.follow(&decision);
        self.settle(mark, place);
        Ok(decision.step.warned.into_vec())
    }

    /// Asks what comes next and then skips a place. Whatever the ask would choose plays no part then, so
    /// no candidate is looked at.
    fn take_skip(&mut self, reach: &Reach, place: u32) -> Result<Vec<u32>, AllocError>
        requires len { length reach.now ≡ self.old.len }
        requires place { place < self.old.len }
        ensures warned { IfOk result (λ warned. warned.items ≡ bases_warned_of reach.now self.old) }
        ensures state { OnOk result (self.new ≡ after_take reach.now self.old Mark.Skip place) }
        ensures err { OnErr result (self.new ≡ self.old) }
    {
        let passage = pass(self, reach)?;
        self.checked = passed_after(self.checked, &passage);
        self.settle(Mark::Skip, place);
        Ok(warned_after(passage).into_vec())
    }

    /// Asks what comes next and then marks a place that no ask tests. The ask plays no part then, but for
    /// the bases that it warns of, so no candidate is looked at.
    fn take_settled(
        &mut self,
        reach: &Reach,
        mark: Mark,
        place: u32,
    ) -> Result<Vec<u32>, AllocError>
        requires len { length reach.now ≡ self.old.len }
        requires place { place < self.old.len }
        requires settled { is_settled self.old.search place ≡ true }
        requires sided { mark ≢ Mark.Skip }
        ensures warned { IfOk result (λ warned. warned.items ≡ bases_warned_of reach.now self.old) }
        ensures state { OnOk result (self.new ≡ after_take reach.now self.old mark place) }
        ensures err { OnErr result (self.new ≡ self.old) }
    {
        let warned = self.bases_to_warn_of(reach)?;
        self.add_if_good(mark, place)?;
        self.expected = None;
        self.settle(mark, place);
        Ok(warned)
    }

    /// The skipped merge bases that the next ask warns of. Where no place is skipped there are none.
    fn bases_to_warn_of(&self, reach: &Reach) -> Result<Vec<u32>, AllocError>
        requires { length reach.now ≡ self.now.len }
        ensures graph { IsGraph reach.now }
        ensures warned { IfOk result (λ warned. warned.items ≡ bases_warned_of reach.now self.now) }
    {
        prove!(reach.len() == self.len);
        if self.skips.first().is_none() {
            return Ok(Vec::new(self.goods.allocator()));
        }
        let passage = pass(self, reach)?;
        Ok(warned_after(passage).into_vec())
    }

    /// Whether a place is good, bad or skipped, so that no ask tests it.
    fn is_settled(&self, place: u32) -> bool
        requires { place < self.now.len }
        ensures { result ≡ is_settled self.now.search place }
    {
        self.goods.has(place) || is_place(self.bad, place) || self.skips.get(place)
    }

    /// Adds a place that is marked good. After an error the state is as before.
    fn add_if_good(&mut self, mark: Mark, place: u32) -> Result<(), AllocError>
        requires { place < self.old.len }
        ensures ok { OnOk result (self.new ≡ steps.added_if_good self.old mark place) }
        ensures err { OnErr result (self.new ≡ self.old) }
    {
        match mark {
            Mark::Good => self.goods.add(place),
            Mark::Bad | Mark::Skip => Ok(()),
        }
    }

    /// Keeps what an ask leaves.
    fn follow(&mut self, decision: &Decision)
        requires { IfSome (steps.tested decision.now.step.ask) (λ p. p < self.old.len) }
        ensures { self.new ≡ steps.after_decision self.old decision.now }
    {
        self.checked = decision.checked;
        self.expected = tested(&decision.step.ask);
    }

    /// Marks a place, which is among the good ones if it is marked good.
    fn settle(&mut self, mark: Mark, place: u32)
        requires place { place < self.old.len }
        requires added { mark ≡ Mark.Good → has_place self.old.search.goods place ≡ true }
        ensures { self.new ≡ after_mark self.old mark place }
    {
        let asked = is_place(self.expected, place);
        match mark {
            Mark::Good => {
                self.checked &= asked;
                self.bad_asked = false;
            }
            Mark::Bad => {
                self.bad = Some(place);
                self.checked &= asked;
                self.bad_asked = asked;
            }
            Mark::Skip => self.skips.set(place, true),
        }
        self.expected = None;
    }
}

fn is_place(found: Option<u32>, place: u32) -> bool
    ensures { result ≡ searches.is_place found place }
{
    match found {
        Some(other) => other == place,
        None => false,
    }
}
