//! A tester that answers a written plan.
ghost use Rattle.std.specs.Prelude.{◌≡◌, ℕ, ◌≤◌, ◌↔◌, ◌≢◌, true, false, List, [], Some, None, All, IfOk, IsTrue};
ghost use Rattle.bf_io.specs.Causes.{Rose};
ghost use Rattle.bf_search.specs.declared.outcomes.Outcome.{Outcome};
ghost use Rattle.bf_tester.specs.declared.answer.Answer.{Answer};
ghost use Rattle.bf_tester.specs.Grounds.{Ground};
ghost use Rattle.bf_tester.specs.Plans.{is_letter, IsPlan};
ghost use Rattle.bf_tester.specs.Replies.{ReplyFollowsPlan, ReplyIsReadAs, DropsByOneLook, is_failed};
ghost use Rattle.bf_tester.specs.Scripts.{told_by, planned_after, split_planned};

use crate::answer::{Answer, TestReply};
use crate::host::Host;
use crate::notes::Notes;
use crate::plan::Plan;
use crate::stop::StopView;
use crate::tester::Tester;
use bf_io::Word;
use bf_oid::Oid;
use std::alloc::{AllocError, Global};
use std::marker::Model;
use std::sync::Arc;

/// A tester that answers a written plan and never fails. Contracts see the plan and the notes.
#[derive(Drop)]
pub struct PlanTester {
    alloc: Global,
    plan: Arc<Plan>,
    notes: Notes,
}

impl Model for PlanTester {
    ghost use Rattle.bf_tester.specs.Scripts.{Planned};

    ghost Value = { Planned };

    ghost view = { λ t. record { plan = t.plan.value; notes = t.notes } };
}

impl PlanTester {
    /// A tester of the plan that these letters write, with no command and no answers. It tells the plan.
    pub fn new(alloc: Global, letters: &[u8]) -> Result<PlanTester, AllocError>
        requires { All (λ letter. IsTrue (is_letter letter)) letters.now }
        ensures told { IfOk result (λ t. IsPlan (⟦<PlanTester as Tester>⟧.told t) letters.now) }
        ensures answers { IfOk result (λ t. ⟦<PlanTester as Tester>⟧.answers t ≡ []) }
        ensures command { IfOk result (λ t. ⟦<PlanTester as Tester>⟧.command t ≡ []) }
        ensures is_split { IfOk result (λ t. ⟦<PlanTester as Tester>⟧.is_split t ≡ false) }
        ensures is_lenient { IfOk result (λ t. ⟦<PlanTester as Tester>⟧.is_lenient t ≡ false) }
    {
        Ok(PlanTester {
            alloc,
            plan: Arc::new(alloc, Plan::read(alloc, letters)?)?,
            notes: Notes::new(alloc),
        })
    }
}

impl Tester for PlanTester {
    ghost told = { λ t. told_by t.notes t.plan };

    ghost command = { λ t. t.notes.command };

    ghost answers = { λ t. t.notes.answers };

    ghost faults = { λ _. 0 };

    ghost failed = { λ _. None };

    ghost is_split = { λ t. t.notes.is_split };

    ghost is_lenient = { λ t. t.notes.is_lenient };

    ghost grounds = { λ _. [] };

    ghost recalled = { λ _. [] };

    #[tactic(auto, using(crate::proofs::Reading::prepares_told))]
    fn prepare(&mut self, words: &[Word], lenient: bool) -> Result<(), AllocError> {
        self.notes.prepare(words, lenient)
    }

    /// Looks at the flag once, and is dropped exactly where that look finds it raised. Otherwise it adds
    /// the answer of the plan.
    fn test<R: Host>(
        &mut self,
        _rt: &R,
        place: u32,
        name: Oid,
        stop: &mut StopView<'_>,
    ) -> TestReply
        ensures looked { DropsByOneLook stop.old stop.new result }
        ensures never_fails { is_failed result ≡ false }
        ensures planned { ReplyFollowsPlan (told_by self.old.notes self.old.plan) place result }
        ensures read { ReplyIsReadAs self.old.notes.is_lenient result }
        ensures noted { self.new ≡ planned_after self.old result place name }
    {
        if stop.raised() {
            return TestReply::Dropped;
        }
        let outcome = self.plan.outcome(place, self.notes.is_lenient());
        self.notes.done(place, name, outcome)
    }

    /// A tester of the same plan and command, with no answers. The plan is shared, and nothing of it is copied.
    fn split(&self) -> Result<PlanTester, AllocError>
        ensures { IfOk result (λ t. t ≡ split_planned self.now) }
    {
        Ok(PlanTester {
            alloc: self.alloc,
            plan: self.plan.clone()?,
            notes: self.notes.split()?,
        })
    }

    fn absorb(&mut self, other: PlanTester) -> Result<(), PlanTester> {
        let PlanTester { alloc, plan, notes } = other;
        match self.notes.absorb(notes) {
            Ok(()) => Ok(()),
            Err(notes) => Err(PlanTester { alloc, plan, notes }),
        }
    }

    fn answer(&self, index: usize) -> Option<Answer> {
        self.notes.answer(index)
    }
}
