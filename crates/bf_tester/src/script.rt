//! A tester that follows a script: a plan, tests that fail, and a gate that shows that tests overlap.
ghost use Rattle.std.specs.Prelude.{◌≡◌, ℕ, ◌≤◌, ◌↔◌, ◌⊎◌, true, false, List, [], Some, None, All, IfOk, IsTrue};
ghost use Rattle.std.specs.Option.{is_some};
ghost use Rattle.bf_search.specs.declared.outcomes.Outcome.{Outcome};
ghost use Rattle.bf_tester.specs.declared.answer.Answer.{Answer};
ghost use Rattle.bf_tester.specs.Grounds.{Ground};
ghost use Rattle.bf_tester.specs.Plans.{is_letter, IsPlan};
ghost use Rattle.bf_tester.specs.Replies.{ReplyFollowsPlan, ReplyIsReadAs, DropsByOneLook};
ghost use Rattle.bf_tester.specs.Scripts.{IsRuleFor, is_to_fail, FailsByRule, PassesUngated};
ghost use Rattle.bf_tester.specs.Scripts.{told_by, scripted_after, failed_at, split_scripted};

use crate::answer::{Answer, TestReply};
use crate::host::Host;
use crate::notes::Notes;
use crate::plan::Plan;
use crate::stop::StopView;
use crate::tester::Tester;
use bf_io::Word;
use bf_oid::Oid;
use std::alloc::{AllocError, Global};
use std::marker::Model;
use std::sync::Arc;
use std::sync::atomic::{AtomicU64, Ordering};
use std::thread;

// The turns that a test waits at a gate.
const GATE_TURNS: u32 = 20_000_000;

/// Which testers a rule is for.
#[derive(Clone, Copy, Debug, PartialEq, Eq)]
pub enum Side {
    /// Those that were split off.
    Splits,
    /// All of them.
    All,
}

/// A rule by which each test of a place fails.
#[derive(Clone, Copy, Debug, PartialEq, Eq)]
pub struct FailRule {
    /// The place whose tests fail.
    pub place: u32,
    /// The testers whose tests of it fail.
    pub side: Side,
}

impl FailRule {
    fn is_for(&self, is_split: bool, place: u32) -> bool
        ensures { IsTrue result ↔ IsRuleFor self.now is_split place }
    {
        self.place == place && (is_split || self.side == Side::All)
    }
}

/// Counts tests, so that the first can wait until a second has begun. Testers share it.
#[derive(Drop)]
pub struct Gate {
    calls: AtomicU64,
}

impl Gate {
    /// A gate that has seen no test.
    pub fn new() -> Gate {
        Gate {
            calls: AtomicU64::new(0),
        }
    }

    /// Begins a test, and returns whether it may end. The first of all waits until a second one has begun,
    /// for at most 20,000,000 turns, each of which yields the thread.
    fn passes(&self) -> bool {
        if self.calls.fetch_add(1, Ordering::SeqCst) > 0 {
            return true;
        }
        for _ in 0..GATE_TURNS {
            if self.calls.load(Ordering::SeqCst) > 1 {
                return true;
            }
            thread::yield_now();
        }
        false
    }
}

/// A tester that answers a written plan, whose tests fail by given rules. With a gate, the first test of
/// all testers that share it ends only after a second one has begun, or fails.
///
/// Contracts see its plan, its rules, whether it has a gate, its notes and its faults.
#[derive(Drop)]
pub struct ScriptTester {
    alloc: Global,
    plan: Arc<Plan>,
    notes: Notes,
    fails: Vec<FailRule>,
    gate: Option<Arc<Gate>>,
    faults: u64,
    failed: Option<u32>,
}

impl Model for ScriptTester {
    ghost use Rattle.std.specs.Option.{is_some};
    ghost use Rattle.bf_tester.specs.Scripts.{Scripted};

    ghost Value = { Scripted };

    ghost view = { λ t. record {
      plan = t.plan.value;
      notes = t.notes;
      fails = t.fails.items;
      is_gated = is_some t.gate;
      faults = t.faults;
      failed = t.failed;
    } };
}

impl ScriptTester {
    /// A tester of the plan that these letters write, with no command and no answers. It tells the plan.
    pub fn new(
        alloc: Global,
        letters: &[u8],
        fails: Vec<FailRule>,
        gate: Option<Arc<Gate>>,
    ) -> Result<ScriptTester, AllocError>
        requires { All (λ letter. IsTrue (is_letter letter)) letters.now }
        ensures told { IfOk result (λ t. IsPlan (⟦<ScriptTester as Tester>⟧.told t) letters.now) }
        ensures answers { IfOk result (λ t. ⟦<ScriptTester as Tester>⟧.answers t ≡ []) }
        ensures command { IfOk result (λ t. ⟦<ScriptTester as Tester>⟧.command t ≡ []) }
        ensures is_split { IfOk result (λ t. ⟦<ScriptTester as Tester>⟧.is_split t ≡ false) }
        ensures is_lenient { IfOk result (λ t. ⟦<ScriptTester as Tester>⟧.is_lenient t ≡ false) }
        ensures faults { IfOk result (λ t. (t.faults ≡ 0) × (t.failed ≡ None)) }
        ensures fails { IfOk result (λ t. t.fails ≡ fails.items) }
        ensures gate { IfOk result (λ t. t.is_gated ≡ is_some gate) }
    {
        Ok(ScriptTester {
            alloc,
            plan: Arc::new(alloc, Plan::read(alloc, letters)?)?,
            notes: Notes::new(alloc),
            fails,
            gate,
            faults: 0,
            failed: None,
        })
    }

    /// Whether each test of this place fails.
    fn fails_at(&self, place: u32) -> bool
        ensures { result ≡ is_to_fail self.now place }
    {
        let is_split = self.notes.is_split();
        self.fails.iter().any(|rule| rule.is_for(is_split, place))
    }

    /// Begins a test at the gate, where there is one.
    fn passes_gate(&self) -> bool
        ensures { self.now.is_gated ≡ false → result ≡ true }
    {
        match &self.gate {
            Some(gate) => gate.passes(),
            None => true,
        }
    }

    /// Counts a test of this place that failed.
    fn fail(&mut self, place: u32) -> TestReply
        ensures reply { result ≡ TestReply.Failed }
        ensures later { self.old.faults ≤ self.new.faults }
        ensures counted { self.new ≡ failed_at self.old place }
    {
        self.faults = self.faults.saturating_add(1);
        self.failed = Some(place);
        TestReply::Failed
    }
}

impl Tester for ScriptTester {
    ghost told = { λ t. told_by t.notes t.plan };

    ghost command = { λ t. t.notes.command };

    ghost answers = { λ t. t.notes.answers };

    ghost faults = { λ t. t.faults };

    ghost failed = { λ t. t.failed };

    ghost is_split = { λ t. t.notes.is_split };

    ghost is_lenient = { λ t. t.notes.is_lenient };

    ghost grounds = { λ _. [] };

    ghost recalled = { λ _. [] };

    #[tactic(auto, using(crate::proofs::Reading::prepares_told))]
    fn prepare(&mut self, words: &[Word], lenient: bool) -> Result<(), AllocError> {
        self.notes.prepare(words, lenient)
    }

    /// Looks at the flag once, and is dropped exactly where that look finds it raised. Then it fails where
    /// a rule says so or the gate was not passed, and otherwise it adds the answer of the plan.
    fn test<R: Host>(
        &mut self,
        _rt: &R,
        place: u32,
        name: Oid,
        stop: &mut StopView<'_>,
    ) -> TestReply
        ensures looked { DropsByOneLook stop.old stop.new result }
        ensures fails { FailsByRule self.old place result }
        ensures passes { PassesUngated self.old place result }
        ensures planned { ReplyFollowsPlan (told_by self.old.notes self.old.plan) place result }
        ensures read { ReplyIsReadAs self.old.notes.is_lenient result }
        ensures noted { self.new ≡ scripted_after self.old result place name }
        ensures later { self.old.faults ≤ self.new.faults }
    {
        if stop.raised() {
            return TestReply::Dropped;
        }
        let passed = self.passes_gate();
        if !passed || self.fails_at(place) {
            return self.fail(place);
        }
        let outcome = self.plan.outcome(place, self.notes.is_lenient());
        self.notes.done(place, name, outcome)
    }

    /// A tester of the same script and command behind the same gate, with no answers and no faults. The plan is
    /// shared, and nothing of it is copied.
    fn split(&self) -> Result<ScriptTester, AllocError>
        ensures { IfOk result (λ t. t ≡ split_scripted self.now) }
    {
        Ok(ScriptTester {
            alloc: self.alloc,
            plan: self.plan.clone()?,
            notes: self.notes.split()?,
            fails: Vec::from_slice(self.alloc, self.fails.as_slice())?,
            gate: match &self.gate {
                Some(gate) => Some(Arc::try_clone(gate)?),
                None => None,
            },
            faults: 0,
            failed: None,
        })
    }

    fn absorb(&mut self, other: ScriptTester) -> Result<(), ScriptTester> {
        let ScriptTester {
            alloc,
            plan,
            notes,
            fails,
            gate,
            faults,
            failed,
        } = other;
        match self.notes.absorb(notes) {
            Ok(()) => Ok(()),
            Err(notes) => Err(ScriptTester {
                alloc,
                plan,
                notes,
                fails,
                gate,
                faults,
                failed,
            }),
        }
    }

    fn answer(&self, index: usize) -> Option<Answer> {
        self.notes.answer(index)
    }
}
