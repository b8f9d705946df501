//! The trait of what tests commits.
ghost use Rattle.std.specs.Prelude.{◌≡◌, ℕ, ◌≤◌, Bool, true, ◌||◌, List, [], ◌++◌, Option, None, IfOk, OnOk, OnErr, IfErr};
ghost use Rattle.std.specs.List.{slice_get};
ghost use Rattle.bf_io.specs.Causes.{Rose};
ghost use Rattle.bf_search.specs.declared.outcomes.Outcome.{Outcome};
ghost use Rattle.bf_tester.specs.declared.answer.Answer.{Answer};
ghost use Rattle.bf_tester.specs.Grounds.{Ground};
ghost use Rattle.bf_tester.specs.Looks.{SawRaised};
ghost use Rattle.bf_tester.specs.Plans.{PreparesTold};
ghost use Rattle.bf_tester.specs.Replies.{answers_after, failed_after, ReplyFollowsPlan, ReplyIsReadAs};

use crate::answer::{Answer, TestReply};
use crate::host::Host;
use crate::stop::StopView;
use bf_io::Word;
use bf_oid::Oid;
use std::alloc::AllocError;

/// What tests commits. Its answers only grow, they are the plan's where a plan is told, and its count of
/// faults rises where a test fails.
pub trait Tester: Send + Drop + Sized {
    // The outcomes by place that the tester answers, where it tells them. Past their end it answers a skip.
    ghost told: { Self → Option (List Outcome) };

    // The words of the command.
    ghost command: { Self → List (List ℕ) };

    // All answers, the oldest first.
    ghost answers: { Self → List Answer };

    // The count of faults, up to the last value of 64 bits.
    ghost faults: { Self → ℕ };

    // The place of the latest test that failed.
    ghost failed: { Self → Option ℕ };

    // Whether `split` made the tester.
    ghost is_split: { Self → Bool };

    // Whether outcomes are read leniently: status 126 and 127 as status 1.
    ghost is_lenient: { Self → Bool };

    // By place, the content that commits are tested in.
    ghost grounds: { Self → List Ground };

    // Answers that were given earlier, and stand in for a test.
    ghost recalled: { Self → List Answer };

    /// Takes the words of a command, and where `lenient` is true reads outcomes leniently from now on. A
    /// tester that told no plan may then tell one. After want of memory all is as before.
    fn prepare(&mut self, words: &[Word], lenient: bool) -> Result<(), AllocError>
        requires { answers self.old ≡ [] }
        ensures command { OnOk result (command self.new ≡ words.now) }
        ensures read { OnOk result (is_lenient self.new ≡ (is_lenient self.old || lenient)) }
        ensures told { OnOk result (PreparesTold lenient (told self.old) (told self.new)) }
        ensures err_command { OnErr result (command self.new ≡ command self.old) }
        ensures err_read { OnErr result (is_lenient self.new ≡ is_lenient self.old) }
        ensures err_told { OnErr result (told self.new ≡ told self.old) }
        ensures answers { answers self.new ≡ [] }
        ensures faults { faults self.new ≡ faults self.old }
        ensures failed { failed self.new ≡ failed self.old }
        ensures is_split { is_split self.new ≡ is_split self.old }
        ensures grounds { grounds self.new ≡ grounds self.old }
        ensures recalled { recalled self.new ≡ recalled self.old };

    /// Tests the commit of this name at this place, unless `stop` sees its flag raised. A test that was
    /// done adds its answer, and no other reply adds one. A test that failed raised the count of faults.
    fn test<R: Host>(&mut self, rt: &R, place: u32, name: Oid, stop: &mut StopView<'_>) -> TestReply
        ensures answers { answers self.new ≡ answers_after result (answers self.old) place name }
        ensures planned { ReplyFollowsPlan (told self.old) place result }
        ensures read { ReplyIsReadAs (is_lenient self.old) result }
        ensures dropped { result ≡ TestReply.Dropped → SawRaised stop.new }
        ensures bare { stop.new.bare ≡ stop.old.bare }
        ensures faults { faults self.old ≤ faults self.new }
        ensures fault { result ≡ TestReply.Failed → Rose (faults self.old) (faults self.new) }
        ensures failed { failed self.new ≡ failed_after result (failed self.old) place }
        ensures told { told self.new ≡ told self.old }
        ensures command { command self.new ≡ command self.old }
        ensures is_split { is_split self.new ≡ is_split self.old }
        ensures is_lenient { is_lenient self.new ≡ is_lenient self.old }
        ensures grounds { grounds self.new ≡ grounds self.old }
        ensures recalled { recalled self.new ≡ recalled self.old };

    /// A tester of the same command and plan for another thread, with no answers and no faults.
    fn split(&self) -> Result<Self, AllocError>
        ensures told { IfOk result (λ t. told t ≡ told self.now) }
        ensures command { IfOk result (λ t. command t ≡ command self.now) }
        ensures answers { IfOk result (λ t. answers t ≡ []) }
        ensures faults { IfOk result (λ t. faults t ≡ 0) }
        ensures failed { IfOk result (λ t. failed t ≡ None) }
        ensures is_split { IfOk result (λ t. is_split t ≡ true) }
        ensures is_lenient { IfOk result (λ t. is_lenient t ≡ is_lenient self.now) }
        ensures grounds { IfOk result (λ t. grounds t ≡ grounds self.now) }
        ensures recalled { IfOk result (λ t. recalled t ≡ recalled self.now) };

    /// Adds the answers of another tester, which is used up. For want of memory the other is handed back,
    /// and all is as before.
    fn absorb(&mut self, other: Self) -> Result<(), Self>
        requires command { command self.old ≡ command other }
        requires is_lenient { is_lenient self.old ≡ is_lenient other }
        requires grounds { grounds self.old ≡ grounds other }
        requires recalled { recalled self.old ≡ recalled other }
        ensures ok { OnOk result (answers self.new ≡ answers self.old ++ answers other) }
        ensures err { IfErr result (λ t. (t ≡ other) × (answers self.new ≡ answers self.old)) }
        ensures told { told self.new ≡ told self.old }
        ensures command { command self.new ≡ command self.old }
        ensures faults { faults self.new ≡ faults self.old }
        ensures failed { failed self.new ≡ failed self.old }
        ensures is_split { is_split self.new ≡ is_split self.old }
        ensures is_lenient { is_lenient self.new ≡ is_lenient self.old }
        ensures grounds { grounds self.new ≡ grounds self.old }
        ensures recalled { recalled self.new ≡ recalled self.old };

    /// The answer at an index, counted from 0. `None` comes exactly where there is no such answer.
    fn answer(&self, index: usize) -> Option<Answer>
        ensures { result ≡ slice_get (answers self.now) index };
}
