//! A plan of outcomes by place.
ghost use Rattle.std.specs.Prelude.{◌≡◌, IfOk, All, IsTrue};
ghost use Rattle.bf_search.specs.Outcomes.{planned};
ghost use Rattle.bf_tester.specs.Plans.{is_letter, plan_of, read_as, plan_read_as, IsReadAs};

use bf_search::Outcome;
use bf_terms::{lenient, outcome_of_letter};
use std::alloc::{AllocError, Global};
use std::marker::Model;

/// Outcomes by place, which contracts see as their list.
#[derive(Drop)]
pub(crate) struct Plan {
    outcomes: Vec<Outcome>,
}

impl Model for Plan {
    ghost use Rattle.std.specs.Prelude.{List};
    ghost use Rattle.bf_search.specs.declared.outcomes.Outcome.{Outcome};

    ghost Value = { List Outcome };

    ghost view = { λ p. p.outcomes.items };
}

impl Plan {
    /// The plan that letters write.
    pub(crate) fn read(alloc: Global, letters: &[u8]) -> Result<Plan, AllocError>
        requires { All (λ letter. IsTrue (is_letter letter)) letters.now }
        ensures { IfOk result (λ plan. plan ≡ plan_of letters.now) }
    {
        let mut outcomes = Vec::new(alloc);
        for letter in letters {
            outcomes.push(outcome_of_letter(*letter).unwrap_or(Outcome::Exit(125)))?;
        }
        Ok(Plan { outcomes })
    }

    /// The outcome of a place, read leniently where that is asked. Past the end of the plan a test exits
    /// with 125.
    #[tactic(auto, using(crate::proofs::Reading::planned_read_as))]
    pub(crate) fn outcome(&self, place: u32, is_lenient: bool) -> Outcome
        ensures planned { result ≡ planned (plan_read_as is_lenient self.now) place }
        ensures read { IsReadAs is_lenient result }
    {
        read(is_lenient, self.planned(place))
    }

    fn planned(&self, place: u32) -> Outcome
        ensures { result ≡ planned self.now place }
    {
        match self.outcomes.get(place as usize) {
            Some(outcome) => *outcome,
            None => Outcome::Exit(125),
        }
    }
}

/// An outcome as it is, or in its lenient reading.
#[tactic(auto, using(crate::proofs::Reading::lenient_twice))]
pub(crate) fn read(is_lenient: bool, outcome: Outcome) -> Outcome
    ensures outcome { result ≡ read_as is_lenient outcome }
    ensures read { IsReadAs is_lenient result }
{
    if is_lenient {
        lenient(outcome)
    } else {
        outcome
    }
}
