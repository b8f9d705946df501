//! Laws of the farm machine.
ghost use Rattle.std.specs.Prelude.{◌≡◌, ℕ, true, List, [], ◌++◌, Option, Some, None};
ghost use Rattle.bf_search.specs.declared.farm.Event.{Event};
ghost use Rattle.bf_search.specs.declared.outcomes.Outcome.{Outcome};
ghost use Rattle.bf_search.specs.Outcomes.{outcomes_of_table};
ghost use Rattle.bf_search.specs.Run.{Open};
ghost use Rattle.bf_search.specs.Farm.{Farm, Setting, consumed, best_place, stands, step, after_events};
ghost use Rattle.bf_state.specs.Tidy.{IsTidy};

/// Legal events keep the claims of different workers and places, and each claimed place without an outcome.
pub fn events_keep_farms_tidy()
    ensures { (setting : Setting) (farm next : Farm) (events : List Event) → IsTidy farm →
        after_events setting (Some farm) events ≡ Some next → IsTidy next }
{}

/// Before the post of a claim its place has no outcome, so each place gets one at most.
pub fn posts_tell_what_is_not_known()
    ensures { (farm : Farm) (worker p : ℕ) → IsTidy farm → stands farm.claims worker p ≡ true →
        outcomes_of_table farm.table p ≡ None }
{}

/// Events one list after another lead where both lists lead together.
pub fn events_go_on()
    ensures { (setting : Setting) (farm : Option Farm) (first second : List Event) →
        after_events setting farm (first ++ second)
        ≡ after_events setting (after_events setting farm first) second }
{}

/// Where there is no ending and no claim, the place for which the run waits is the best one.
pub fn no_claim_leaves_a_place()
    ensures { (setting : Setting) (table : List (Option Outcome)) (p : ℕ) →
        (consumed setting table).end ≡ Open p →
        best_place setting (record { table = table; claims = [] }) ≡ Some p }
{}
