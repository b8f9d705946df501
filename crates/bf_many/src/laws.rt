//! What holds of every list of legal events.
ghost use Rattle.std.specs.Prelude.{◌≡◌, [], List, All};
ghost use Rattle.bf_many.specs.declared.answers.ManyEvent.{ManyEvent};
ghost use Rattle.bf_many.specs.Many.{EachRunsAlone, FarmMachine, GoesBefore, HaveOneClaim, Leads};

/// Whatever events are legal, each search goes through its own alone, as on a farm machine that knows of
/// no other search.
pub fn searches_run_alone()
    ensures { (old new : List FarmMachine) (events : List ManyEvent) → Leads old events new →
        EachRunsAlone old events new }
{}

/// Whatever events are legal, no worker has claims in two searches.
pub fn workers_have_one_claim()
    ensures { (old new : List FarmMachine) (events : List ManyEvent) →
        All (λ s. s.farm.claims ≡ []) old → Leads old events new → HaveOneClaim new }
{}

/// The search with fewer claims goes before, wherever it stands; of two that have as many, the earlier one.
pub fn the_fewest_claims_go_before()
    ensures fewer { GoesBefore 0 1 1 0 }
    ensures equal { GoesBefore 1 0 1 1 }
    ensures later { GoesBefore 1 1 1 0 → ⊥ }
    ensures more { GoesBefore 2 0 1 1 → ⊥ }
{}
