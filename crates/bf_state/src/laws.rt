//! Laws about asks and runs. A function here does nothing: its contract is the law.
ghost use Rattle.std.specs.Prelude.{◌≡◌, ℕ, true, false, List, []};
ghost use Rattle.bf_graph.specs.Graph.{IsGraph};
ghost use Rattle.bf_search.specs.declared.asks.Ask.TheVariants.{Test};
ghost use Rattle.bf_search.specs.declared.outcomes.Mark.TheVariants.{Good, Bad};
ghost use Rattle.bf_search.specs.Outcomes.{Outcomes};
ghost use Rattle.bf_search.specs.State.{Search, IsSearchOver, ask, mark};
ghost use Rattle.bf_search.specs.Run.{run, one_at_a_time};
ghost use Rattle.bf_search.specs.Guesses.{is_candidate_of, IsParted};
ghost use Rattle.bf_state.specs.Runs.{IsPartOf, GoesOn, is_open, is_unfinished, in_sequence};

/// Asking again asks the same and leaves the same, and warns of nothing more.
pub fn asking_again()
    ensures { (graph : List (List ℕ)) (s : Search) →
        ask graph (ask graph s).search ≡ record {
          search = (ask graph s).search;
          step = record { warned = []; ask = (ask graph s).step.ask };
        } }
{}

/// Where more outcomes are known, a run has the same entries as far as it goes.
pub fn longer_tables_go_on()
    ensures { (graph : List (List ℕ)) (s : Search) (known more : Outcomes) (k : ℕ) →
        IsPartOf known more →
        GoesOn (one_at_a_time graph s known k).entries (one_at_a_time graph s more k).entries }
{}

/// A run that does not end for want of an outcome is the same where more outcomes are known.
pub fn longer_tables_end_alike()
    ensures { (graph : List (List ℕ)) (s : Search) (known more : Outcomes) (k : ℕ) →
        IsPartOf known more →
        is_open (one_at_a_time graph s known k).end ≡ false →
        one_at_a_time graph s more k ≡ one_at_a_time graph s known k }
{}

/// A run that ended with its leg, or for want of an outcome, goes on from the state that it reached: both
/// runs in sequence are one run without legs, where all is known that the first one knew.
pub fn runs_go_on()
    ensures { (graph : List (List ℕ)) (s : Search) (known more : Outcomes) (k : ℕ) →
        IsGraph graph → IsSearchOver graph s → IsPartOf known more →
        is_unfinished (one_at_a_time graph s known k).end ≡ true →
        let first = one_at_a_time graph s known k in
        one_at_a_time graph s more 0
        ≡ in_sequence first (one_at_a_time graph first.search more 0) }
{}

/// A candidate is left after exactly one of the two guesses at the outcome of the place that is asked.
pub fn guesses_part_the_candidates()
    ensures { (graph : List (List ℕ)) (s : Search) (q p : ℕ) →
        IsGraph graph → (ask graph s).step.ask ≡ Test q →
        IsParted (is_candidate_of graph s p)
        (is_candidate_of graph (mark (ask graph s).search Good q) p)
        (is_candidate_of graph (mark (ask graph s).search Bad q) p) }
{}
