//! Laws of the rows of candidates, and of their weights, after an ask and after a mark.
ghost use Rattle.std.specs.Prelude.{◌≡◌, ℕ, ◌&&◌, not, List};
ghost use Rattle.std.specs.Simd.Lanes.{zip2};
ghost use Rattle.bf_graph.specs.Graph.{IsGraph};
ghost use Rattle.bf_search.specs.declared.asks.Ask.TheVariants.{Test};
ghost use Rattle.bf_search.specs.declared.outcomes.Mark.TheVariants.{Good, Bad, Skip};
ghost use Rattle.bf_search.specs.Reach.{in_mode, reach_row};
ghost use Rattle.bf_search.specs.State.{Search, ask, mark};
ghost use Rattle.bf_state.specs.Weighed.{mask_of, weights_of, weights_needed};

/// An ask changes no candidate, and needs the same weights when it is made again.
pub fn an_ask_changes_no_candidate()
    ensures mask { (graph : List (List ℕ)) (s : Search) →
        mask_of graph (ask graph s).search ≡ mask_of graph s }
    ensures weights { (graph : List (List ℕ)) (s : Search) →
        weights_of graph (ask graph s).search ≡ weights_of graph s }
    ensures needed { (graph : List (List ℕ)) (s : Search) →
        weights_needed graph (ask graph s).search ≡ weights_needed graph s }
{}

/// Nor does a skip.
pub fn a_skip_changes_no_candidate()
    ensures mask { (graph : List (List ℕ)) (s : Search) (p : ℕ) →
        mask_of graph (mark (ask graph s).search Skip p) ≡ mask_of graph s }
    ensures weights { (graph : List (List ℕ)) (s : Search) (p : ℕ) →
        weights_of graph (mark (ask graph s).search Skip p) ≡ weights_of graph s }
{}

/// After good the candidates are left that the asked place does not reach.
pub fn candidates_after_good()
    ensures { (graph : List (List ℕ)) (s : Search) (q : ℕ) → IsGraph graph →
        (ask graph s).step.ask ≡ Test q →
        mask_of graph (mark (ask graph s).search Good q)
        ≡ zip2 (λ mine theirs. mine && not theirs) (mask_of graph s) (reach_row graph q) }
{}

/// After bad the candidates are left that the asked place reaches in the mode: none after a merge base.
pub fn candidates_after_bad()
    ensures { (graph : List (List ℕ)) (s : Search) (q : ℕ) → IsGraph graph →
        (ask graph s).step.ask ≡ Test q →
        mask_of graph (mark (ask graph s).search Bad q)
        ≡ zip2 ◌&&◌ (mask_of graph s) (reach_row (in_mode graph s.first_parent) q) }
{}
