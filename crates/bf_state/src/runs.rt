//! Laws of runs.
ghost use Rattle.std.specs.Prelude.{◌≡◌, ◌≢◌, ◌↔◌, ℕ, ◌*◌, ◌^◌, ◌<◌, ◌≤◌, All, true, false, [], Some, None, List, Option, length, map};
ghost use Rattle.std.specs.List.{AllPairs};
ghost use Rattle.bf_graph.specs.Graph.{IsGraph};
ghost use Rattle.bf_search.specs.declared.asks.Ask.TheVariants.{Test, MergeBaseBad};
ghost use Rattle.bf_search.specs.declared.entries.Entry.TheVariants.{SkippedBase};
ghost use Rattle.bf_search.specs.declared.farm.Ending.{Ending};
ghost use Rattle.bf_search.specs.declared.outcomes.Mark.TheVariants.{Bad};
ghost use Rattle.bf_search.specs.declared.outcomes.Outcome.{Outcome};
ghost use Rattle.bf_search.specs.Outcomes.{Outcomes, outcomes_of_pairs};
ghost use Rattle.bf_search.specs.State.{Search, IsSearchOver, ask, mark};
ghost use Rattle.bf_search.specs.Run.{Leg, Open, with_entries, run, one_at_a_time};
ghost use Rattle.bf_search.specs.OpenPaths.{left_of};
ghost use Rattle.bf_search.specs.Farm.{end_of};
ghost use Rattle.bf_state.specs.Runs.{IsPartOf, is_open, is_unfinished, in_sequence};
ghost use Rattle.bf_state.specs.Ends.{HasEnds, marks_of, IsUnspent, run_on};
ghost use Rattle.bf_state.specs.Halving.{IsLine, NoneSkipped, IsGoodOrBad};
ghost use Rattle.bf_state.specs.Used.{TellsUsed};

/// A run that waits for an outcome goes on from the state that it reached, in the same leg.
pub fn open_runs_go_on()
    ensures { (graph : List (List ℕ)) (s : Search) (known more : Outcomes) (left : Option ℕ) →
        IsGraph graph → IsSearchOver graph s → IsPartOf known more →
        is_open (run graph known left s).end ≡ true →
        run graph more left s
        ≡ in_sequence (run graph known left s) (run_on graph more left (run graph known left s)) }
{}

/// The places of a search that has asked are places of the graph.
pub fn asks_stay_within_the_graph()
    ensures { (graph : List (List ℕ)) (s : Search) →
        IsGraph graph → IsSearchOver graph s → IsSearchOver graph (ask graph s).search }
{}

/// A run warns once, and goes on from the search that has asked: no warning is lost or comes twice.
pub fn runs_warn_once()
    ensures { (graph : List (List ℕ)) (known : Outcomes) (left : Option ℕ) (s : Search) →
        IsGraph graph → IsSearchOver graph s → IsUnspent left →
        run graph known left s
        ≡ with_entries (map (λ p. SkippedBase p) (ask graph s).step.warned)
        (run graph known left (ask graph s).search) }
{}

/// Outcomes that tell what a run used, and not the one that it waits for, give the same run.
pub fn outcomes_that_tell_the_used_ones()
    ensures { (graph : List (List ℕ)) (known more : Outcomes) (left : Option ℕ) (s : Search) →
        TellsUsed more (run graph known left s) → run graph more left s ≡ run graph known left s }
{}

/// What a run used was known, and what it waits for was not.
pub fn used_outcomes_are_known()
    ensures { (graph : List (List ℕ)) (known : Outcomes) (left : Option ℕ) (s : Search) →
        TellsUsed known (run graph known left s) }
{}

/// More outcomes change nothing of a run that waits for one that is not among them.
pub fn outcomes_off_the_path()
    ensures { (graph : List (List ℕ)) (known more : Outcomes) (left : Option ℕ) (s : Search)
        (p : ℕ) →
        IsPartOf known more → (run graph known left s).end ≡ Open p → more p ≡ None →
        run graph more left s ≡ run graph known left s }
{}

/// Outcomes that are the same at each place give the same run.
pub fn same_outcomes_same_run()
    ensures { (graph : List (List ℕ)) (known more : Outcomes) (left : Option ℕ) (s : Search) →
        ((p : ℕ) → more p ≡ known p) → run graph more left s ≡ run graph known left s }
{}

/// The pairs that a run used tell the run in all its parts.
pub fn used_pairs_tell_the_run()
    ensures { (graph : List (List ℕ)) (known : Outcomes) (left : Option ℕ) (s : Search) →
        run graph (outcomes_of_pairs (run graph known left s).used) left s
        ≡ run graph known left s }
{}

/// The pairs that a run used have different places.
pub fn used_places_differ()
    ensures { (graph : List (List ℕ)) (known : Outcomes) (left : Option ℕ) (s : Search) →
        IsGraph graph → IsSearchOver graph s →
        AllPairs (λ a b. a.0 ≢ b.0) (run graph known left s).used }
{}

/// A run ends with its leg exactly where the leg has a length and so many marks were made.
pub fn cause_of_a_leg()
    ensures { (graph : List (List ℕ)) (known : Outcomes) (s : Search) (k : ℕ) → IsGraph graph →
        IsSearchOver graph s →
        ((one_at_a_time graph s known k).end ≡ Leg
        ↔ ((0 < k) × (length (marks_of (one_at_a_time graph s known k).entries) ≡ k))) }
{}

/// Each outcome that a run used was marked, where it ended with its leg or for want of an outcome.
pub fn used_outcomes_are_marked()
    ensures { (graph : List (List ℕ)) (known : Outcomes) (left : Option ℕ) (s : Search) →
        is_unfinished (run graph known left s).end ≡ true →
        length (run graph known left s).used ≡ length (marks_of (run graph known left s).entries) }
{}

/// The state in which a run waits for an outcome has asked for it.
pub fn waiting_runs_have_asked()
    ensures { (graph : List (List ℕ)) (known : Outcomes) (left : Option ℕ) (s : Search) (p : ℕ) →
        (run graph known left s).end ≡ Open p →
        ask graph (run graph known left s).search
        ≡ record {
          search = (run graph known left s).search;
          step = record { warned = []; ask = Test p };
        } }
{}

/// From a state with both ends a run ends as an ending tells: with no ask for an end, and no ask for a test.
pub fn runs_end_as_endings_tell()
    ensures { (graph : List (List ℕ)) (known : Outcomes) (left : Option ℕ) (s : Search) →
        HasEnds s → (ending : Ending) × (end_of ending ≡ (run graph known left s).end) }
{}

/// Both ends stay known.
pub fn ends_stay_known()
    ensures { (graph : List (List ℕ)) (known : Outcomes) (left : Option ℕ) (s : Search) →
        HasEnds s → HasEnds (run graph known left s).search }
{}

/// A run without legs over a whole plan ends neither with a leg nor for want of an outcome.
pub fn whole_plans_end()
    ensures { (graph : List (List ℕ)) (known : Outcomes) (s : Search) → IsGraph graph →
        IsSearchOver graph s → ((p : ℕ) → (outcome : Outcome) × (known p ≡ Some outcome)) →
        is_unfinished (one_at_a_time graph s known 0).end ≡ false }
{}

/// A merge base that was asked and is bad ends the search: the next ask tells it.
pub fn bad_bases_are_told()
    ensures { (graph : List (List ℕ)) (s : Search) (q : ℕ) → IsGraph graph →
        (ask graph s).step.ask ≡ Test q → (ask graph s).search.checked ≡ false →
        (ask graph (mark (ask graph s).search Bad q)).step
        ≡ record { warned = []; ask = MergeBaseBad q } }
{}

/// Where the candidates stand in one line, a run that tests `n` of them, each good or bad, began with more
/// than half of `2 ^ n` candidates: each test halves them.
pub fn halving()
    ensures { (graph : List (List ℕ)) (known : Outcomes) (left : Option ℕ) (s : Search) →
        IsGraph graph → IsSearchOver graph s → s.checked ≡ true → NoneSkipped s → IsLine graph s →
        All (λ pair. IsGoodOrBad pair.1) (run graph known left s).used → 1 ≤ left_of graph s →
        2 ^ length (run graph known left s).used < 2 * left_of graph s }
{}
