//! The words of the headline in short and those of a search mean the same. A function here does nothing: its contract is
//! the law.
ghost use Rattle.std.specs.Prelude.{◌≡◌, ◌≢◌, ℕ, ◌<◌, false, List, [], length, Contains, Option, Some, slice_index};
ghost use Rattle.bf_graph.specs.Graph.{IsGraph};
ghost use Rattle.bf_search.specs.declared.asks.Ask.TheVariants.{Test};
ghost use Rattle.bf_search.specs.declared.outcomes.Mark.{Mark};
ghost use Rattle.bf_search.specs.declared.outcomes.Outcome.{Outcome};
ghost use Rattle.bf_search.specs.Reach.{reaches};
ghost use Rattle.bf_search.specs.Candidates.{candidates, candidate_row, weights};
ghost use Rattle.bf_search.specs.Choice.{count_in, value_of};
ghost use Rattle.bf_search.specs.Bases.{merge_bases};
ghost use Rattle.bf_search.specs.Outcomes.{Outcomes, verdict_of};
ghost use Rattle.bf_search.specs.State.{Search, IsSearchOver, best_of, ask, mark};
ghost use Rattle.bf_search.specs.Run.{one_at_a_time};
ghost use Rattle.bf_headline.specs.Headline as short;
ghost use Rattle.bf_headline.specs.Telling as telling;
ghost use Rattle.bf_headline.specs.Links.{standing_of, IsSameAsk, IsSameMark, IsSame};

/// Reach is reach, in every graph.
pub fn reach_in_short()
    ensures { (graph : List (List ℕ)) (p q : ℕ) → short.reaches graph p q ≡ reaches graph p q }
{}

/// So are the candidates.
pub fn candidates_in_short()
    ensures { (graph : List (List ℕ)) (s : Search) (bad : ℕ) →
        short.candidates graph (standing_of s bad) ≡ candidates graph bad s.goods s.first_parent }
{}

/// So is the value of a candidate.
pub fn value_in_short()
    ensures { (graph : List (List ℕ)) (s : Search) (bad p : ℕ) →
        let ps = candidates graph bad s.goods s.first_parent in
        let row = candidate_row graph bad s.goods s.first_parent in
        Contains ps p →
        short.value graph (standing_of s bad) ps p
        ≡ value_of (count_in row) (slice_index (weights graph row s.first_parent) p) }
{}

/// So is the best candidate.
pub fn best_in_short()
    ensures { (graph : List (List ℕ)) (s : Search) (bad : ℕ) →
        short.best graph (standing_of s bad) (candidates graph bad s.goods s.first_parent) ≡ best_of graph s bad }
{}

/// So are the merge bases.
pub fn merge_bases_in_short()
    ensures { (graph : List (List ℕ)) (s : Search) (bad : ℕ) →
        short.merge_bases graph (standing_of s bad) ≡ merge_bases graph bad s.goods }
{}

/// So is the ask of a search with both ends.
pub fn ask_in_short()
    ensures { (graph : List (List ℕ)) (s : Search) (bad : ℕ) →
        IsGraph graph → bad < length graph → s.bad ≡ Some bad → s.goods ≢ [] →
        IsSameAsk s bad (ask graph s) (short.ask graph (standing_of s bad)) }
{}

/// So is what an outcome says.
pub fn verdict_in_short()
    ensures { (outcome : Outcome) → short.verdict_of outcome ≡ verdict_of outcome }
{}

/// So is what the mark of a place that was asked leaves.
pub fn mark_in_short()
    ensures { (graph : List (List ℕ)) (s : Search) (bad : ℕ) (m : Mark) (p : ℕ) →
        IsGraph graph → IsSearchOver graph s → s.bad ≡ Some bad → s.goods ≢ [] →
        (ask graph s).step.ask ≡ Test p →
        IsSameMark (ask graph s).search bad m p }
{}

/// So is the whole run of a search with both ends.
pub fn run_in_short()
    ensures { (graph : List (List ℕ)) (known : Outcomes) (s : Search) (bad : ℕ) →
        IsGraph graph → IsSearchOver graph s → s.bad ≡ Some bad → s.goods ≢ [] →
        IsSame (one_at_a_time graph s known 0) (short.one_at_a_time graph known (standing_of s bad)) }
{}

/// Whatever is told of it, a search that was tested is the run of testing one commit after another.
pub fn tests_in_short()
    ensures { telling.TestsAreInShort }
{}

/// What `run` tells of a search that began with words or a log is the run of testing one commit after another.
pub fn runs_in_short()
    ensures { telling.RunsAreInShort }
{}

/// So is what `simulate` tells.
pub fn plans_in_short()
    ensures { telling.PlansAreInShort }
{}

/// So is all that the program tells of a search, where the bytes of its stream are told.
pub fn searches_in_short()
    ensures { telling.SearchesAreInShort }
{}
