//! Laws about the definitions. A function here does nothing: its contract is the law.
ghost use Rattle.std.specs.Prelude.{◌≡◌, ◌↔◌, ℕ, Bool, List, Option, IsTrue};
ghost use Rattle.bf_graph.specs.Graph.{IsGraph};
ghost use Rattle.bf_search.specs.Reach.{in_mode, reaches, Reaches};
ghost use Rattle.bf_search.specs.Candidates.{is_candidate, candidates, candidate_row, places_of};
ghost use Rattle.bf_search.specs.Outcomes.{Outcomes};
ghost use Rattle.bf_search.specs.State.{Search, IsSearchOver};
ghost use Rattle.bf_search.specs.Run.{turn, run};

/// The test for reach says whether a path of parents leads from one place to the other.
pub fn reach_is_by_a_path()
    ensures { (graph : List (List ℕ)) (p q : ℕ) →
        IsGraph graph → (IsTrue (reaches graph p q) ↔ Reaches graph p q) }
{}

/// A place on a path of the mode from one candidate to another is a candidate.
pub fn paths_between_candidates()
    ensures { (graph : List (List ℕ)) (bad : ℕ) (goods : List ℕ) (first_parent : Bool) (p r q : ℕ) →
        IsGraph graph
        → IsTrue (is_candidate graph bad goods first_parent p)
        → IsTrue (is_candidate graph bad goods first_parent q)
        → Reaches (in_mode graph first_parent) p r
        → Reaches (in_mode graph first_parent) r q
        → IsTrue (is_candidate graph bad goods first_parent r) }
{}

/// The row of the candidates and the list of the candidates say the same.
pub fn row_of_candidates()
    ensures { (graph : List (List ℕ)) (bad : ℕ) (goods : List ℕ) (first_parent : Bool) →
        places_of (candidate_row graph bad goods first_parent)
        ≡ candidates graph bad goods first_parent }
{}

/// A run goes on turn by turn: it has turns enough, since no place is asked twice.
pub fn turns_are_never_spent()
    ensures { (graph : List (List ℕ)) (known : Outcomes) (left : Option ℕ) (s : Search) →
        IsGraph graph → IsSearchOver graph s →
        run graph known left s ≡ turn graph known (run graph known) left s }
{}
