//! Laws of open paths.
ghost use Rattle.std.specs.Prelude.{◌≡◌, ℕ, ◌≤◌, List, [], None, Some};
ghost use Rattle.bf_graph.specs.Graph.{IsGraph};
ghost use Rattle.bf_search.specs.declared.asks.Ask.TheVariants.{Test};
ghost use Rattle.bf_search.specs.declared.farm.Claim.{Claim};
ghost use Rattle.bf_search.specs.declared.outcomes.Mark.{Mark};
ghost use Rattle.bf_search.specs.Outcomes.{Outcomes};
ghost use Rattle.bf_search.specs.State.{Search, IsSearchOver, ask, mark};
ghost use Rattle.bf_search.specs.OpenPaths.{OpenPath, left_of, path_turn, best_open, Allows, Leads, IsOpenPath, IsNoWorse};
ghost use Rattle.bf_state.specs.Way.{way};

/// The recursion goes on turn by turn: it has turns enough, since no place is asked twice.
pub fn turns_are_never_spent()
    ensures { (graph : List (List ℕ)) (known : Outcomes) (claims : List Claim) (s : Search) →
        IsGraph graph → IsSearchOver graph s →
        best_open graph known claims s
        ≡ path_turn graph known claims (best_open graph known claims) s }
{}

/// The candidates that are left never grow along a path.
pub fn candidates_never_grow()
    ensures { (graph : List (List ℕ)) (known : Outcomes) (s : Search)
        (ms : List Mark) (p left : ℕ) →
        IsGraph graph → Leads graph known s ms p left → left ≤ left_of graph s }
{}

/// What the recursion gives is an open path.
pub fn best_open_path_is_open()
    ensures { (graph : List (List ℕ)) (known : Outcomes) (claims : List Claim) (s : Search)
        (path : OpenPath) →
        best_open graph known claims s ≡ Some path → IsOpenPath graph known claims s path }
{}

/// Where there is an open path the recursion gives one, and none is better.
pub fn best_open_path_is_best()
    ensures { (graph : List (List ℕ)) (known : Outcomes) (claims : List Claim) (s : Search)
        (path : OpenPath) →
        IsGraph graph → IsSearchOver graph s → IsOpenPath graph known claims s path →
        (best : OpenPath) × (best_open graph known claims s ≡ Some best) × IsNoWorse best path }
{}

/// Each place is asked by at most one path.
pub fn one_path_a_place()
    ensures { (graph : List (List ℕ)) (known : Outcomes) (s : Search)
        (ms ns : List Mark) (p one two : ℕ) →
        IsGraph graph → IsSearchOver graph s → Leads graph known s ms p one →
        Leads graph known s ns p two → ms ≡ ns }
{}

/// A path that guesses at a place and asks for another further on goes the way to it.
pub fn way_to_a_place()
    ensures { (graph : List (List ℕ)) (known : Outcomes) (s : Search)
        (q : ℕ) (m : Mark) (ms : List Mark) (x left : ℕ) →
        IsGraph graph → (ask graph s).step.ask ≡ Test q → Allows None m →
        Leads graph known (mark (ask graph s).search m q) ms x left →
        m ≡ way graph (ask graph s).search q x }
{}

/// Where a place is asked whose outcome is not known, and no claim stands, the empty path is open.
pub fn no_claim_leaves_the_empty_path()
    ensures { (graph : List (List ℕ)) (known : Outcomes) (s : Search) (p : ℕ) →
        (ask graph s).step.ask ≡ Test p → known p ≡ None →
        best_open graph known [] s
        ≡ Some (record { marks = []; place = p; left = left_of graph (ask graph s).search }) }
{}
