//! Laws of the dialogue. A function here does nothing: its contract is the law.
ghost use Rattle.std.specs.Prelude.{◌≡◌, ◌↔◌, ◌+◌, ◌∷◌, ℕ, true, List, Result};
ghost use Rattle.bf_graph.specs.Graph.{IsGraph};
ghost use Rattle.bf_history.specs.Meanings.{History};
ghost use Rattle.bf_io.specs.declared.shelf.LoadFault.{LoadFault};
ghost use Rattle.bf_io.specs.declared.shelf.ShelfFile.{ShelfFile};
ghost use Rattle.bf_many.specs.Many.{FarmMachine};
ghost use Rattle.bf_protocol.specs.Events.{News, Refused, Test};
ghost use Rattle.bf_search.specs.State.{IsSearchOver};
ghost use Rattle.bf_terms.specs.Texts.{Commits};
ghost use Rattle.bf_serve.specs.declared.opening.Opening.{Opening};
ghost use Rattle.bf_serve.specs.Laws as laws;
ghost use Rattle.bf_serve.specs.Searches.{Searches, is_asked, needless, no_search};
ghost use Rattle.bf_serve.specs.Serving.{file_in, pick_turn, served, turn};

/// Whatever is asked, the lines that were told of the log of each search are the lines of its log: that of testing
/// one commit at a time on the outcomes that are known.
pub fn what_is_told_is_the_log()
    ensures { (history : History) (files : List ShelfFile) (lines : List (List ℕ)) →
        let turns = served history files no_search lines in
        let given = laws.words_begun history files no_search lines in
        laws.AreLogsTold history files given (laws.told_in turns)
        (laws.left_by no_search turns) }
{}

/// What was told of a search is its log and, behind it, where testing one commit at a time has its end, the answer and
/// the status, once; where it has none, neither was told.
pub fn what_is_told_is_the_end()
    ensures { (history : History) (files : List ShelfFile) (lines : List (List ℕ)) →
        let turns = served history files no_search lines in
        let given = laws.words_begun history files no_search lines in
        laws.AreEndsTold history files given (laws.told_in turns)
        (laws.left_by no_search turns) }
{}

/// Two drivers whose searches began with the same words, and know the same outcomes, were told the same log, whatever
/// workers they had, and in whatever order the outcomes came.
pub fn the_same_outcomes_tell_the_same_log()
    ensures { (history : History) (files shelf : List ShelfFile)
        (given said : List (List (List ℕ))) (news others : List News)
        (j k : ℕ) (o p : Opening) (m n : FarmMachine)
        (one : laws.IsLogTold history files given news j o m)
        (other : laws.IsLogTold history shelf said others k p n) →
        laws.BeganAlike files shelf one.begun.words other.begun.words
        one.begun.asks other.begun.asks →
        laws.KnowTheSame m n → laws.logged (j + 1) news ≡ laws.logged (k + 1) others }
{}

/// They were also told the same end.
pub fn the_same_outcomes_tell_the_same_end()
    ensures { (history : History) (files shelf : List ShelfFile)
        (given said : List (List (List ℕ))) (news others : List News)
        (j k : ℕ) (o p : Opening) (m n : FarmMachine)
        (one : laws.IsEndTold history files given news j o m)
        (other : laws.IsEndTold history shelf said others k p n) →
        laws.BeganAlike files shelf one.begun.words other.begun.words
        one.begun.asks other.begun.asks →
        laws.KnowTheSame m n → laws.parts_told (j + 1) news ≡ laws.parts_told (k + 1) others }
{}

/// A request that is refused changes nothing, and nothing is told before the refusal.
pub fn refusals_change_nothing()
    ensures { (history : History) (file : Result (List ℕ) LoadFault) (searches : Searches)
        (line text : List ℕ) → (turn history file searches line).reply ≡ Refused text →
        laws.ChangesNothing searches (turn history file searches line) }
{}

/// What is replied behind a request that is refused is what would be without it.
pub fn refusals_are_left_out()
    ensures { (history : History) (files : List ShelfFile) (searches : Searches)
        (line text : List ℕ) (lines : List (List ℕ)) →
        let refused = turn history (file_in files searches line) searches line in
        refused.reply ≡ Refused text →
        served history files searches (line ∷ lines)
        ≡ refused ∷ served history files searches lines }
{}

/// The commit that a worker is given is that of the best open path of the search that is helped next.
pub fn the_best_open_path_is_tested()
    ensures { (commits : Commits) (searches : Searches) (worker s : ℕ) (digits : List ℕ) →
        (pick_turn commits searches worker).reply ≡ Test s digits →
        laws.IsBestTask commits searches s digits }
{}

/// A place is asked for exactly where the search waits for an outcome and some path of known outcomes and of guesses
/// asks for the place.
pub fn a_place_is_asked_by_a_path()
    ensures { (m : FarmMachine) (p : ℕ) → IsGraph m.setting.graph →
        IsSearchOver m.setting.graph m.setting.start →
        ((is_asked m p ≡ true) ↔ laws.IsAskedIn m p) }
{}

/// So the needless workers are those whose commits no path asks for.
pub fn the_needless_are_those_without_a_path()
    ensures { (m : FarmMachine) → IsGraph m.setting.graph →
        IsSearchOver m.setting.graph m.setting.start → laws.AreNeedlessIn m (needless m) }
{}

/// A driver that keeps the last list of needless workers of a search, or none, knows the needless workers.
pub fn the_last_list_told_is_needless()
    ensures { (history : History) (files : List ShelfFile) (lines : List (List ℕ)) →
        let turns = served history files no_search lines in
        laws.AreNeedlessTold (laws.told_in turns) (laws.left_by no_search turns) }
{}
