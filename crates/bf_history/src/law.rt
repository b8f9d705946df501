//! Laws of the definition of a history with its contents, each on a function that does nothing.
ghost use Rattle.std.specs.Prelude.{ℕ, List};
ghost use Rattle.bf_grammar.specs.declared.fault.Limits.{Limits};
ghost use Rattle.bf_history.specs.Laws.{HasAllContents, HasOneHistory};

/// The history that bytes load with their blobs is the one that they load without, and they are refused
/// alike, but where a file lacks its content.
pub fn one_history()
    ensures { (bytes : List ℕ) (limits : Limits) → HasOneHistory bytes limits }
{}

/// In a history that is loaded with its blobs each file but a submodule has a path in UTF-8 and a blob, and
/// each blob stands under its own name.
pub fn all_contents()
    ensures { (bytes : List ℕ) (limits : Limits) → HasAllContents bytes limits }
{}
