//! A law about names. A function here does nothing: its contract is the law.
ghost use Rattle.std.specs.Prelude.{◌≢◌, List, ℕ, Err};
ghost use Rattle.bf_history.specs.Meanings.{History};
ghost use Rattle.bf_names.specs.Names.{name, range};
ghost use Rattle.bf_names.specs.declared.fault.NameFault.TheVariants.{NoMemory};

/// What a name or a range means does not hang on memory: neither is ever refused for want of it.
pub fn no_name_is_refused_for_want_of_memory()
    ensures names { (history : History) (text : List ℕ) → name history text ≢ Err NoMemory }
    ensures ranges { (history : History) (text : List ℕ) → range history text ≢ Err NoMemory }
{}
