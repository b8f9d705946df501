//! Laws of the definitions of a stream, each on a function that does nothing.
ghost use Rattle.std.specs.Prelude.{ℕ, List};
ghost use Rattle.bf_grammar.specs.declared.fault.Limits.{Limits};
ghost use Rattle.bf_grammar.specs.Place.{Place};
ghost use Rattle.bf_grammar.specs.Commands.{command_at};
ghost use Rattle.bf_grammar.specs.Laws.{HasOneReading, HasSomeReading, IsRefusedOfItself, EndsOfItself};

/// Under given limits, bytes are the stream of at most one list of commands, and end in at most one
/// way.
pub fn one_reading()
    ensures { (bytes : List ℕ) (limits : Limits) → HasOneReading bytes limits }
{}

/// Under given limits, all bytes are the stream of some list of commands, and end in some way.
pub fn some_reading()
    ensures { (bytes : List ℕ) (limits : Limits) → HasSomeReading bytes limits }
{}

/// A stream is never refused for a source that fails or for want of memory: these two faults come
/// from a reader alone.
pub fn own_faults()
    ensures command { (limits : Limits) (p : Place) → IsRefusedOfItself (command_at limits p) }
    ensures stream { (bytes : List ℕ) (limits : Limits) → EndsOfItself bytes limits }
{}
