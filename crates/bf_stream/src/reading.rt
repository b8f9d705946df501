//! The reader at work.
ghost use Rattle.std.specs.Prelude.{◌≡◌, false, IfOk};
ghost use Rattle.bf_grammar.specs.Commands.{command_at};
ghost use Rattle.bf_grammar.specs.Limits.{IsWithin};
ghost use Rattle.bf_stream.specs.Held.{nothing_held};
ghost use Rattle.bf_stream.specs.Standing as standing;
ghost use Rattle.bf_stream.specs.Standing.{EndsWhole, Opens, Reads, IsOverBy, TakesIfSome};

use crate::{Cursor, Reader, Window};
use bf_grammar::{Command, Limits, StreamFault};
use bf_io::{Bytes, Source};
use std::alloc::{AllocError, Global};

impl<'a, S: Source> Reader<'a, S> {
    /// A reader of what the source has from here on, whose first line is line 1.
    pub fn new(
        alloc: Global,
        source: &'a mut S,
        limits: Limits,
    ) -> Result<Reader<'a, S>, AllocError>
        requires { IsWithin limits }
        ensures opens { IfOk result (Opens S.left S.faults source.old limits) }
        ensures over { IfOk result (λ reader. standing.is_over reader ≡ false) }
        ensures same { IfOk result (λ reader. standing.source_of reader ≡ source.entry.ghost_name) }
    {
        let window = Window::new(alloc, limits.stream)?;
        Ok(Reader::with_window(alloc, window, source, limits))
    }

    /// The same in a window that is given. Nothing can fail then, so the source is lent for certain.
    pub fn with_window(
        alloc: Global,
        window: Window,
        source: &'a mut S,
        limits: Limits,
    ) -> Reader<'a, S>
        requires within { IsWithin limits }
        requires fresh { window ≡ nothing_held limits.stream }
        ensures opens { Opens S.left S.faults source.old limits result }
        ensures over { standing.is_over result ≡ false }
        ensures same { standing.source_of result ≡ source.entry.ghost_name }
    {
        Reader {
            cursor: Cursor::with_window(alloc, window, source, limits),
            over: false,
        }
    }

    /// The next command, or `None` at the end of the input and after the line `done`. Each command takes
    /// at least a byte. `StreamFault::Read` comes only where the source failed in this call, and
    /// `NoMemory` only for want of memory; each other fault is the refusal of the stream at this place.
    pub fn next(&mut self) -> Result<Option<Command>, StreamFault>
        requires { standing.is_over self.old ≡ false }
        ensures reads { Reads S.left S.faults self.old self.new result command_at }
        ensures takes { TakesIfSome self.old self.new result }
        ensures over { IsOverBy result (standing.is_over self.new) }
        ensures whole { EndsWhole S.left self.new result }
    {
        let command = self.command();
        self.over = !matches!(&command, Ok(Some(_)));
        command
    }

    /// Whether `next` has answered `None` or a fault. It is not called again then.
    pub fn over(&self) -> bool
        ensures { result ≡ standing.is_over self.now }
    {
        self.over
    }

    /// A copy of what was read of the source and stands behind the line in front: behind the line `done`, where the
    /// stream ended with it.
    pub fn rest(&self) -> Result<Bytes, AllocError>
        ensures rest { IfOk result (λ rest. rest ≡ standing.rest_of self.now) }
        ensures spent { standing.IsSpent self.now }
    {
        self.cursor.rest()
    }

    /// Ends the reading and returns the source.
    pub fn close(self) -> &'a mut S
        ensures value { result.now ≡ standing.source_at self.entry }
        ensures same { result.ghost_name ≡ standing.source_of self.entry }
    {
        self.cursor.close()
    }
}
