//! Where a cursor stands.
ghost use Rattle.std.specs.Prelude.{◌≡◌, ◌≤◌, length, IfOk};
ghost use Rattle.std.specs.Option.{IfSome};
ghost use Rattle.bf_grammar.specs.Commands.{done_is_due};
ghost use Rattle.bf_grammar.specs.Limits.{IsWithin};
ghost use Rattle.bf_stream.specs.Cursor.{GoesBehindLine, HasLine, IsSpent, Opens, Reads, TakesLine, TextIs};
ghost use Rattle.bf_stream.specs.Cursor.{is_due, limits_of, line_of, place_at, rest_of};
ghost use Rattle.bf_stream.specs.Held.{nothing_held};

use crate::{Cursor, Window};
use bf_grammar::Limits;
use bf_io::{Bytes, Source};
use std::alloc::{AllocError, Global};

impl<'a, S: Source> Cursor<'a, S> {
    /// A cursor in front of what the source has from here on, whose first line is line 1.
    pub fn new(
        alloc: Global,
        source: &'a mut S,
        limits: Limits,
    ) -> Result<Cursor<'a, S>, AllocError>
        requires { IsWithin limits }
        ensures opens { IfOk result (Opens S.left S.faults source.old limits) }
        ensures same { IfOk result (λ cursor. cursor.source.ghost_name ≡ source.entry.ghost_name) }
    {
        let window = Window::new(alloc, limits.stream)?;
        Ok(Cursor::with_window(alloc, window, source, limits))
    }

    /// The same in a window that is given. Nothing can fail then, so the source is lent for certain.
    pub fn with_window(
        alloc: Global,
        window: Window,
        source: &'a mut S,
        limits: Limits,
    ) -> Cursor<'a, S>
        requires within { IsWithin limits }
        requires fresh { window ≡ nothing_held limits.stream }
        ensures opens { Opens S.left S.faults source.old limits result }
        ensures same { result.source.ghost_name ≡ source.entry.ghost_name }
    {
        Cursor {
            window,
            source,
            limits,
            alloc,
        }
    }

    /// Ends the reading and returns the source.
    pub fn close(self) -> &'a mut S
        ensures value { result.now ≡ self.entry.source.now }
        ensures same { result.ghost_name ≡ self.entry.source.ghost_name }
    {
        self.source
    }

    /// A copy of what was read of the source and stands behind the line in front.
    pub fn rest(&self) -> Result<Bytes, AllocError>
        ensures rest { IfOk result (λ rest. rest ≡ rest_of self.now) }
        ensures spent { IsSpent self.now }
    {
        self.window.rest(self.alloc)
    }

    /// The allocator of what is read.
    pub fn allocator(&self) -> Global {
        self.alloc
    }

    /// The limits on the stream.
    pub fn limits(&self) -> Limits
        ensures limits { result ≡ limits_of self.now }
        ensures within { IsWithin result }
    {
        self.limits
    }

    /// The number of the line in front, from 1.
    pub fn line_number(&self) -> u64
        ensures number { result ≡ line_of self.now }
        ensures place { IfSome (place_at S.left self.now) (λ p. result ≡ p.line) }
    {
        self.window.line_number()
    }

    /// The line in front, without its LF; of one that is not held whole, what is held.
    pub fn line(&self) -> &[u8]
        ensures text { HasLine S.left self.now → TextIs S.left self.now result.now }
        ensures short { length result.now ≤ 65536 }
    {
        self.window.line()
    }

    /// Goes behind the line in front.
    pub fn take_line(&mut self)
        ensures line { HasLine S.left self.old → TakesLine S.left S.faults self.old self.new }
        ensures cursor { GoesBehindLine self.old self.new }
    {
        self.window.take_line();
    }

    /// Whether `feature done` was read.
    pub fn is_done_due(&self) -> bool
        ensures due { result ≡ is_due self.now }
        ensures place { IfSome (place_at S.left self.now) (λ p. result ≡ p.done_due) }
    {
        self.window.is_done_due()
    }

    /// Notes that `feature done` was read.
    pub fn make_done_due(&mut self)
        ensures { Reads S.left S.faults self.old self.new (Ok tt) (λ _. done_is_due) }
    {
        self.window.make_done_due();
    }
}
