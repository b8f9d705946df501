//! The window.
ghost use Rattle.std.specs.Prelude.{◌≡◌, ◌+◌, ◌-◌, ◌≤◌, ◌<◌, ◌^◌, [], ◌∷◌, length, take, true, false, vec_len, IfOk, OnOk, if◌then◌else◌};
ghost use Rattle.std.specs.List.{position_or_len};
ghost use Rattle.std.specs.Option.{IfSome, option_to_list};
ghost use Rattle.bf_grammar.specs.Lines.{front_line, is_text};
ghost use Rattle.bf_grammar.specs.Place.{is_end_of_line};
ghost use Rattle.bf_io.specs.Causes.{HasCause};
ghost use Rattle.bf_stream.specs.Filling.{Fills, IsReady, KeepsPart, ReadsBehind};
ghost use Rattle.bf_stream.specs.Held.{GoesPast, IsLineOf, IsPlain, IsSpent, KeepsBeyond, Stays, StaysBeyond};
ghost use Rattle.bf_stream.specs.Window.{is_seen};
ghost use Rattle.bf_stream.specs.Held.{advanced, moved_held, nothing_held, past_held_line, remaining, rest_in};

use crate::text::{count_lines, end_of_line, with_end_of_line};
use bf_forms::is_text;
use bf_io::{Bytes, Failed, Source};
use std::alloc::{AllocError, Global};
use std::marker::Model;

/// The most bytes that a window holds. A line with its LF fits in.
const CAPACITY: usize = 65_536;

/// What one more read gave.
#[derive(Clone, Copy)]
pub(crate) enum Filled {
    /// Some bytes.
    More,
    /// The source is at its end.
    End,
    /// All bytes within the limit on the stream are held, and the source has more.
    Past,
}

/// A window over a source: the bytes that were read and not yet taken.
#[derive(Drop)]
pub struct Window {
    buf: Vec<u8>,
    start: usize,
    end: usize,
    // So many bytes in front are known to have no LF.
    known: usize,
    // They are known to be a line, which is no comment. Its LF is held.
    plain: bool,
    line: u64,
    quota: u64,
    // The byte behind the limit, where it was seen.
    beyond: Option<u8>,
    // Whether `feature done` was read, which a place of the definition has too.
    done_due: bool,
}

impl Model for Window {
    ghost use Rattle.bf_stream.specs.Held.{Held};

    ghost Value = { Held };

    ghost use Rattle.bf_stream.specs.Window.{held_in, IsSound};

    ghost view = { held_in };

    ghost invariant = { IsSound };
}

impl Window {
    /// A window over a source of which at most so many bytes are read.
    pub fn new(alloc: Global, limit: u64) -> Result<Window, AllocError>
        requires { limit ≤ 2 ^ 61 }
        ensures { IfOk result (λ window. window ≡ nothing_held limit) }
    {
        let buf = vec![in alloc; 0u8; CAPACITY]?;
        Ok(Window {
            buf,
            start: 0,
            end: 0,
            known: 0,
            plain: false,
            line: 1,
            quota: limit,
            beyond: None,
            done_due: false,
        })
    }

    /// The number of the line in front, from 1.
    pub(crate) fn line_number(&self) -> u64
        ensures { result ≡ self.now.line }
    {
        self.line
    }

    /// The bytes that are held.
    pub(crate) fn bytes(&self) -> &[u8]
        ensures bytes { result.now ≡ self.now.bytes }
        ensures short { length result.now ≤ 65536 }
    {
        &self.buf[self.start..self.end]
    }

    /// The line in front, without its LF.
    pub(crate) fn line(&self) -> &[u8]
        ensures held { result.now ≡ front_line self.now.bytes }
        ensures text { IsLineOf self.now result.now }
        ensures short { length result.now ≤ 65536 }
    {
        let bytes = self.bytes();
        let end = end_of_line(bytes, self.known);
        &bytes[..end]
    }

    /// So many bytes in front that are known to have no LF.
    pub(crate) fn known(&self) -> usize
        ensures { result ≤ position_or_len is_end_of_line self.now.bytes }
    {
        self.known
    }

    /// Notes that the line in front has this length and that its LF is held, so that it is not searched
    /// again.
    pub(crate) fn note_line(&mut self, size: usize)
        requires line { size ≡ position_or_len is_end_of_line self.old.bytes }
        requires ended { size < length self.old.bytes }
        ensures { self.new ≡ self.old }
    {
        let plain = self.bytes()[0] != b'#';
        self.known = size;
        self.plain = plain;
    }

    /// Finds the line in front, where its LF is held, so that it is not searched again.
    #[inline]
    pub(crate) fn find_line(&mut self)
        ensures { self.new ≡ self.old }
    {
        if !self.plain {
            self.search_line();
        }
    }

    /// The same, by a search.
    #[inline(never)]
    fn search_line(&mut self)
        ensures { self.new ≡ self.old }
    {
        let bytes = self.bytes();
        let held = bytes.len();
        let end = end_of_line(bytes, self.known);
        if end < held {
            self.note_line(end);
        }
    }

    /// The line in front, where it was found before, its LF is held and it is no comment.
    #[inline]
    pub(crate) fn plain_line(&self) -> Option<&[u8]>
        ensures { IfSome result (λ line. IsPlain self.now.bytes line.now) }
    {
        if !self.plain {
            return None;
        }
        Some(&self.bytes()[..self.known])
    }

    /// Goes behind the line in front.
    pub(crate) fn take_line(&mut self)
        ensures held { self.new ≡ past_held_line self.old }
        ensures place { GoesPast self.old self.new }
        ensures beyond { KeepsBeyond self.old self.new }
    {
        let bytes = self.bytes();
        let held = bytes.len();
        let end = end_of_line(bytes, self.known);
        if end < held {
            self.advance(end + 1, 1);
        } else {
            self.advance(held, 0);
        }
    }

    /// Goes behind the line in front, which is held whole, where it is this text.
    pub(crate) fn take_line_if(&mut self, text: &[u8]) -> bool
        ensures test { result ≡ is_text text.now (front_line self.old.bytes) }
        ensures held { self.new ≡ (if result then past_held_line self.old else self.old) }
        ensures beyond { KeepsBeyond self.old self.new }
        ensures turns { remaining self.new ≤ remaining self.old }
    {
        if is_text(text, self.line()) {
            self.take_line();
            return true;
        }
        false
    }

    /// Goes so many bytes further on, among which are so many LFs.
    fn advance(&mut self, count: usize, lines: usize)
        requires within { count ≤ length self.old.bytes }
        requires lines { lines ≤ count }
        ensures { self.new ≡ advanced count lines self.old }
    {
        self.start += count;
        self.known = 0;
        self.plain = false;
        self.line += lines as u64;
    }

    /// Goes so many bytes further on.
    pub(crate) fn take(&mut self, count: usize)
        requires { count ≤ length self.old.bytes }
        ensures { self.new ≡ moved_held count self.old }
    {
        let lines = count_lines(&self.bytes()[..count]);
        self.advance(count, lines);
    }

    /// Reads once from the source, into the room behind the bytes that are held. Of the source no more is
    /// taken than the limit allows, but for one byte behind it, which tells that the stream is longer.
    pub(crate) fn fill<S: Source>(&mut self, source: &mut S) -> Result<Filled, Failed>
        requires { length self.old.bytes < 65536 }
        ensures filled { Fills self.old self.new (S.left source.new) result }
        ensures place { OnOk result (Stays S.left self.old source.old self.new source.new) }
        ensures beyond { StaysBeyond S.left self.old source.old self.new source.new }
        ensures cause { HasCause (S.faults source.old) (S.faults source.new) result }
    {
        if self.quota == 0 {
            return self.look_past(source);
        }
        self.known = 0;
        self.plain = false;
        let held = self.end - self.start;
        let start = make_room(&mut self.buf, self.start, self.end);
        let end = start + held;
        self.start = start;
        self.end = end;
        let most = (self.buf.len() - end).min(self.quota as usize);
        let count = read_behind(source, &mut self.buf, end, most)?;
        if count == 0 {
            return Ok(Filled::End);
        }
        self.end = end + count;
        self.quota -= count as u64;
        Ok(Filled::More)
    }

    /// Sees that a byte is held, where there is one.
    pub(crate) fn fill_if_empty<S: Source>(&mut self, source: &mut S) -> Result<Filled, Failed>
        ensures ready { IsReady self.new (S.left source.new) result }
        ensures place { OnOk result (Stays S.left self.old source.old self.new source.new) }
        ensures beyond { StaysBeyond S.left self.old source.old self.new source.new }
        ensures turns { remaining self.new ≤ remaining self.old }
        ensures cause { HasCause (S.faults source.old) (S.faults source.new) result }
    {
        if !self.bytes().is_empty() {
            return Ok(Filled::More);
        }
        self.fill(source)
    }

    /// A copy of the bytes that were read and stand behind the line in front.
    pub(crate) fn rest(&self, alloc: Global) -> Result<Bytes, AllocError>
        ensures rest { IfOk result (λ rest. rest ≡ rest_in self.now) }
        ensures spent { IsSpent self.now }
    {
        let bytes = self.bytes();
        let end = end_of_line(bytes, self.known);
        let behind = with_end_of_line(end, bytes.len());
        let mut rest = Bytes::from_slice(alloc, &bytes[behind..])?;
        match self.beyond() {
            None => Ok(rest),
            Some(byte) => {
                rest.push(byte)?;
                Ok(rest)
            }
        }
    }

    /// The byte behind the limit on the stream, where it was seen.
    fn beyond(&self) -> Option<u8>
        ensures beyond { option_to_list result ≡ self.now.beyond }
        ensures past { is_seen result ≡ self.now.past }
        ensures spent { IsSpent self.now }
    {
        self.beyond
    }

    /// Notes that a byte behind the limit on the stream was seen.
    fn note_beyond(&mut self, byte: u8)
        requires { self.old.quota ≡ 0 }
        ensures { self.new ≡ record self.old { past = true; beyond = byte ∷ [] } }
    {
        self.beyond = Some(byte);
    }

    /// Looks whether the source has a byte behind the limit on the stream.
    fn look_past<S: Source>(&mut self, source: &mut S) -> Result<Filled, Failed>
        requires { self.old.quota ≡ 0 }
        ensures filled { Fills self.old self.new (S.left source.new) result }
        ensures place { OnOk result (Stays S.left self.old source.old self.new source.new) }
        ensures beyond { StaysBeyond S.left self.old source.old self.new source.new }
        ensures cause { HasCause (S.faults source.old) (S.faults source.new) result }
    {
        match self.beyond() {
            Some(_) => Ok(Filled::Past),
            None => self.see_past(source),
        }
    }

    /// The same, where no byte behind the limit was seen yet.
    fn see_past<S: Source>(&mut self, source: &mut S) -> Result<Filled, Failed>
        requires spent { self.old.quota ≡ 0 }
        requires nothing { self.old.beyond ≡ [] }
        requires within { self.old.past ≡ false }
        ensures filled { Fills self.old self.new (S.left source.new) result }
        ensures place { OnOk result (Stays S.left self.old source.old self.new source.new) }
        ensures beyond { StaysBeyond S.left self.old source.old self.new source.new }
        ensures cause { HasCause (S.faults source.old) (S.faults source.new) result }
    {
        let mut next = [0u8];
        let count = source.read(&mut next)?;
        if count == 0 {
            return Ok(Filled::End);
        }
        self.note_beyond(next[0]);
        Ok(Filled::Past)
    }

    /// Whether `feature done` was read.
    pub(crate) fn is_done_due(&self) -> bool
        ensures { result ≡ self.now.done_due }
    {
        self.done_due
    }

    /// Notes that `feature done` was read.
    pub(crate) fn make_done_due(&mut self)
        ensures { self.new ≡ record self.old { done_due = true } }
    {
        self.done_due = true;
    }
}

/// Sees that there is room behind a part of the buffer, by moving it to the front where there is more room in
/// front of it than behind. Answers where the part begins then.
fn make_room(buf: &mut Vec<u8>, start: usize, end: usize) -> usize
    requires order { start ≤ end }
    requires within { end ≤ vec_len buf.old }
    requires room { end - start < vec_len buf.old }
    ensures part { KeepsPart (end - start) start buf.old.items result buf.new.items }
    ensures room { result + (end - start) < vec_len buf.new }
    ensures len { vec_len buf.new ≡ vec_len buf.old }
{
    if start < end && start <= buf.len() - end {
        return start;
    }
    buf.copy_within(start..end, 0);
    0
}

/// Reads at most so many bytes, and at least one where there is one, into a buffer at a place.
fn read_behind<S: Source>(
    source: &mut S,
    buf: &mut Vec<u8>,
    at: usize,
    most: usize,
) -> Result<usize, Failed>
    requires some { 0 < most }
    requires within { at + most ≤ vec_len buf.old }
    ensures bound { IfOk result (λ count. count ≤ most) }
    ensures bytes { ReadsBehind at (S.left source.old) (S.left source.new) result buf.new.items }
    ensures before { take at buf.new.items ≡ take at buf.old.items }
    ensures len { vec_len buf.new ≡ vec_len buf.old }
    ensures cause { HasCause (S.faults source.old) (S.faults source.new) result }
{
    source.read(&mut buf[at..at + most])
}
