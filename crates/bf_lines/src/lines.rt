//! The lines of a source.
ghost use Rattle.std.specs.Prelude.{◌≡◌, ◌<◌, ◌≤◌, ◌+◌, ◌-◌, ◌++◌, min, IsTrue, IsErrOf};
ghost use Rattle.std.specs.Prelude.{length, take, drop, vec_len, IfOk, OnErr, OnOk};
ghost use Rattle.std.specs.List.{list_any};
ghost use Rattle.bf_io.specs.Causes.{FailsOnlyAt, HasCause};
ghost use Rattle.bf_lines.specs.Lines.{Fills, IsEnd, IsFound, KeepsPart, Loses, NextIs, Passes};
ghost use Rattle.bf_lines.specs.Lines.{ReadsBehind, Stays, is_end, long_if, told};

use crate::ServeFault;
use bf_io::{Bytes, Failed, Source};
use memchr::memchr;
use std::alloc::AllocError;
use std::marker::Model;

/// The most bytes that a line may have.
const MOST: usize = 65_535;

/// The least room for bytes that are held. A line with its LF fits in.
const ROOM: usize = 65_536;

/// A line that was read.
#[derive(Clone, Copy, Debug, PartialEq, Eq)]
pub enum Length {
    /// A line of at most 65,535 bytes.
    Short,
    /// A line of more bytes, which was passed over.
    Long,
}

/// What stands in front.
#[derive(Clone, Copy)]
enum Found {
    /// No line: no LF is left.
    Nothing,
    /// A line of so many bytes and its LF, all of which are held.
    Line(usize),
    /// More bytes without LF than a line may have.
    Long,
}

/// The bytes that were read from a source and not yet taken, from which its lines are read on. Each line ends with LF;
/// bytes behind the last LF are of a line that was torn, and is none. Contracts see it as the bytes that are held.
#[derive(Drop)]
pub struct Lines {
    buf: Vec<u8>,
    start: usize,
    end: usize,
}

impl Model for Lines {
    ghost use Rattle.std.specs.Prelude.{List, ℕ};
    ghost use Rattle.bf_lines.specs.Held.{held_bytes, IsSound};

    ghost Value = { List ℕ };

    ghost view = { held_bytes };

    ghost invariant = { IsSound };
}

impl Lines {
    /// In front of these bytes, and then of what a source has left.
    pub fn new(held: Bytes) -> Result<Lines, AllocError>
        ensures { IfOk result (λ lines. lines ≡ held) }
    {
        let end = held.len();
        let buf = with_room(held.into_vec())?;
        Ok(Lines { buf, start: 0, end })
    }

    /// Reads the next line into `line`, without its LF, and returns whether it is short; of a long one `line` is left
    /// empty. `None` comes where no LF is left: the bytes of a torn line are then dropped. Where a whole line is held,
    /// nothing is read of the source, and no read is waited for that the line does not need. After a fault at most a
    /// front of the line in front is lost.
    pub fn next_line<S: Source>(
        &mut self,
        source: &mut S,
        line: &mut Bytes,
    ) -> Result<Option<Length>, ServeFault>
        ensures next { let all = told self.old (S.left source.old) in
            IfOk result (NextIs all (told self.new (S.left source.new)) line.new) }
        ensures short { OnOk result (length line.new ≤ 65535) }
        ensures held { IsTrue (list_any is_end self.old) → source.new ≡ source.old }
        ensures lost { let all = told self.old (S.left source.old) in
            OnErr result (Loses all (told self.new (S.left source.new))) }
        ensures cause { FailsOnlyAt ServeFault.Read
            (S.faults source.old) (S.faults source.new) result }
        ensures no_write { IsErrOf result ServeFault.Write → ⊥ }
    {
        line.clear();
        match self.find(source)? {
            Found::Nothing => {
                let torn = self.bytes().len();
                self.take_line(torn);
                Ok(None)
            }
            Found::Line(size) => {
                self.copy_line(size, line)?;
                Ok(Some(Length::Short))
            }
            Found::Long => Ok(long_line(self.pass_line(source)?)),
        }
    }

    /// Takes the line of so many bytes that is in front, behind those of `line`. After an error all is as before.
    fn copy_line(&mut self, size: usize, line: &mut Bytes) -> Result<(), AllocError>
        requires { size ≤ length self.old }
        ensures line { OnOk result (line.new ≡ line.old ++ take size self.old) }
        ensures behind { OnOk result (self.new ≡ drop (size + 1) self.old) }
        ensures same { OnErr result (self.new ≡ self.old) }
    {
        line.append(&self.bytes()[..size])?;
        self.take_line(size);
        Ok(())
    }

    /// The bytes that are held.
    fn bytes(&self) -> &[u8]
        ensures { result.now ≡ self.now }
    {
        &self.buf[self.start..self.end]
    }

    /// Finds what stands in front, and reads as much as this takes.
    fn find<S: Source>(&mut self, source: &mut S) -> Result<Found, Failed>
        ensures found { IfOk result (IsFound self.new (S.left source.new)) }
        ensures stays { Stays S.left self.old source.old self.new source.new }
        ensures held { IsTrue (list_any is_end self.old) → source.new ≡ source.old }
        ensures same { IsTrue (list_any is_end self.old) → self.new ≡ self.old }
        ensures cause { HasCause (S.faults source.old) (S.faults source.new) result }
    {
        'reads: loop {
            let bytes = self.bytes();
            let held = bytes.len();
            let end = end_of_line(bytes);
            if end > MOST {
                return Ok(Found::Long);
            }
            if end < held {
                return Ok(Found::Line(end));
            }
            let count = self.fill(source)?;
            if count == 0 {
                return Ok(Found::Nothing);
            }
        }
    }

    /// Goes behind a line of so many bytes, and its LF where it has one.
    fn take_line(&mut self, size: usize)
        requires { size ≤ length self.old }
        ensures { self.new ≡ drop (size + 1) self.old }
    {
        let held = self.end - self.start;
        self.start += behind(size, held);
    }

    /// Goes behind the line in front, however long it is, and returns whether it ended: where no LF is left, all is
    /// dropped. A line in more pieces than a number of 64 bits counts is taken for want of memory.
    fn pass_line<S: Source>(&mut self, source: &mut S) -> Result<bool, ServeFault>
        ensures passes { let all = told self.old (S.left source.old) in
            IfOk result (Passes all (told self.new (S.left source.new))) }
        ensures lost { let all = told self.old (S.left source.old) in
            OnErr result (Loses all (told self.new (S.left source.new))) }
        ensures held { IsTrue (list_any is_end self.old) → source.new ≡ source.old }
        ensures cause { FailsOnlyAt ServeFault.Read
            (S.faults source.old) (S.faults source.new) result }
        ensures no_write { IsErrOf result ServeFault.Write → ⊥ }
    {
        'pieces: for _ in 0..u64::MAX {
            let bytes = self.bytes();
            let held = bytes.len();
            let end = end_of_line(bytes);
            self.take_line(end);
            if end < held {
                return Ok(true);
            }
            let count = self.fill(source)?;
            if count == 0 {
                return Ok(false);
            }
        }
        Err(ServeFault::NoMemory)
    }

    /// Reads once from the source, behind the bytes that are held, and returns how many bytes came.
    fn fill<S: Source>(&mut self, source: &mut S) -> Result<usize, Failed>
        requires { length self.old < 65536 }
        ensures bytes { Fills self.old self.new (S.left source.old) (S.left source.new) result }
        ensures cause { HasCause (S.faults source.old) (S.faults source.new) result }
    {
        let held = self.end - self.start;
        let start = make_room(&mut self.buf, self.start, self.end);
        let end = start + held;
        self.start = start;
        self.end = end;
        let most = self.buf.len() - end;
        let count = read_behind(source, &mut self.buf, end, most)?;
        self.end = end + count;
        Ok(count)
    }
}

/// The same bytes, and room behind them where there is less than the least.
fn with_room(bytes: Vec<u8>) -> Result<Vec<u8>, AllocError>
    ensures same { IfOk result (λ buf. take (length bytes.items) buf.items ≡ bytes.items) }
    ensures within { IfOk result (λ buf. length bytes.items ≤ vec_len buf) }
    ensures room { IfOk result (λ buf. 65536 ≤ vec_len buf) }
{
    let mut buf = bytes;
    if buf.len() >= ROOM {
        return Ok(buf);
    }
    buf.resize(ROOM, 0)?;
    Ok(buf)
}

/// The length of a line with its LF, where it ends among so many bytes; else all of them.
fn behind(size: usize, held: usize) -> usize
    requires { size ≤ held }
    ensures { result ≡ min (size + 1) held }
{
    if size < held { size + 1 } else { held }
}

/// What is told of a line that was passed over, where it ended.
fn long_line(ended: bool) -> Option<Length>
    ensures { result ≡ long_if ended }
{
    if ended { Some(Length::Long) } else { None }
}

/// The index of the first LF, or the length where there is none.
fn end_of_line(bytes: &[u8]) -> usize
    ensures { IsEnd bytes.now result }
{
    match memchr(b'\n', bytes) {
        Some(at) => at,
        None => bytes.len(),
    }
}

/// Sees that there is room behind a part of the buffer, by moving it to the front where there is more room in front of it
/// than behind. Answers where the part begins then.
fn make_room(buf: &mut Vec<u8>, start: usize, end: usize) -> usize
    requires order { start ≤ end }
    requires within { end ≤ vec_len buf.old }
    requires room { end - start < vec_len buf.old }
    ensures part { KeepsPart (end - start) start buf.old.items result buf.new.items }
    ensures room { result + (end - start) < vec_len buf.new }
    ensures len { vec_len buf.new ≡ vec_len buf.old }
{
    if start < end && start <= buf.len() - end {
        return start;
    }
    buf.copy_within(start..end, 0);
    0
}

/// Reads at most so many bytes, and at least one where there is one, into a buffer at a place.
fn read_behind<S: Source>(
    source: &mut S,
    buf: &mut Vec<u8>,
    at: usize,
    most: usize,
) -> Result<usize, Failed>
    requires some { 0 < most }
    requires within { at + most ≤ vec_len buf.old }
    ensures bound { IfOk result (λ count. count ≤ most) }
    ensures bytes { ReadsBehind at (S.left source.old) (S.left source.new) result buf.new.items }
    ensures before { take at buf.new.items ≡ take at buf.old.items }
    ensures len { vec_len buf.new ≡ vec_len buf.old }
    ensures cause { HasCause (S.faults source.old) (S.faults source.new) result }
{
    source.read(&mut buf[at..at + most])
}
