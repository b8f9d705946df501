//! Devices in memory. The scripted ones move at most so many bytes a call, and fail at the calls that
//! they are told to fail at.
ghost use Rattle.std.specs.Prelude.{◌≡◌, ◌≢◌, ℕ, ◌<◌, ◌≤◌, ◌↔◌, min, List, [], ◌++◌, length, take, drop, Some, IsTrue, IsErr, IsErrOf, IsOk, IfOk, OnOk, OnErr};
ghost use Rattle.std.specs.Io.{ReadsAtMost};
ghost use Rattle.bf_io.specs.Causes.{HasCause, FailsOnlyAt, raised};
ghost use Rattle.bf_io.specs.Told.{ReadTakes, WriteAppends, Keeps};
ghost use Rattle.bf_io.specs.Scripted.{new_device, is_among, fails_next, after_fault, after_call, given_into, after_taking};

use crate::{Bytes, Failed, Sink, SinkFault, Source};
use std::alloc::Global;
use std::marker::Model;

// Copies bytes from the front of `from` to the front of `to`, as many as there are and fit, at most
// `most`, and returns how many.
fn copy_front(from: &[u8], to: &mut [u8], most: usize) -> usize
    ensures count { result ≡ min most (min (length to.old) (length from.now)) }
    ensures copied { take result to.new ≡ take result from.now }
{
    let count = most.min(to.len().min(from.len()));
    to[..count].copy_from_slice(&from[..count]);
    count
}

// Whether the call after `calls` calls is one of those that fail.
fn call_fails(fails: &[u64], calls: u64) -> bool
    ensures { result ≡ is_among fails.now (raised calls) }
{
    fails.contains(&calls.saturating_add(1))
}

/// A source over bytes that never fails. Contracts see it as the bytes that it has left.
#[derive(Debug, Drop)]
pub struct PlainSource {
    bytes: Bytes,
    at: usize,
}

impl Model for PlainSource {
    ghost use Rattle.std.specs.Prelude.{List, ℕ, length, ◌≤◌, drop};

    ghost Value = { List ℕ };

    ghost view = { λ s. drop s.at s.bytes };

    ghost invariant = { λ s. s.at ≤ length s.bytes };
}

impl PlainSource {
    /// A source that gives these bytes.
    pub fn new(bytes: Bytes) -> PlainSource
        ensures { result ≡ bytes }
    {
        PlainSource { bytes, at: 0 }
    }
}

impl Source for PlainSource {
    ghost left = { λ s. Some s };

    ghost faults = { λ _. 0 };

    /// Gives as many bytes as are left and fit.
    fn read(&mut self, buf: &mut [u8]) -> Result<usize, Failed>
        requires { 0 < length buf.old }
        ensures bound { ReadsAtMost result buf.new }
        ensures bytes { ReadTakes (Some self.old) (Some self.new) result buf.new }
        ensures cause { HasCause 0 0 result }
        ensures count { IfOk result (λ n. n ≡ min (length buf.old) (length self.old)) }
    {
        let most = buf.len();
        let count = copy_front(&self.bytes.as_slice()[self.at..], buf, most);
        self.at += count;
        Ok(count)
    }
}

/// A source over bytes that gives at most `piece` of them a call, and fails at given calls.
#[derive(Debug, Drop)]
pub struct MemSource {
    bytes: Bytes,
    at: usize,
    piece: usize,
    fails: Vec<u64>,
    calls: u64,
    faults: u64,
}

impl Model for MemSource {
    ghost use Rattle.std.specs.Prelude.{length, ◌≤◌, ◌<◌, drop};
    ghost use Rattle.bf_io.specs.Scripted.{Scripted, device};

    ghost Value = { Scripted };

    ghost view = { λ s. device (drop s.at s.bytes) s.piece s.fails.items s.calls s.faults };

    ghost invariant = { λ s. (s.at ≤ length s.bytes) × (0 < s.piece) };
}

impl MemSource {
    /// A source that gives these bytes, at most `piece` of them a read. The reads whose numbers are in
    /// `fails` fail, counted from 1.
    pub fn new(bytes: Bytes, piece: usize, fails: Vec<u64>) -> MemSource
        requires { 0 < piece }
        ensures { result ≡ new_device bytes piece fails.items }
    {
        MemSource {
            bytes,
            at: 0,
            piece,
            fails,
            calls: 0,
            faults: 0,
        }
    }

    /// The number of reads so far.
    pub fn calls(&self) -> u64
        ensures { result ≡ self.now.calls }
    {
        self.calls
    }
}

impl Source for MemSource {
    ghost left = { λ s. Some s.bytes };

    ghost faults = { λ s. s.faults };

    /// Gives as many bytes as are left and fit, at most `piece`. It fails exactly where its number is one
    /// of those that fail.
    fn read(&mut self, buf: &mut [u8]) -> Result<usize, Failed>
        requires { 0 < length buf.old }
        ensures bound { ReadsAtMost result buf.new }
        ensures bytes { ReadTakes (Some self.old.bytes) (Some self.new.bytes) result buf.new }
        ensures cause { HasCause self.old.faults self.new.faults result }
        ensures fails { IsErr result ↔ IsTrue (fails_next self.old) }
        ensures fault { OnErr result (self.new ≡ after_fault self.old) }
        ensures count { IfOk result (λ n. n ≡ given_into (length buf.old) self.old) }
        ensures gives { IfOk result (λ n. self.new ≡ after_call self.old (drop n self.old.bytes)) }
    {
        let fails = call_fails(&self.fails, self.calls);
        self.calls = self.calls.saturating_add(1);
        if fails {
            self.faults = self.faults.saturating_add(1);
            return Err(Failed);
        }
        let count = copy_front(&self.bytes.as_slice()[self.at..], buf, self.piece);
        self.at += count;
        Ok(count)
    }
}

/// A sink that holds all it takes and never fails. Contracts see it as the bytes that it holds.
#[derive(Debug, Drop)]
pub struct PlainSink {
    bytes: Bytes,
}

impl Model for PlainSink {
    ghost use Rattle.std.specs.Prelude.{List, ℕ};

    ghost Value = { List ℕ };

    ghost view = { λ s. s.bytes };
}

impl PlainSink {
    /// A sink that holds nothing yet. It takes no memory.
    pub fn new(alloc: Global) -> PlainSink
        ensures { result ≡ [] }
    {
        PlainSink {
            bytes: Bytes::new(alloc),
        }
    }

    /// The bytes that it holds.
    pub fn bytes(&self) -> &[u8]
        ensures { result.now ≡ self.now }
    {
        self.bytes.as_slice()
    }

    /// The bytes that it held, handed over.
    pub fn into_bytes(self) -> Bytes
        ensures { result ≡ self }
    {
        self.bytes
    }
}

impl Sink for PlainSink {
    ghost held = { λ s. Some s };

    ghost faults = { λ _. 0 };

    /// Takes the whole piece, or nothing for want of memory.
    fn write(&mut self, piece: &[u8]) -> Result<usize, SinkFault>
        requires { 0 < length piece.now }
        ensures bound { IfOk result (λ n. (0 < n) × (n ≤ length piece.now)) }
        ensures bytes { WriteAppends (Some self.old) (Some self.new) result piece.now }
        ensures cause { FailsOnlyAt SinkFault.Failed 0 0 result }
        ensures memory { IsErrOf result SinkFault.NoMemory → self.new ≡ self.old }
        ensures count { IfOk result (λ n. n ≡ length piece.now) }
    {
        self.bytes.append(piece)?;
        Ok(piece.len())
    }

    /// Does nothing.
    fn flush(&mut self) -> Result<(), SinkFault>
        ensures bytes { Keeps (Some self.old) (Some self.new) }
        ensures cause { FailsOnlyAt SinkFault.Failed 0 0 result }
        ensures ok { IsOk result }
        ensures same { self.new ≡ self.old }
    {
        Ok(())
    }
}

/// A sink that holds all it takes, at most `piece` bytes a write, and fails at given calls.
#[derive(Debug, Drop)]
pub struct MemSink {
    bytes: Bytes,
    piece: usize,
    fails: Vec<u64>,
    calls: u64,
    faults: u64,
}

impl Model for MemSink {
    ghost use Rattle.std.specs.Prelude.{◌<◌};
    ghost use Rattle.bf_io.specs.Scripted.{Scripted, device};

    ghost Value = { Scripted };

    ghost view = { λ s. device s.bytes s.piece s.fails.items s.calls s.faults };

    ghost invariant = { λ s. 0 < s.piece };
}

impl MemSink {
    /// A sink that takes at most `piece` bytes a write. The calls whose numbers are in `fails` fail;
    /// writes and flushes are counted together from 1, and a call that answers want of memory isn't
    /// counted. It takes no memory.
    pub fn new(alloc: Global, piece: usize, fails: Vec<u64>) -> MemSink
        requires { 0 < piece }
        ensures { result ≡ new_device [] piece fails.items }
    {
        MemSink {
            bytes: Bytes::new(alloc),
            piece,
            fails,
            calls: 0,
            faults: 0,
        }
    }

    /// The number of writes and flushes so far.
    pub fn calls(&self) -> u64
        ensures { result ≡ self.now.calls }
    {
        self.calls
    }

    /// The bytes that it holds.
    pub fn bytes(&self) -> &[u8]
        ensures { result.now ≡ self.now.bytes }
    {
        self.bytes.as_slice()
    }

    /// The bytes that it held, handed over.
    pub fn into_bytes(self) -> Bytes
        ensures { result ≡ self.bytes }
    {
        self.bytes
    }
}

impl Sink for MemSink {
    ghost held = { λ s. Some s.bytes };

    ghost faults = { λ s. s.faults };

    /// Takes at most `piece` bytes. It fails exactly where its number is one of those that fail.
    fn write(&mut self, piece: &[u8]) -> Result<usize, SinkFault>
        requires { 0 < length piece.now }
        ensures bound { IfOk result (λ n. (0 < n) × (n ≤ length piece.now)) }
        ensures bytes { WriteAppends (Some self.old.bytes) (Some self.new.bytes) result piece.now }
        ensures cause { FailsOnlyAt SinkFault.Failed self.old.faults self.new.faults result }
        ensures memory { IsErrOf result SinkFault.NoMemory → self.new ≡ self.old }
        ensures fails { IsErrOf result SinkFault.Failed ↔ IsTrue (fails_next self.old) }
        ensures fault { IsErrOf result SinkFault.Failed → self.new ≡ after_fault self.old }
        ensures count { IfOk result (λ n. n ≡ min self.old.piece (length piece.now)) }
        ensures takes { IfOk result (λ n. self.new ≡ after_taking self.old n piece.now) }
    {
        if call_fails(&self.fails, self.calls) {
            self.calls = self.calls.saturating_add(1);
            self.faults = self.faults.saturating_add(1);
            return Err(SinkFault::Failed);
        }
        let count = self.piece.min(piece.len());
        self.bytes.append(&piece[..count])?;
        self.calls = self.calls.saturating_add(1);
        Ok(count)
    }

    /// Does nothing. It fails exactly where its number is one of those that fail.
    fn flush(&mut self) -> Result<(), SinkFault>
        ensures bytes { Keeps (Some self.old.bytes) (Some self.new.bytes) }
        ensures cause { FailsOnlyAt SinkFault.Failed self.old.faults self.new.faults result }
        ensures memory { result ≢ Err SinkFault.NoMemory }
        ensures fails { IsErr result ↔ IsTrue (fails_next self.old) }
        ensures fault { OnErr result (self.new ≡ after_fault self.old) }
        ensures keeps { OnOk result (self.new ≡ after_call self.old self.old.bytes) }
    {
        let fails = call_fails(&self.fails, self.calls);
        self.calls = self.calls.saturating_add(1);
        if fails {
            self.faults = self.faults.saturating_add(1);
            return Err(SinkFault::Failed);
        }
        Ok(())
    }
}
