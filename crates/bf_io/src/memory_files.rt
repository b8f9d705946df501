//! Shelves in memory. The scripted one fails at the loads that it is told to fail at.
ghost use Rattle.std.specs.Prelude.{◌≡◌, ◌≢◌, ℕ, ◌≤◌, ◌↔◌, length, Some, IsTrue, IsErrOf, IfOk, Err};
ghost use Rattle.std.specs.Option.{option_map};
ghost use Rattle.bf_io.specs.Causes.{FailsOnlyAt, raised};
ghost use Rattle.bf_io.specs.Scripted.{is_among};
ghost use Rattle.bf_io.specs.declared.shelf.LoadFault.{LoadFault};
ghost use Rattle.bf_io.specs.Files.{IsAnswered, LoadGives, file_named};
ghost use Rattle.bf_io.specs.ScriptedFiles.{scripted_shelf, fails_next, after_load, after_fault};

use crate::{Bytes, LoadFault, Shelf, ShelfFile};
use std::marker::Model;

// The first file of this name.
fn find_file<'a>(files: &'a [ShelfFile], name: &[u8]) -> Option<&'a ShelfFile>
    ensures { option_map (λ file. file.now) result ≡ file_named files.now name.now }
{
    files.iter().find(|file| file.name.as_slice() == name)
}

// A copy of the first file of this name, where it has at most `max` bytes.
fn copy_of(files: &[ShelfFile], name: &[u8], max: u32) -> Result<Bytes, LoadFault>
    ensures due { LoadGives (Some files.now) name.now max result }
    ensures reads { result ≢ Err LoadFault.Failed }
{
    match find_file(files, name) {
        None => Err(LoadFault::Missing),
        Some(file) if file.bytes.len() > max as usize => Err(LoadFault::TooLong),
        Some(file) => Ok(file.bytes.try_clone()?),
    }
}

// Whether the load after `calls` loads is one of those that fail.
fn call_fails(fails: &[u64], calls: u64) -> bool
    ensures { result ≡ is_among fails.now (raised calls) }
{
    fails.contains(&calls.saturating_add(1))
}

/// A shelf that never fails. Contracts see it as its files.
#[derive(Debug, Drop)]
pub struct PlainShelf {
    files: Vec<ShelfFile>,
}

impl Model for PlainShelf {
    ghost use Rattle.std.specs.Prelude.{List};
    ghost use Rattle.bf_io.specs.declared.shelf.ShelfFile.{ShelfFile};

    ghost Value = { List ShelfFile };

    ghost view = { λ s. s.files.items };
}

impl PlainShelf {
    /// A shelf that has these files. Of files of one name the first counts.
    pub fn new(files: Vec<ShelfFile>) -> PlainShelf
        ensures { result ≡ files.items }
    {
        PlainShelf { files }
    }
}

impl Shelf for PlainShelf {
    ghost files = { λ s. Some s };

    ghost faults = { λ _. 0 };

    /// A copy of the file.
    fn load(&mut self, name: &[u8], max: u32) -> Result<Bytes, LoadFault>
        ensures files { Some self.new ≡ Some self.old }
        ensures bound { IfOk result (λ bytes. length bytes ≤ max) }
        ensures bytes { LoadGives (Some self.old) name.now max result }
        ensures cause { FailsOnlyAt LoadFault.Failed 0 0 result }
        ensures memory { IsErrOf result LoadFault.NoMemory → self.new ≡ self.old }
    {
        copy_of(&self.files, name, max)
    }
}

/// A shelf that fails at given loads.
#[derive(Debug, Drop)]
pub struct MemShelf {
    files: Vec<ShelfFile>,
    fails: Vec<u64>,
    calls: u64,
    faults: u64,
}

impl Model for MemShelf {
    ghost use Rattle.bf_io.specs.ScriptedFiles.{ScriptedShelf, scripted_shelf};

    ghost Value = { ScriptedShelf };

    ghost view = { λ s. scripted_shelf s.files.items s.fails.items s.calls s.faults };
}

impl MemShelf {
    /// A shelf that has these files. Of files of one name the first counts. The loads whose numbers are in
    /// `fails` fail, counted from 1; one that answers want of memory isn't counted.
    pub fn new(files: Vec<ShelfFile>, fails: Vec<u64>) -> MemShelf
        ensures { result ≡ scripted_shelf files.items fails.items 0 0 }
    {
        MemShelf {
            files,
            fails,
            calls: 0,
            faults: 0,
        }
    }

    /// The number of loads so far.
    pub fn calls(&self) -> u64
        ensures { result ≡ self.now.calls }
    {
        self.calls
    }
}

impl Shelf for MemShelf {
    ghost files = { λ s. Some s.files };

    ghost faults = { λ s. s.faults };

    /// A copy of the file. It fails exactly where its number is one of those that fail.
    fn load(&mut self, name: &[u8], max: u32) -> Result<Bytes, LoadFault>
        ensures files { Some self.new.files ≡ Some self.old.files }
        ensures bound { IfOk result (λ bytes. length bytes ≤ max) }
        ensures bytes { LoadGives (Some self.old.files) name.now max result }
        ensures cause { FailsOnlyAt LoadFault.Failed self.old.faults self.new.faults result }
        ensures memory { IsErrOf result LoadFault.NoMemory → self.new ≡ self.old }
        ensures fails { IsErrOf result LoadFault.Failed ↔ IsTrue (fails_next self.old) }
        ensures fault { IsErrOf result LoadFault.Failed → self.new ≡ after_fault self.old }
        ensures answers { IsAnswered result → self.new ≡ after_load self.old }
    {
        if call_fails(&self.fails, self.calls) {
            self.calls = self.calls.saturating_add(1);
            self.faults = self.faults.saturating_add(1);
            return Err(LoadFault::Failed);
        }
        let answer = copy_of(&self.files, name, max);
        if !matches!(answer, Err(LoadFault::NoMemory)) {
            self.calls = self.calls.saturating_add(1);
        }
        answer
    }
}
