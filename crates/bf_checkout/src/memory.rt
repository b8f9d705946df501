//! A folder in memory, which fails at the calls that it is told to fail at.
ghost use Rattle.std.specs.Prelude.{◌≡◌, ℕ, ◌↔◌, ◌++◌, List, [], Option, Some, codes, find, IsTrue, IsErr, IsErrOf, IfOk, OnOk, OnErr};
ghost use Rattle.std.specs.Option.{is_some, option_map};
ghost use Rattle.bf_io.specs.Causes.{FailsOnlyAt, raised};
ghost use Rattle.bf_io.specs.Scripted.{is_among};
ghost use Rattle.bf_tester.specs.Grounds.{File};
ghost use Rattle.bf_checkout.specs.Folders.{HasRoomAt};
ghost use Rattle.bf_checkout.specs.Stored.{new_folder, renewed, fails_next, after_fault, after_call, after_put, is_same_path, bytes_at};

use crate::folder::{Folder, FolderFault};
use bf_io::Bytes;
use bf_paths::Path;
use std::alloc::{AllocError, Global};
use std::marker::Model;

/// A file that stands in a folder.
#[derive(Drop)]
struct StoredFile {
    path: Path,
    bytes: Bytes,
}

impl Model for StoredFile {
    ghost use Rattle.bf_tester.specs.Grounds.{File};

    ghost Value = { File };

    ghost view = { λ f. record { path = f.path; bytes = f.bytes } };
}

impl StoredFile {
    /// Whether the file stands at this path.
    fn is_at(&self, path: &Path) -> bool
        ensures { result ≡ is_same_path self.now.path path.now }
    {
        self.path.components() == path.components()
    }

    /// The bytes of the file.
    fn bytes(&self) -> &[u8]
        ensures { result.now ≡ self.now.bytes }
    {
        self.bytes.as_slice()
    }
}

/// The first file at a path.
fn find_file<'a>(files: &'a [StoredFile], path: &Path) -> Option<&'a StoredFile>
    ensures { option_map (λ file. file.now) result
        ≡ find (λ file. is_same_path file.path path.now) files.now }
{
    files.iter().find(|file| file.is_at(path))
}

/// Whether the call after so many calls is one of those that fail.
fn call_fails(fails: &[u64], calls: u64) -> bool
    ensures { result ≡ is_among fails.now (raised calls) }
{
    fails.contains(&calls.saturating_add(1))
}

/// A folder in memory, which tells its files. Its name is `mem`.
#[derive(Drop)]
pub struct MemFolder {
    alloc: Global,
    files: Vec<StoredFile>,
    fails: Vec<u64>,
    calls: u64,
    faults: u64,
    moves: u64,
}

impl Model for MemFolder {
    ghost use Rattle.bf_checkout.specs.Stored.{Stored};

    ghost Value = { Stored };

    ghost view = { λ f. record {
      files = f.files.items;
      fails = f.fails.items;
      calls = f.calls;
      faults = f.faults;
      moves = f.moves;
    } };
}

impl MemFolder {
    /// A folder without files. The calls of `empty` and `put` whose numbers are in `fails` fail, counted
    /// from 1; one that answers want of memory is not counted.
    pub fn new(alloc: Global, fails: Vec<u64>) -> MemFolder
        ensures { result ≡ new_folder fails.items }
    {
        MemFolder {
            alloc,
            files: Vec::new(alloc),
            fails,
            calls: 0,
            faults: 0,
            moves: 0,
        }
    }

    /// Whether a file stands at this path.
    pub fn has(&self, path: &Path) -> bool
        ensures { result ≡ is_some (bytes_at self.now.files path.now) }
    {
        find_file(&self.files, path).is_some()
    }

    /// The bytes of the file at this path; `None` where there is no such file.
    pub fn get(&self, path: &Path) -> Option<&[u8]>
        ensures { option_map (λ bytes. bytes.now) result ≡ bytes_at self.now.files path.now }
    {
        match find_file(&self.files, path) {
            Some(file) => Some(file.bytes()),
            None => None,
        }
    }
}

impl Folder for MemFolder {
    ghost files = { λ f. Some f.files };

    ghost faults = { λ f. f.faults };

    ghost called = { λ _. Some (codes "mem") };

    ghost moves = { λ f. f.moves };

    /// Forgets its files. Nobody but its owner has it.
    fn renew(&mut self)
        ensures { self.new ≡ renewed self.old }
    {
        self.files.clear();
        self.moves = self.moves.saturating_add(1);
    }

    fn empty(&mut self) -> Result<(), FolderFault>
        ensures fails { IsErr result ↔ IsTrue (fails_next self.old) }
        ensures ok { OnOk result (self.new ≡ after_call self.old []) }
        ensures err { OnErr result (self.new ≡ after_fault self.old) }
        ensures cause { FailsOnlyAt FolderFault.Failed self.old.faults self.new.faults result }
    {
        let fails = call_fails(&self.fails, self.calls);
        self.calls = self.calls.saturating_add(1);
        if fails {
            self.faults = self.faults.saturating_add(1);
            return Err(FolderFault::Failed);
        }
        self.files.clear();
        Ok(())
    }

    fn put(&mut self, path: &Path, bytes: &[u8]) -> Result<(), FolderFault>
        requires { HasRoomAt (Some self.old.files) path.now }
        ensures fails { IsErrOf result FolderFault.Failed → IsTrue (fails_next self.old) }
        ensures ok { OnOk result (self.new ≡ after_put self.old path.now bytes.now) }
        ensures fault { IsErrOf result FolderFault.Failed → self.new ≡ after_fault self.old }
        ensures memory { IsErrOf result FolderFault.NoMemory → self.new ≡ self.old }
        ensures cause { FailsOnlyAt FolderFault.Failed self.old.faults self.new.faults result }
    {
        if call_fails(&self.fails, self.calls) {
            self.calls = self.calls.saturating_add(1);
            self.faults = self.faults.saturating_add(1);
            return Err(FolderFault::Failed);
        }
        let path = path.try_clone()?;
        let bytes = Bytes::from_slice(self.alloc, bytes)?;
        if self.files.push(StoredFile { path, bytes }).is_err() {
            return Err(FolderFault::NoMemory);
        }
        self.calls = self.calls.saturating_add(1);
        Ok(())
    }

    fn name(&self, out: &mut Bytes) -> Result<(), AllocError> {
        out.append(b"mem")
    }

    /// A folder that fails at the same calls.
    fn split(&self) -> Result<MemFolder, AllocError>
        ensures { IfOk result (λ folder. folder ≡ new_folder self.now.fails) }
    {
        let fails = Vec::from_slice(self.alloc, self.fails.as_slice())?;
        Ok(MemFolder::new(self.alloc, fails))
    }
}
