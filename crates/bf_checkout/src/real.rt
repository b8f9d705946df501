//! A folder of the system. It tells its name and its count of faults, not its files, and hands on what
//! the system does.
ghost use Rattle.std.specs.Prelude.{◌≡◌, ℕ, List, Option, None, Some, IfOk, string_bytes};
ghost use Rattle.bf_tester.specs.Grounds.{File};
ghost use Rattle.bf_io.specs.Causes.{FailsOnlyAt, raised};
ghost use Rattle.bf_checkout.specs.Folders.{name_of};

use crate::emptying::remove_folder;
use crate::folder::{Folder, FolderFault};
use crate::remains::{aside_of, name_of, remove_and_mark};
use crate::trees::{SystemFiles, Trees, TreesRefusal};
use bf_io::Bytes;
use bf_paths::Path;
use std::alloc::{AllocError, Global};
use std::fs;
use std::io::{self, ErrorKind};
use std::sync::Arc;
use std::sync::atomic::{AtomicU64, Ordering};

/// What the folders of a run share: the count that they draw their numbers from, and the claim on `bisect-trees`.
#[derive(Drop)]
struct Shared {
    next: AtomicU64,
    trees: Trees,
}

/// A folder of the system below `bisect-trees`, with a number of its own. All that are split from one draw
/// their numbers from one count, and hold `bisect-trees` together: while another run holds it, each call fails.
///
/// What a test started may run on behind its end, and behind that of the run, and write by the folder's name. So
/// each number is drawn once, and one that is renewed goes on under another; what it left is removed as it is emptied.
#[derive(Drop)]
pub struct DirFolder<R: SystemFiles + Send> {
    rt: R,
    number: u64,
    /// Whether it made the folder of its number.
    is_made: bool,
    /// The number of the folder that it left last, until that one is removed.
    behind: Option<u64>,
    shared: Arc<Shared>,
    faults: u64,
    moves: u64,
}

impl<R: SystemFiles + Send> DirFolder<R> {
    /// A folder over the files that `rt` opens, with no fault so far. It opens nothing yet. The numbers begin with
    /// `first`: no earlier run in the same place is to have drawn this one, or any after it.
    pub fn new(rt: R, first: u64) -> Result<DirFolder<R>, AllocError>
        ensures faults { IfOk result (λ folder. folder.faults ≡ 0) }
        ensures first { IfOk result (λ folder. folder.number ≡ first) }
    {
        let alloc = rt.alloc();
        let shared = Shared {
            next: AtomicU64::new(first),
            trees: Trees::new(alloc),
        };
        shared.next.fetch_add(1, Ordering::SeqCst);
        Ok(DirFolder {
            rt,
            number: first,
            is_made: false,
            behind: None,
            shared: Arc::new(alloc, shared)?,
            faults: 0,
            moves: 0,
        })
    }

    /// Why the folders of this run may not work in `bisect-trees`, where that is so.
    pub fn refusal(&self) -> Option<TreesRefusal> {
        self.shared.trees.refusal()
    }

    /// Removes what tests have left in the folders that they were in before, and returns the numbers of those that
    /// could not be removed. To be called as the run ends: the folders of the last tests stay.
    pub fn remove_remains(&self) -> io::Result<Vec<u64>> {
        self.shared.trees.remove_remains(&self.rt)
    }
}

impl<R: SystemFiles + Send> Folder for DirFolder<R> {
    ghost files = { λ _. None };

    ghost faults = { λ f. f.faults };

    ghost called = { λ f. Some (name_of f.number) };

    ghost moves = { λ f. f.moves };

    /// Draws another number, unless its folder was not made yet.
    fn renew(&mut self) {
        if self.is_made {
            self.behind = Some(self.number);
            self.number = self.shared.next.fetch_add(1, Ordering::SeqCst);
            self.is_made = false;
        }
        self.moves = self.moves.saturating_add(1);
    }

    fn empty(&mut self) -> Result<(), FolderFault> {
        let emptied = match self.shared.trees.claim(&self.rt)? {
            Ok(()) if self.is_made => remove_files(&self.rt, self.number),
            Ok(()) => make_folder(&self.rt, self.number, self.behind.take()),
            Err(_) => Err(io::Error::from(ErrorKind::ResourceBusy)),
        };
        self.is_made = self.is_made || emptied.is_ok();
        answer(&mut self.faults, emptied)
    }

    /// Writes the file, and makes the folders that it stands in. A path that is not UTF-8 is a fault.
    fn put(&mut self, path: &Path, bytes: &[u8]) -> Result<(), FolderFault> {
        let written = match self.shared.trees.claim(&self.rt)? {
            Ok(()) => write_file(&self.rt, self.number, path, bytes),
            Err(_) => Err(io::Error::from(ErrorKind::ResourceBusy)),
        };
        answer(&mut self.faults, written)
    }

    fn name(&self, out: &mut Bytes) -> Result<(), AllocError> {
        let name = name_of(self.rt.alloc(), self.number)?;
        out.append(name.as_str().as_bytes())
    }

    /// The claim is made here, before there are other threads. Where it is refused each call of the folders fails.
    fn split(&self) -> Result<DirFolder<R>, AllocError> {
        let _ = self.shared.trees.claim(&self.rt)?;
        Ok(DirFolder {
            rt: self.rt.clone()?,
            number: self.shared.next.fetch_add(1, Ordering::SeqCst),
            is_made: false,
            behind: None,
            shared: self.shared.clone()?,
            faults: 0,
            moves: 0,
        })
    }
}

/// An answer of the system, of which each error but want of memory is a fault, and counted.
fn answer(faults: &mut u64, answer: io::Result<()>) -> Result<(), FolderFault>
    ensures cause { FailsOnlyAt FolderFault.Failed faults.old faults.new result }
{
    match answer {
        Ok(()) => Ok(()),
        Err(error) if error.kind() == ErrorKind::OutOfMemory => Err(FolderFault::NoMemory),
        Err(_) => {
            *faults = faults.saturating_add(1);
            Err(FolderFault::Failed)
        }
    }
}

/// Makes the folder with a number, where nothing has its name yet, and removes the one that is left behind.
fn make_folder<R: SystemFiles>(rt: &R, number: u64, behind: Option<u64>) -> io::Result<()> {
    if let Some(behind) = behind {
        remove_and_mark(rt, behind)?;
    }
    let name = name_of(rt.alloc(), number)?;
    fs::create_dir(rt, name.as_str())
}

/// Makes the folder with a number anew, without files.
fn remove_files<R: SystemFiles>(rt: &R, number: u64) -> io::Result<()> {
    let name = name_of(rt.alloc(), number)?;
    let aside = aside_of(rt.alloc(), number)?;
    remove_folder(rt, name.as_str(), aside.as_str())?;
    fs::create_dir(rt, name.as_str())
}

/// Writes a file into the folder with a number.
fn write_file<R: SystemFiles>(rt: &R, number: u64, path: &Path, bytes: &[u8]) -> io::Result<()> {
    let mut name = name_of(rt.alloc(), number)?;
    let Some((last, folders)) = path.components().split_last() else {
        return Err(io::Error::from(ErrorKind::InvalidInput));
    };
    for folder in folders {
        push_component(&mut name, folder.as_slice())?;
    }
    fs::create_dir_all(rt, name.as_str())?;
    push_component(&mut name, last.as_slice())?;
    fs::write(rt, name.as_str(), bytes)
}

/// Adds a slash and a component to the name of a folder.
fn push_component(name: &mut String, component: &[u8]) -> io::Result<()> {
    let Ok(text) = std::str::from_utf8(component) else {
        return Err(io::Error::from(ErrorKind::InvalidInput));
    };
    name.push('/')?;
    name.push_str(text)?;
    Ok(())
}
