//! The folder `bisect-trees`: one run at a time works in it.
use crate::remains::{remove_earlier, remove_marked};
use once_cell::race::OnceBox;
use std::alloc::{AllocError, Global};
use std::fs::{self, File, OpenOptions, TryLockError};
use std::io::{self, ErrorKind};
use std::rt::Files;

/// The folder that the folders of a run stand in.
pub(crate) const TREES: &str = "bisect-trees";

/// The file in it that is locked while a run works there. Its presence tells that a run made the folder.
const LOCK: &str = "bisect-trees/lock";

/// Files of the system, whose locks hold between processes, with what the program takes memory from.
pub trait SystemFiles: Files<File = File> + Alloc<A = Global> + Clone + Drop {}

impl<R: Files<File = File> + Alloc<A = Global> + Clone + Drop> SystemFiles for R {}

/// Why a run may not work in `bisect-trees`.
#[derive(Clone, Copy, Debug, PartialEq, Eq)]
pub enum TreesRefusal {
    /// Another run works in it.
    InUse,
    /// Something of that name stands there that no run has made.
    NotOurs,
    /// The system would not make it, or would not lock it.
    Failed,
}

/// What came of the claim.
#[derive(Drop)]
enum TreesClaim {
    /// The locked file: the lock ends as it is closed, also where the process is killed.
    Held(File),
    Refused(TreesRefusal),
}

/// The claim of a run on `bisect-trees`: made once, by the first call that needs it, and held until it is dropped.
#[derive(Drop)]
pub(crate) struct Trees {
    claim: OnceBox<TreesClaim>,
}

impl Trees {
    /// No claim so far.
    pub(crate) fn new(alloc: Global) -> Trees {
        Trees {
            claim: OnceBox::new(alloc),
        }
    }

    /// Makes the claim, where none was made, and returns whether the run may work there. The first call is to be made
    /// before there are other threads, since two that claim at once would refuse each other.
    pub(crate) fn claim<R: SystemFiles>(
        &self,
        rt: &R,
    ) -> Result<Result<(), TreesRefusal>, AllocError> {
        let claim = self
            .claim
            .get_or_try_init(|| Box::new(rt.alloc(), claim_of(rt)))?;
        Ok(match claim {
            TreesClaim::Held(_) => Ok(()),
            TreesClaim::Refused(refusal) => Err(*refusal),
        })
    }

    /// Removes what tests have left in the folders that are marked, where the claim is held, and returns the numbers of
    /// those that could not be removed.
    pub(crate) fn remove_remains<R: SystemFiles>(&self, rt: &R) -> io::Result<Vec<u64>> {
        match self.claim.get() {
            Some(TreesClaim::Held(_)) => remove_marked(rt),
            _ => Ok(Vec::new(rt.alloc())),
        }
    }

    /// Why the claim was refused, where it was.
    pub(crate) fn refusal(&self) -> Option<TreesRefusal> {
        match self.claim.get() {
            Some(TreesClaim::Refused(refusal)) => Some(*refusal),
            _ => None,
        }
    }
}

/// Claims the folder, and removes what earlier runs left there. What cannot be removed is no hindrance: no test comes
/// into it.
fn claim_of<R: SystemFiles>(rt: &R) -> TreesClaim {
    match open_locked(rt) {
        Ok(file) => {
            let _ = remove_earlier(rt);
            TreesClaim::Held(file)
        }
        Err(refusal) => TreesClaim::Refused(refusal),
    }
}

/// Makes the folder where it is missing, and locks its file.
fn open_locked<R: SystemFiles>(rt: &R) -> Result<File, TreesRefusal> {
    match fs::create_dir(rt, TREES) {
        Ok(()) => {}
        Err(error) if error.kind() == ErrorKind::AlreadyExists => match is_ours(rt) {
            Ok(true) => {}
            Ok(false) => return Err(TreesRefusal::NotOurs),
            Err(_) => return Err(TreesRefusal::Failed),
        },
        Err(_) => return Err(TreesRefusal::Failed),
    }
    let opened = OpenOptions::new()
        .read(true)
        .write(true)
        .create(true)
        .open(rt, LOCK);
    let Ok(file) = opened else {
        return Err(TreesRefusal::Failed);
    };
    match file.try_lock() {
        Ok(()) => Ok(file),
        Err(TryLockError::WouldBlock) => Err(TreesRefusal::InUse),
        Err(TryLockError::Error(_)) => Err(TreesRefusal::Failed),
    }
}

/// Whether a run made what stands there: a folder, and no link, which has nothing yet, or the file that runs lock. That
/// file is looked for last: a run that makes the folder meanwhile puts it there before all else.
fn is_ours<R: SystemFiles>(rt: &R) -> io::Result<bool> {
    if !fs::symlink_metadata(rt, TREES)?.is_dir() {
        return Ok(false);
    }
    if is_empty(rt)? {
        return Ok(true);
    }
    match fs::symlink_metadata(rt, LOCK) {
        Ok(found) => Ok(found.is_file()),
        Err(error) if error.kind() == ErrorKind::NotFound => Ok(false),
        Err(error) => Err(error),
    }
}

/// Whether nothing stands in it.
fn is_empty<R: SystemFiles>(rt: &R) -> io::Result<bool> {
    Ok(fs::read_dir(rt, TREES)?.next().is_none())
}
