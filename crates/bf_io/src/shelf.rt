//! The trait through which whole files come in.
ghost use Rattle.std.specs.Prelude.{◌≡◌, ℕ, ◌≤◌, List, length, Option, IfOk, IsErrOf};
ghost use Rattle.bf_io.specs.Causes.{FailsOnlyAt};
ghost use Rattle.bf_io.specs.declared.shelf.ShelfFile.{ShelfFile};
ghost use Rattle.bf_io.specs.declared.shelf.LoadFault.TheVariants.{NoMemory};
ghost use Rattle.bf_io.specs.Files.{LoadGives};

use crate::Bytes;
use std::alloc::AllocError;
use thiserror::Error;

/// A file of a shelf.
#[derive(Debug, Drop)]
pub struct ShelfFile {
    /// The name by which it is asked for.
    pub name: Bytes,
    /// What it holds.
    pub bytes: Bytes,
}

/// Why a shelf gave no file.
#[derive(Clone, Copy, Debug, PartialEq, Eq, Error)]
pub enum LoadFault {
    /// The shelf has no file of that name.
    #[error("no such file")]
    Missing,
    /// The file is longer than it may be.
    #[error("the file is too long")]
    TooLong,
    /// The shelf failed. Its count of faults rose.
    #[error("the file could not be read")]
    Failed,
    /// Memory ran out. All is as before.
    #[error("out of memory")]
    NoMemory,
}

impl From<AllocError> for LoadFault {
    ghost from_gives = { λ _ e. e ≡ NoMemory };

    fn from(_error: AllocError) -> LoadFault {
        LoadFault::NoMemory
    }
}

/// Where whole files come from.
pub trait Shelf {
    // The files, where the shelf tells them. Of files of one name the first counts.
    ghost files: { Self → Option (List ShelfFile) };

    // The count of faults, up to the last value of 64 bits.
    ghost faults: { Self → ℕ };

    /// The file of this name, which has at most `max` bytes. `Missing` comes exactly where there is no such
    /// file, `TooLong` exactly where it is longer, and `Failed` only where the count of faults rose.
    fn load(&mut self, name: &[u8], max: u32) -> Result<Bytes, LoadFault>
        ensures files { files self.new ≡ files self.old }
        ensures bound { IfOk result (λ bytes. length bytes ≤ max) }
        ensures bytes { LoadGives (files self.old) name.now max result }
        ensures cause { FailsOnlyAt LoadFault.Failed (faults self.old) (faults self.new) result }
        ensures memory { IsErrOf result LoadFault.NoMemory → faults self.new ≡ faults self.old };
}
