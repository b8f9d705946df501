//! Folders that commits are tested in.
ghost use Rattle.std.specs.Prelude.{◌≡◌, ℕ, ◌++◌, List, Option, IfOk, OnOk, OnErr};
ghost use Rattle.std.specs.Option.{is_some};
ghost use Rattle.bf_io.specs.Causes.{FailsOnlyAt, raised};
ghost use Rattle.bf_tester.specs.Grounds.{File};
ghost use Rattle.bf_history.specs.Meanings.{is_module};
ghost use Rattle.bf_checkout.specs.Checkouts.{checkout};
ghost use Rattle.bf_checkout.specs.Folders.{emptied, with_file, AddsName, HasRoomAt, Holds};
ghost use Rattle.bf_checkout.specs.declared.folder.FolderFault.TheVariants.{NoMemory};

use bf_import::Content;
use bf_io::Bytes;
use bf_oid::Mode;
use bf_paths::Path;
use std::alloc::AllocError;
use thiserror::Error;

/// Why a folder did not do what it was asked to.
#[derive(Clone, Copy, Debug, PartialEq, Eq, Error)]
pub enum FolderFault {
    /// The folder failed. Its count of faults rose.
    #[error("the folder failed")]
    Failed,
    /// Memory ran out.
    #[error("out of memory")]
    NoMemory,
}

impl From<AllocError> for FolderFault {
    ghost from_gives = { λ _ e. e ≡ NoMemory };

    fn from(_error: AllocError) -> FolderFault {
        FolderFault::NoMemory
    }
}

/// A folder that commits are tested in. It tells its files or not, and what it does not tell stays untold.
/// After a fault its files may be any, until it was emptied.
pub trait Folder: Send + Drop + Sized {
    // The files, in the order in which they were put, where the folder tells them.
    ghost files: { Self → Option (List File) };

    // The count of faults, up to the last value of 64 bits.
    ghost faults: { Self → ℕ };

    // Its name, where the folder tells it.
    ghost called: { Self → Option (List ℕ) };

    // How often it went on in another folder, up to the last value of 64 bits.
    ghost moves: { Self → ℕ };

    /// Goes on in a folder of its own in which nobody has tested. Its files may be any, until it was emptied.
    fn renew(&mut self)
        ensures told { is_some (files self.new) ≡ is_some (files self.old) }
        ensures called { is_some (called self.new) ≡ is_some (called self.old) }
        ensures moves { moves self.new ≡ raised (moves self.old) }
        ensures faults { faults self.new ≡ faults self.old };

    /// Removes all files.
    fn empty(&mut self) -> Result<(), FolderFault>
        ensures emptied { OnOk result (files self.new ≡ emptied (files self.old)) }
        ensures told { is_some (files self.new) ≡ is_some (files self.old) }
        ensures called { called self.new ≡ called self.old }
        ensures moves { moves self.new ≡ moves self.old }
        ensures cause { FailsOnlyAt FolderFault.Failed (faults self.old) (faults self.new) result };

    /// Adds a file.
    fn put(&mut self, path: &Path, bytes: &[u8]) -> Result<(), FolderFault>
        requires { HasRoomAt (files self.old) path.now }
        ensures added { OnOk result
            (files self.new ≡ with_file (files self.old) path.now bytes.now) }
        ensures told { is_some (files self.new) ≡ is_some (files self.old) }
        ensures called { called self.new ≡ called self.old }
        ensures moves { moves self.new ≡ moves self.old }
        ensures cause { FailsOnlyAt FolderFault.Failed (faults self.old) (faults self.new) result };

    /// Appends the folder's name.
    fn name(&self, out: &mut Bytes) -> Result<(), AllocError>
        ensures appended { OnOk result (AddsName (called self.now) out.old out.new) }
        ensures err { OnErr result (out.new ≡ out.old) };

    /// A folder of its own, for another thread, with no faults and no files. It tells its name where this
    /// one does.
    fn split(&self) -> Result<Self, AllocError>
        ensures files { IfOk result (λ folder. files folder ≡ emptied (files self.now)) }
        ensures called { IfOk result
            (λ folder. is_some (called folder) ≡ is_some (called self.now)) }
        ensures faults { IfOk result (λ folder. faults folder ≡ 0) };

    /// Makes the folder hold exactly the files of the commit at a place: none past the end of the content.
    fn check_out(&mut self, content: &Content, place: u32) -> Result<(), FolderFault>
        ensures holds { OnOk result (Holds (files self.new) (checkout content.now place)) }
        ensures told { is_some (files self.new) ≡ is_some (files self.old) }
        ensures called { called self.new ≡ called self.old }
        ensures moves { moves self.new ≡ moves self.old }
        ensures cause { FailsOnlyAt FolderFault.Failed (faults self.old) (faults self.new) result }
    {
        self.empty()?;
        let files = content.files(place)?;
        for file in &files {
            if !is_module(file.mode) {
                self.put(&file.path, content.bytes(file.oid))?;
            }
        }
        Ok(())
    }
}

/// Whether a mode is that of a submodule.
fn is_module(mode: Mode) -> bool
    ensures { result ≡ is_module mode }
{
    matches!(mode, Mode::Module)
}
