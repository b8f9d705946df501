//! A disk over a file of the system. It tells nothing but its count of faults, and hands on what the
//! system does.
ghost use Rattle.std.specs.Prelude.{◌≡◌, ℕ, ◌≤◌, None, OnOk, IsErrOf};
ghost use Rattle.bf_io.specs.Causes.{FailsOnlyAt};

use crate::{Disk, DiskFault};
use std::fs::{self, File, OpenFile, OpenOptions};
use std::io::{self, ErrorKind, Read, Seek, SeekFrom, Write};
use std::path::Path;
use std::rt::Files;

/// A disk over the file at a path, which is opened at the first call and made where it is missing. While it
/// is open it is locked, and a second disk over it fails. A folder, a link or anything else that is no file fails
/// too.
#[derive(Drop)]
pub struct DiskFile<R: Files<File = File> + Drop> {
    rt: R,
    path: String,
    file: Option<File>,
    faults: u64,
}

impl<R: Files<File = File> + Drop> DiskFile<R> {
    /// A disk over the file that `rt` opens at this path, with no fault so far. It takes no memory.
    pub fn new(rt: R, path: String) -> DiskFile<R>
        ensures { result.faults ≡ 0 }
    {
        DiskFile {
            rt,
            path,
            file: None,
            faults: 0,
        }
    }

    // The file, for a call and back.
    fn open(&mut self) -> io::Result<File>
        ensures { self.new.faults ≡ self.old.faults }
    {
        match self.file.take() {
            Some(file) => Ok(file),
            None => open_locked(&self.rt, self.path.as_str()),
        }
    }

    // An answer of the system, of which each error but want of memory is a fault.
    fn answer<T>(&mut self, answer: io::Result<T>) -> Result<T, DiskFault>
        ensures cause { FailsOnlyAt DiskFault.Failed self.old.faults self.new.faults result }
        ensures memory { IsErrOf result DiskFault.NoMemory → self.new.faults ≡ self.old.faults }
        ensures made { OnOk result (self.new.faults ≡ self.old.faults) }
    {
        match answer {
            Ok(value) => Ok(value),
            Err(error) if error.kind() == ErrorKind::OutOfMemory => Err(DiskFault::NoMemory),
            Err(_) => {
                self.faults = self.faults.saturating_add(1);
                Err(DiskFault::Failed)
            }
        }
    }
}

// Opens the file at a path and locks it, until it is dropped. A file that is made is made sure of in its folder.
fn open_locked<R: Files<File = File>>(rt: &R, path: &str) -> io::Result<File> {
    let is_made = match fs::symlink_metadata(rt, path) {
        Ok(found) if found.is_file() => false,
        Ok(_) => return Err(io::Error::from(ErrorKind::InvalidInput)),
        Err(error) if error.kind() == ErrorKind::NotFound => true,
        Err(error) => return Err(error),
    };
    let file = OpenOptions::new()
        .read(true)
        .write(true)
        .create(true)
        .open(rt, path)?;
    file.try_lock()?;
    if is_made {
        fs::open(rt, folder_of(path))?.sync_all()?;
    }
    Ok(file)
}

// The folder that a path lies in.
fn folder_of(path: &str) -> &str {
    match Path::new(path).parent() {
        Some(folder) if folder.as_str() != "" => folder.as_str(),
        _ => ".",
    }
}

// Fills the buffer from an offset.
fn read_from<F: Read + Seek>(file: &mut F, at: u64, buf: &mut [u8]) -> io::Result<()> {
    file.seek(SeekFrom::Start(at))?;
    file.read_exact(buf)
}

// Writes all the bytes at an offset.
fn write_to<F: Write + Seek>(file: &mut F, at: u64, bytes: &[u8]) -> io::Result<()> {
    file.seek(SeekFrom::Start(at))?;
    file.write_all(bytes)
}

impl<R: Files<File = File> + Drop> Disk for DiskFile<R> {
    ghost told = { λ _. None };

    ghost may_leave = { λ _ _. Unit {0} };

    ghost moment = { λ _. 0 };

    ghost left_since = { λ _ _ _. Unit {0} };

    ghost faults = { λ d. d.faults };

    ghost told_may_stay = { λ _ _ _. tt };

    ghost counts_now = { λ _ _ _ _ _. tt };

    ghost only_now = { λ _ _ _. tt };

    fn size(&mut self) -> Result<u64, DiskFault> {
        let opened = self.open();
        let file = self.answer(opened)?;
        let metadata = file.metadata();
        self.file = Some(file);
        Ok(self.answer(metadata)?.len())
    }

    fn read(&mut self, at: u64, buf: &mut [u8]) -> Result<(), DiskFault> {
        let opened = self.open();
        let mut file = self.answer(opened)?;
        let read = read_from(&mut file, at, buf);
        self.file = Some(file);
        self.answer(read)
    }

    fn write_at(&mut self, at: u64, bytes: &[u8]) -> Result<(), DiskFault> {
        let opened = self.open();
        let mut file = self.answer(opened)?;
        let written = write_to(&mut file, at, bytes);
        self.file = Some(file);
        self.answer(written)
    }

    fn sync(&mut self) -> Result<(), DiskFault> {
        let opened = self.open();
        let file = self.answer(opened)?;
        let synced = file.sync_data();
        self.file = Some(file);
        self.answer(synced)
    }
}
