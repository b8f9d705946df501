//! A shelf over the files of the system. It tells nothing but its count of faults, and hands on what the
//! system does.
ghost use Rattle.std.specs.Prelude.{◌≡◌, ℕ, ◌≤◌, length, None, IfOk, IsErrOf};
ghost use Rattle.bf_io.specs.Causes.{FailsOnlyAt};

use crate::{Bytes, LoadFault, Shelf};
use std::alloc::Global;
use std::fs;
use std::io::{self, ErrorKind, Read};
use std::rt::Files;

/// A shelf whose names are the paths of the system's files.
#[derive(Drop)]
pub struct DirShelf<R: Files + Drop> {
    rt: R,
    alloc: Global,
    faults: u64,
}

impl<R: Files + Drop> DirShelf<R> {
    /// A shelf over the files that `rt` opens, with no fault so far.
    pub fn new(rt: R, alloc: Global) -> DirShelf<R>
        ensures { result.faults ≡ 0 }
    {
        DirShelf {
            rt,
            alloc,
            faults: 0,
        }
    }
}

impl<R: Files + Drop> Shelf for DirShelf<R> {
    ghost files = { λ _. None };

    ghost faults = { λ s. s.faults };

    /// Reads the file, but no more than one byte past `max`. A name that isn't UTF-8 is a fault.
    fn load(&mut self, name: &[u8], max: u32) -> Result<Bytes, LoadFault> {
        match front_of(&self.rt, self.alloc, name, u64::from(max) + 1) {
            Ok(bytes) if bytes.len() <= max as usize => Ok(Bytes::from_vec(self.alloc, bytes)),
            Ok(_) => Err(LoadFault::TooLong),
            Err(error) => match error.kind() {
                ErrorKind::NotFound => Err(LoadFault::Missing),
                ErrorKind::OutOfMemory => Err(LoadFault::NoMemory),
                _ => {
                    self.faults = self.faults.saturating_add(1);
                    Err(LoadFault::Failed)
                }
            },
        }
    }
}

// The first bytes of a file, at most `most` of them.
fn front_of<R: Files>(rt: &R, alloc: Global, name: &[u8], most: u64) -> io::Result<Vec<u8>> {
    let Ok(path) = std::str::from_utf8(name) else {
        return Err(io::Error::from(ErrorKind::InvalidInput));
    };
    let mut bytes = Vec::new(alloc);
    fs::open(rt, path)?.take(most).read_to_end(&mut bytes)?;
    Ok(bytes)
}
