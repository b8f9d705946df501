//! What tests have left in the folders that they were in: each is removed, or is marked by a folder aside, under its
//! number with `.old`. A process that a test started may make it again, so the mark stays until the run ends.
ghost use Rattle.std.specs.Prelude.{◌≡◌, IfOk, string_bytes};
ghost use Rattle.bf_checkout.specs.Folders.{name_of};

use crate::emptying::remove_folder;
use crate::trees::{SystemFiles, TREES};
use std::alloc::{AllocError, Global};
use std::fs;
use std::io::{self, ErrorKind};

/// What stands behind the number in the name of a mark.
const MARK: &str = ".old";

/// The name of the folder with a number.
pub(crate) fn name_of(alloc: Global, number: u64) -> Result<String, AllocError>
    ensures { IfOk result (λ name. string_bytes name ≡ name_of number) }
{
    format!(in alloc; "bisect-trees/{number}")
}

/// The name of the folder aside for a number.
pub(crate) fn aside_of(alloc: Global, number: u64) -> Result<String, AllocError> {
    format!(in alloc; "{TREES}/{number}{MARK}")
}

/// Removes the folder of a number with its mark. One that is made again meanwhile is an error.
fn remove<R: SystemFiles>(rt: &R, number: u64) -> io::Result<()> {
    let name = name_of(rt.alloc(), number)?;
    let aside = aside_of(rt.alloc(), number)?;
    remove_folder(rt, name.as_str(), aside.as_str())?;
    if fs::exists(rt, name.as_str())? {
        return Err(io::Error::from(ErrorKind::DirectoryNotEmpty));
    }
    Ok(())
}

/// Removes the folder of a number as far as the system lets it, and marks it. Only want of memory is an error.
pub(crate) fn remove_and_mark<R: SystemFiles>(rt: &R, number: u64) -> io::Result<()> {
    let aside = aside_of(rt.alloc(), number)?;
    for answer in [remove(rt, number), fs::create_dir(rt, aside.as_str())] {
        match answer {
            Err(error) if error.kind() == ErrorKind::OutOfMemory => return Err(error),
            _ => {}
        }
    }
    Ok(())
}

/// Removes all folders that earlier runs left, as far as the system lets it. One that cannot be removed is marked.
pub(crate) fn remove_earlier<R: SystemFiles>(rt: &R) -> io::Result<()> {
    for number in &numbers(rt, false)? {
        if remove(rt, *number).is_err() {
            remove_and_mark(rt, *number)?;
        }
    }
    Ok(())
}

/// Removes all folders that are marked, and returns the numbers of those that could not be removed.
pub(crate) fn remove_marked<R: SystemFiles>(rt: &R) -> io::Result<Vec<u64>> {
    let mut left = Vec::new(rt.alloc());
    for number in &numbers(rt, true)? {
        if remove(rt, *number).is_err() {
            left.push(*number)?;
        }
    }
    Ok(left)
}

/// The numbers of the folders that are marked, or of all.
fn numbers<R: SystemFiles>(rt: &R, are_marked: bool) -> io::Result<Vec<u64>> {
    let mut found = Vec::new(rt.alloc());
    for entry in fs::read_dir(rt, TREES)? {
        let entry = entry?;
        let name = entry.file_name();
        let number = match name.strip_suffix(MARK) {
            Some(number) => number.parse::<u64>(),
            None if are_marked => continue,
            None => name.parse::<u64>(),
        };
        if let Ok(number) = number {
            found.push(number)?;
        }
    }
    Ok(found)
}
