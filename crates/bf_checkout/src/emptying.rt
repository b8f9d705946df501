//! Removing a folder of the system with all that stands in it, in time that is linear in that, however deep it is.
use crate::trees::SystemFiles;
use std::fs;
use std::io::{self, ErrorKind};

/// Removes the folder of a name, where it is there. The folder `aside`, which is for this alone, is gone afterwards, too.
pub(crate) fn remove_folder<R: SystemFiles>(rt: &R, name: &str, aside: &str) -> io::Result<()> {
    match remove_flat(rt, name, aside) {
        Ok(()) => Ok(()),
        // a process writes there: the system's own call would go on for as long as it does
        Err(error) if error.kind() == ErrorKind::DirectoryNotEmpty => Err(error),
        Err(error) if error.kind() == ErrorKind::OutOfMemory => Err(error),
        // what it could not do (a name that is not UTF-8) is done level by level
        Err(_) => {
            remove_if_there(rt, name)?;
            remove_if_there(rt, aside)
        }
    }
}

/// Removes a folder by moving each folder below it to the top before that one is emptied: so no path grows, and each
/// folder is met once.
fn remove_flat<R: SystemFiles>(rt: &R, name: &str, aside: &str) -> io::Result<()> {
    make_aside(rt, name, aside)?;
    move_to(rt, name, aside, 0)?;
    let mut moved = 1;
    for emptied in 0..u64::MAX {
        if emptied == moved {
            break;
        }
        moved = remove_top(rt, aside, emptied, moved)?;
    }
    fs::remove_dir(rt, aside)
}

/// Makes the folder aside. One that a killed run left is put below the other first.
fn make_aside<R: SystemFiles>(rt: &R, name: &str, aside: &str) -> io::Result<()> {
    match fs::create_dir(rt, aside) {
        Err(error) if error.kind() == ErrorKind::AlreadyExists => {
            let below = format!(in rt.alloc(); "{name}/left aside")?;
            fs::rename(rt, aside, below.as_str())?;
            fs::create_dir(rt, aside)
        }
        made => made,
    }
}

/// Moves a folder, and no link to one, to the folder aside, under a number.
fn move_to<R: SystemFiles>(rt: &R, from: &str, aside: &str, number: u64) -> io::Result<()> {
    let to = format!(in rt.alloc(); "{aside}/{number}")?;
    fs::rename(rt, from, to.as_str())?;
    if fs::symlink_metadata(rt, to.as_str())?.is_dir() {
        Ok(())
    } else {
        Err(io::Error::from(ErrorKind::NotADirectory))
    }
}

/// Removes the folder of a number: its files are removed, and the folders in it are moved beside it, under the numbers
/// from `moved` on. Returns the first number that is free then.
fn remove_top<R: SystemFiles>(rt: &R, aside: &str, number: u64, moved: u64) -> io::Result<u64> {
    let folder = format!(in rt.alloc(); "{aside}/{number}")?;
    let mut moved = moved;
    for entry in fs::read_dir(rt, folder.as_str())? {
        let entry = entry?;
        let path = entry.path();
        match fs::remove_file(rt, path) {
            Ok(()) => {}
            Err(error) if error.kind() == ErrorKind::IsADirectory => {
                move_to(rt, path.as_str(), aside, moved)?;
                moved = moved.saturating_add(1);
            }
            Err(error) => return Err(error),
        }
    }
    fs::remove_dir(rt, folder.as_str())?;
    Ok(moved)
}

/// Removes a folder, file or link, where it is there, by the system's own call, whose time is of the square of the depth.
fn remove_if_there<R: SystemFiles>(rt: &R, name: &str) -> io::Result<()> {
    match fs::remove_dir_all(rt, name) {
        Err(error) if error.kind() == ErrorKind::NotFound => Ok(()),
        removed => removed,
    }
}
