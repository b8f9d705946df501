//! Shelves, each over the same files.
use bf_io::{Bytes, DirShelf, LoadFault, MemShelf, PlainShelf, Shelf, ShelfFile};
use std::alloc::{AllocError, Global};
use std::fs;
use std::process::Abort;
use std::test::Fail;

fn file_of(alloc: Global, name: &[u8], bytes: &[u8]) -> Result<ShelfFile, AllocError> {
    Ok(ShelfFile {
        name: Bytes::from_slice(alloc, name)?,
        bytes: Bytes::from_slice(alloc, bytes)?,
    })
}

fn put_file(
    alloc: Global,
    files: &mut Vec<ShelfFile>,
    name: &[u8],
    bytes: &[u8],
) -> Result<(), Fail> {
    files.push(file_of(alloc, name, bytes)?)?;
    Ok(())
}

// The files of the tests: two of one name, and an empty one.
fn files(alloc: Global) -> Result<Vec<ShelfFile>, Fail> {
    let texts: [(&[u8], &[u8]); 3] = [(b"a", b"first"), (b"a", b"second"), (b"b", b"")];
    let mut files = Vec::new(alloc);
    for (name, bytes) in texts {
        put_file(alloc, &mut files, name, bytes)?;
    }
    Ok(files)
}

// What a load gave, lent for comparing.
fn told(answer: &Result<Bytes, LoadFault>) -> Result<&[u8], LoadFault> {
    match answer {
        Ok(bytes) => Ok(bytes.as_slice()),
        Err(fault) => Err(*fault),
    }
}

// The loads of each shelf, with their answers.
static LOADS: [(&[u8], u32, Result<&[u8], LoadFault>); 6] = [
    (b"a", 5, Ok(b"first")),
    (b"a", 4, Err(LoadFault::TooLong)),
    (b"b", 0, Ok(b"")),
    (b"c", 100, Err(LoadFault::Missing)),
    (b"", 100, Err(LoadFault::Missing)),
    (b"A", 100, Err(LoadFault::Missing)),
];

fn answers_loads(rt: &impl Abort, shelf: &mut impl Shelf) {
    for (name, max, answer) in LOADS {
        assert_eq!(rt; told(&shelf.load(name, max)), answer, "{name:?}");
    }
}

#[test]
fn a_plain_shelf_gives_the_first_file_of_a_name(rt: HostRuntime) -> Result<(), Fail> {
    let mut shelf = PlainShelf::new(files(rt.alloc())?);
    answers_loads(&rt, &mut shelf);
    Ok(())
}

fn answers_between_faults(rt: &impl Abort, shelf: &mut MemShelf) {
    assert_eq!(rt; told(&shelf.load(b"a", 9)), Err(LoadFault::Failed));
    answers_loads(rt, shelf);
    assert_eq!(rt; told(&shelf.load(b"a", 9)), Err(LoadFault::Failed));
    assert_eq!(rt; shelf.calls(), 8);
}

#[test]
fn a_shelf_fails_at_its_numbers(rt: HostRuntime) -> Result<(), Fail> {
    let mut shelf = MemShelf::new(files(rt.alloc())?, vec![in rt.alloc(); 1, 8]?);
    answers_between_faults(&rt, &mut shelf);
    Ok(())
}

fn answers_paths(rt: &impl Abort, shelf: &mut impl Shelf) {
    answers_loads(rt, shelf);
    assert_eq!(rt; told(&shelf.load(b"/", 9)), Err(LoadFault::Failed));
    assert_eq!(rt; told(&shelf.load(b"\xff", 9)), Err(LoadFault::Failed));
    assert_eq!(rt; told(&shelf.load(b"/dev/zero", 9)), Err(LoadFault::TooLong));
}

#[test]
fn a_shelf_of_the_system_reads_its_files(rt: HostRuntime) -> Result<(), Fail> {
    fs::write(&rt, "a", b"first".as_slice())?;
    fs::write(&rt, "b", b"".as_slice())?;
    answers_paths(&rt, &mut DirShelf::new(rt, rt.alloc()));
    fs::remove_file(&rt, "a")?;
    fs::remove_file(&rt, "b")?;
    Ok(())
}
