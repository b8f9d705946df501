//! What no clause says: the bytes of a journal that another program wrote, that calls succeed with ample
//! memory, and a crash after each call of a run.
ghost use Rattle.std.specs.Prelude.{◌≡◌, ◌<◌, length, true, IfOk, OnOk};
ghost use Rattle.bf_journal.specs.Journal.{Fits};

use bf_io::Bytes;
use bf_journal::{Disk, DiskFault, DiskFile, Journal, JournalFault, MemDisk, run_identity};
use bf_oid::{Oid, oid_from_hex};
use bf_search::Outcome;
use std::alloc::Global;
use std::fs;
use std::test::Fail;

pub(crate) const IDENTITY: &[u8] = b"452487cc0bdc4317e3da84924474d334d843150e";

pub(crate) const OTHER: &[u8] = b"a0715986de2da2a026a54b7c7900ad8a0bd3c790";

// The journal of eight commits after the places 3, 4 and 5 were tested.
pub(crate) const WHOLE: [u8; 56] = [
    1, 0, 0, 0, 0x45, 0x24, 0x87, 0xcc, 0x0b, 0xdc, 0x43, 0x17, 0xe3, 0xda, 0x84, 0x92, 0x44, 0x74,
    0xd3, 0x34, 0xd8, 0x43, 0x15, 0x0e, 0, 0, 0, 0, 0, 0, 0, 0, 0, 0, 0, 0, 1, 0, 0, 0, 1, 0, 1, 0,
    1, 0, 1, 0, 0, 0, 0, 0, 0, 0, 0, 0,
];

// The names of the commits of that run.
const COMMITS: [&[u8]; 8] = [
    b"56b29d9c130e2ec4b506a48d4fe5a18d92d8d1e3",
    b"f570778fec974dd2b05ee862e235ff38a61118d3",
    b"2a83eb598262042db81ddad6b0c3b6c0d200c521",
    b"771edca49728d8c78d5b371976ec2debc7c92b35",
    b"271bb9a08b2d5aa03871aa65fdadc01c488fa408",
    b"3dff7cbfbc1ec2409d1dc7dba41ba991437e56aa",
    b"c223c814fe710b9b34c64fc95064b014ed1afd22",
    b"38d7eeaa2c641133c0a59de3e3515352366303d6",
];

pub(crate) fn named(text: &[u8]) -> Result<Oid, Fail> {
    Ok(oid_from_hex(text).ok_or("no name")?)
}

pub(crate) fn disk_of(alloc: Global, bytes: &[u8], stop: Option<u64>) -> Result<MemDisk, Fail> {
    Ok(MemDisk::new(Bytes::from_slice(alloc, bytes)?, Vec::new(alloc), stop))
}

// Keeps the outcome of a place, unless one is kept.
fn keep<D: Disk>(
    journal: &mut Journal,
    disk: &mut D,
    place: u32,
    outcome: Outcome,
) -> Result<(), JournalFault>
    requires within { place < length journal.old.kept }
    requires sound { journal.old.is_sound ≡ true }
    requires fits { Fits D.told D.may_leave disk.old journal.old }
    ensures places { OnOk result (length journal.new.kept ≡ length journal.old.kept) }
    ensures sound { OnOk result (journal.new.is_sound ≡ true) }
    ensures fits { OnOk result (Fits D.told D.may_leave disk.new journal.new) }
{
    if journal.kept(place).is_none() {
        journal.put(disk, place, outcome)?;
    }
    Ok(())
}

// A run over eight commits that keeps the outcomes of the places 3, 5 and 4.
pub(crate) fn run<D: Disk>(
    alloc: Global,
    disk: &mut D,
    identity: Oid,
) -> Result<Journal, JournalFault>
    ensures { IfOk result (λ journal. length journal.kept ≡ 8) }
{
    let mut journal = Journal::open(alloc, disk, identity, 8)?;
    keep(&mut journal, disk, 3, Outcome::Exit(0))?;
    keep(&mut journal, disk, 5, Outcome::Exit(1))?;
    keep(&mut journal, disk, 4, Outcome::Exit(1))?;
    Ok(journal)
}

#[test]
fn a_run_is_written_as_another_program_wrote_it(rt: HostRuntime) -> Result<(), Fail> {
    let alloc = rt.alloc();
    let mut disk = disk_of(alloc, &[], None)?;
    let journal = run(alloc, &mut disk, named(IDENTITY)?)?;
    assert!(rt; journal.sound());
    assert_eq!(rt; journal.kept(3), Some(Outcome::Exit(0)));
    assert_eq!(rt; journal.kept(2), None);
    assert_eq!(rt; disk.calls(), 20);
    assert_eq!(rt; disk.bytes(), WHOLE.as_slice());
    Ok(())
}

#[test]
fn a_run_is_taken_up_after_a_crash_at_each_call(rt: HostRuntime) -> Result<(), Fail> {
    let alloc = rt.alloc();
    let identity = named(IDENTITY)?;
    for stop in 0..20 {
        for fill in [0, 1] {
            let mut disk = disk_of(alloc, &[], Some(stop))?;
            assert!(rt; run(alloc, &mut disk, identity).is_err());
            let mut later = disk.crash(fill);
            run(alloc, &mut later, identity)?;
            assert_eq!(rt; later.bytes(), WHOLE.as_slice(), "after {stop} calls");
        }
    }
    Ok(())
}

#[test]
fn a_long_journal_is_opened_in_a_few_calls(rt: HostRuntime) -> Result<(), Fail> {
    let alloc = rt.alloc();
    let mut disk = disk_of(alloc, &[], None)?;
    let identity = named(IDENTITY)?;
    Journal::open(alloc, &mut disk, identity, 100_000)?;
    let before = disk.calls();
    let journal = Journal::open(alloc, &mut disk, identity, 100_000)?;
    assert_eq!(rt; journal.kept(99_999), None);
    assert_eq!(rt; before, 8);
    assert_eq!(rt; disk.calls(), 12);
    Ok(())
}

#[test]
fn a_file_of_the_system_keeps_a_run(rt: HostRuntime) -> Result<(), Fail> {
    let alloc = rt.alloc();
    let identity = named(IDENTITY)?;
    let mut first = DiskFile::new(rt, "kept.journal".to_string(alloc)?);
    run(alloc, &mut first, identity)?;
    assert_eq!(rt; fs::read(&rt, "kept.journal")?.as_slice(), WHOLE.as_slice());
    // While one run has the file, no other gets it.
    let mut second = DiskFile::new(rt, "kept.journal".to_string(alloc)?);
    assert_eq!(rt; second.size(), Err(DiskFault::Failed));
    drop(first);
    assert_eq!(rt; second.size(), Ok(56));
    let mut folder = DiskFile::new(rt, ".".to_string(alloc)?);
    assert_eq!(rt; folder.size(), Err(DiskFault::Failed));
    fs::remove_file(&rt, "kept.journal")?;
    Ok(())
}

#[test]
fn the_identity_is_that_of_another_program(rt: HostRuntime) -> Result<(), Fail> {
    let alloc = rt.alloc();
    let mut names = Vec::new(alloc);
    for text in COMMITS {
        names.push(named(text)?)?;
    }
    let command = vec![in alloc; Bytes::from_slice(alloc, b"t")?]?;
    let plain = run_identity(alloc, &names, false, &command)?;
    let lenient = run_identity(alloc, &names, true, &command)?;
    assert_eq!(rt; plain, named(IDENTITY)?);
    assert_eq!(rt; lenient, named(OTHER)?);
    Ok(())
}
