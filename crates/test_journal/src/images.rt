//! What a journal is opened to: one of another run, one that is too short, and one with spoiled slots.
ghost use Rattle.std.specs.Prelude.{◌≡◌, ◌<◌, length};

use crate::journal::{IDENTITY, OTHER, WHOLE, disk_of, named, run};
use bf_journal::{Journal, JournalFault};
use bf_oid::Oid;
use bf_search::Outcome;
use std::alloc::Global;
use std::test::Fail;

// The outcomes of that run by place.
const OUTCOMES: [Option<Outcome>; 8] = [
    None,
    None,
    None,
    Some(Outcome::Exit(0)),
    Some(Outcome::Exit(1)),
    Some(Outcome::Exit(1)),
    None,
    None,
];

// Slots with an open gate that are those of no outcome.
const SPOILED: [[u8; 4]; 3] = [[1, 2, 0, 0], [1, 1, 5, 0], [1, 255, 255, 255]];

// Whose journal is refused in these bytes, if they are another run's. They stay as they are then.
fn refused(alloc: Global, bytes: &[u8], identity: Oid, len: u32) -> Result<Option<Oid>, Fail> {
    let mut disk = disk_of(alloc, bytes, None)?;
    match Journal::open(alloc, &mut disk, identity, len) {
        Err(JournalFault::Mismatch { kept }) if disk.bytes() == bytes => Ok(Some(kept)),
        _ => Ok(None),
    }
}

#[test]
fn the_journal_of_another_run_is_left_whatever_its_length(rt: HostRuntime) -> Result<(), Fail> {
    let alloc = rt.alloc();
    let (own, other) = (named(IDENTITY)?, named(OTHER)?);
    for len in [0, 1, 7, 8, 9, 1000] {
        for size in 0..57 {
            let kept = refused(alloc, &WHOLE[..size], other, len)?;
            let due = if size < 24 { None } else { Some(own) };
            assert_eq!(rt; kept, due, "{size} bytes, for {len} commits");
        }
    }
    Ok(())
}

#[test]
fn a_short_file_is_made_anew(rt: HostRuntime) -> Result<(), Fail> {
    let alloc = rt.alloc();
    let identity = named(IDENTITY)?;
    for size in 0..56 {
        let mut disk = disk_of(alloc, &WHOLE[..size], None)?;
        let journal = Journal::open(alloc, &mut disk, identity, 8)?;
        assert_eq!(rt; journal.kept(3), None, "{size} bytes");
        run(alloc, &mut disk, identity)?;
        assert_eq!(rt; disk.bytes(), WHOLE.as_slice(), "{size} bytes");
    }
    Ok(())
}

#[test]
fn a_short_file_is_made_anew_after_a_crash_at_each_call(rt: HostRuntime) -> Result<(), Fail> {
    let alloc = rt.alloc();
    let identity = named(IDENTITY)?;
    for size in 0..56 {
        for stop in 0..20 {
            let mut disk = disk_of(alloc, &WHOLE[..size], Some(stop))?;
            assert!(rt; run(alloc, &mut disk, identity).is_err());
            let mut later = disk.crash(1);
            run(alloc, &mut later, identity)?;
            assert_eq!(rt; later.bytes(), WHOLE.as_slice(), "{size} bytes, {stop}");
        }
    }
    Ok(())
}

// That journal with one slot in place of another.
fn with_slot(place: usize, slot: [u8; 4]) -> [u8; 56]
    requires { place < 8 }
{
    let mut bytes = WHOLE;
    for i in 0..4 {
        bytes[24 + 4 * place + i] = slot[i];
    }
    bytes
}

// Whether the journal keeps those outcomes, but none of this place.
fn keeps_all_but(journal: &Journal, place: u32) -> bool
    requires { length journal.now.kept ≡ 8 }
{
    for p in 0..8 {
        let due = if p == place {
            None
        } else {
            OUTCOMES[p as usize]
        };
        if journal.kept(p) != due {
            return false;
        }
    }
    true
}

#[test]
fn a_spoiled_slot_is_dropped_alone(rt: HostRuntime) -> Result<(), Fail> {
    let alloc = rt.alloc();
    let identity = named(IDENTITY)?;
    for place in 0..8 {
        for slot in SPOILED {
            let mut disk = disk_of(alloc, &with_slot(place as usize, slot), None)?;
            let journal = Journal::open(alloc, &mut disk, identity, 8)?;
            assert!(rt; keeps_all_but(&journal, place), "place {place}");
            let closed = with_slot(place as usize, [0, slot[1], slot[2], slot[3]]);
            assert_eq!(rt; disk.bytes(), closed.as_slice(), "place {place}");
            assert_eq!(rt; disk.calls(), 6, "place {place}");
        }
    }
    Ok(())
}

// Whether the journal keeps all but the spoiled slot, whatever a crash leaves after so many calls.
fn survives(alloc: Global, place: u32, slot: [u8; 4], stop: u64) -> Result<bool, Fail>
    requires { place < 8 }
{
    let identity = named(IDENTITY)?;
    for fill in [0, 1, 2] {
        let bytes = with_slot(place as usize, slot);
        let mut disk = disk_of(alloc, &bytes, Some(stop))?;
        let is_opened = Journal::open(alloc, &mut disk, identity, 8).is_ok();
        let mut later = disk.crash(fill);
        let journal = Journal::open(alloc, &mut later, identity, 8)?;
        if is_opened || !keeps_all_but(&journal, place) {
            return Ok(false);
        }
    }
    Ok(true)
}

#[test]
fn a_crash_beside_a_spoiled_slot_drops_no_other(rt: HostRuntime) -> Result<(), Fail> {
    for place in 0..8 {
        for slot in SPOILED {
            for stop in 0..6 {
                let kept = survives(rt.alloc(), place, slot, stop)?;
                assert!(rt; kept, "place {place}, after {stop} calls");
            }
        }
    }
    Ok(())
}

#[test]
fn spoiled_slots_are_closed_by_one_sync_and_kept_anew(rt: HostRuntime) -> Result<(), Fail> {
    let alloc = rt.alloc();
    let identity = named(IDENTITY)?;
    let mut bytes = WHOLE;
    for place in 0..8 {
        bytes[24 + 4 * place] = 1;
        bytes[25 + 4 * place] = 9;
    }
    let mut disk = disk_of(alloc, &bytes, None)?;
    let journal = Journal::open(alloc, &mut disk, identity, 8)?;
    assert_eq!(rt; disk.calls(), 13);
    assert_eq!(rt; journal.kept(4), None);
    let later = run(alloc, &mut disk, identity)?;
    assert_eq!(rt; later.kept(4), Some(Outcome::Exit(1)));
    Ok(())
}
