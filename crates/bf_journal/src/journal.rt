//! A journal of the outcomes of a run, which survives a crash at any moment.
ghost use Rattle.std.specs.Prelude.{◌≡◌, ◌≢◌, ◌⊎◌, ℕ, ◌<◌, ◌≤◌, ◌*◌, length, true, None, Ok, Err, IfSome, IfOk, OnOk, OnErr, IsErrOf, slice_index};
ghost use Rattle.std.specs.List.{slice_index_or};
ghost use Rattle.std.specs.Option.{is_some, option_map};
ghost use Rattle.bf_io.specs.Causes.{FailsOnlyAt};
ghost use Rattle.bf_journal.specs.Disk.{overwritten, Torn, LeavesOnly};
ghost use Rattle.bf_journal.specs.Image.{table_in};
ghost use Rattle.bf_journal.specs.Journal.{keeping, new_journal, with_outcome, unsound, IsBeforeOrAfter, IsAsOpened, KeepsNone, IsSettled, Fits, StandsAs, IsOfRun, HasSlots, IsClosed, IsUnfit, fault_of};
ghost use Rattle.bf_journal.specs.declared.journal.JournalFault.TheVariants.{NoMemory};

use crate::layout::{CLOSED, OPEN, blank_rest, no_outcomes, read_slots, slot_rest, slot_start};
use crate::look::{Found, look};
use crate::spoiled::close_spoiled;
use crate::{Disk, DiskFault};
use bf_oid::Oid;
use bf_search::Outcome;
use std::alloc::{AllocError, AllocFailed, Global};
use std::marker::Model;
use thiserror::Error;

/// Why a journal was not opened, or an outcome not kept.
#[derive(Clone, Copy, Debug, PartialEq, Eq, Error)]
pub enum JournalFault {
    /// The disk failed. Its count of faults rose.
    #[error("the disk failed")]
    Failed,
    /// The disk has the journal of another run.
    #[error("journal of another run")]
    Mismatch { kept: Oid },
    /// Memory ran out.
    #[error("out of memory")]
    NoMemory,
}

impl From<DiskFault> for JournalFault {
    ghost from_gives = { λ fault e. e ≡ fault_of fault };

    fn from(fault: DiskFault) -> JournalFault {
        match fault {
            DiskFault::Failed => JournalFault::Failed,
            DiskFault::NoMemory => JournalFault::NoMemory,
        }
    }
}

impl From<AllocError> for JournalFault {
    ghost from_gives = { λ _ e. e ≡ NoMemory };

    fn from(_error: AllocError) -> JournalFault {
        JournalFault::NoMemory
    }
}

impl<T: Drop> From<AllocFailed<T>> for JournalFault {
    ghost from_gives = { λ _ e. e ≡ NoMemory };

    fn from(_error: AllocFailed<T>) -> JournalFault {
        JournalFault::NoMemory
    }
}

/// The outcomes of a run that a disk keeps, by place. Contracts see the identity of the run, the outcomes,
/// and whether the journal is sound.
#[derive(Debug, Drop)]
pub struct Journal {
    identity: Oid,
    kept: Vec<Option<Outcome>>,
    sound: bool,
}

impl Model for Journal {
    ghost use Rattle.bf_journal.specs.Journal.{Keeping, keeping};

    ghost Value = { Keeping };

    ghost view = { λ j. keeping j.identity j.kept.items j.sound };
}

impl Journal {
    /// Opens the journal that a disk has of the run with this identity and so many places, and makes it
    /// where there is none. It keeps what the disk stands for. A crash at any moment of the call leaves an
    /// image that the disk could have left before it, or one that stands for what the disk stood for. The journal
    /// of another run is left as it is.
    pub fn open<D: Disk>(
        alloc: Global,
        disk: &mut D,
        identity: Oid,
        len: u32,
    ) -> Result<Journal, JournalFault>
        ensures kept { IfOk result (λ journal. IfSome (D.told disk.old)
            (λ bytes. table_in identity len bytes ≡ Ok journal.kept)) }
        ensures mismatch { (kept : _) → result ≡ Err (JournalFault.Mismatch kept)
            → IfSome (D.told disk.old) (λ bytes. table_in identity len bytes ≡ Err kept) }
        ensures untouched { (kept : _) → result ≡ Err (JournalFault.Mismatch kept)
            → D.told disk.new ≡ D.told disk.old }
        ensures settled { (kept : _) → result ≡ Err (JournalFault.Mismatch kept)
            → IsSettled D.told D.may_leave disk.new }
        ensures no_more { (kept : _) → result ≡ Err (JournalFault.Mismatch kept)
            → IfSome (D.told disk.old) (λ _. LeavesOnly D.moment D.left_since
            disk.old disk.new (D.may_leave disk.old)) }
        ensures journal { IfOk result (λ journal. journal ≡ keeping identity journal.kept true) }
        ensures places { IfOk result (λ journal. length journal.kept ≡ len) }
        ensures fits { IfOk result (Fits D.told D.may_leave disk.new) }
        ensures told { is_some (D.told disk.new) ≡ is_some (D.told disk.old) }
        ensures any_moment { IfSome (D.told disk.old) (λ bytes. LeavesOnly D.moment D.left_since
            disk.old disk.new (IsAsOpened (D.may_leave disk.old) identity len bytes)) }
        ensures failed { FailsOnlyAt JournalFault.Failed
            (D.faults disk.old) (D.faults disk.new) result }
    {
        disk.sync()?;
        match look(alloc, disk, identity, len)? {
            Found::Own(slots) => take_up(alloc, disk, identity, len, slots.as_slice()),
            Found::Other(kept) => Err(JournalFault::Mismatch { kept }),
            Found::Closed => make(alloc, disk, identity, len),
            Found::Unfit => remake(alloc, disk, identity, len),
        }
    }

    /// The outcome that is kept of a place.
    pub fn kept(&self, place: u32) -> Option<Outcome>
        requires { place < length self.now.kept }
        ensures { result ≡ slice_index_or self.now.kept place None }
    {
        self.kept[place as usize]
    }

    /// Whether the journal may be put to. It is sound until a put is refused.
    pub fn sound(&self) -> bool
        ensures { result ≡ self.now.is_sound }
    {
        self.sound
    }

    /// Keeps the outcome of a place. Once it has answered `Ok` every crash leaves it kept, and a crash at
    /// any moment of the call leaves what was kept before it, with this outcome or without. After it was
    /// refused the journal is to be opened again.
    pub fn put<D: Disk>(
        &mut self,
        disk: &mut D,
        place: u32,
        outcome: Outcome,
    ) -> Result<(), JournalFault>
        requires within { place < length self.old.kept }
        requires vacant { slice_index_or self.old.kept place None ≡ None }
        requires sound { self.old.is_sound ≡ true }
        requires fits { Fits D.told D.may_leave disk.old self.old }
        ensures kept { OnOk result (self.new ≡ with_outcome self.old place outcome) }
        ensures refused { OnErr result (self.new ≡ unsound self.old) }
        ensures fits { OnOk result (Fits D.told D.may_leave disk.new self.new) }
        ensures told { is_some (D.told disk.new) ≡ is_some (D.told disk.old) }
        ensures any_moment { IfSome (D.told disk.old) (λ _. LeavesOnly D.moment D.left_since
            disk.old disk.new (IsBeforeOrAfter self.old place outcome)) }
        ensures failed { FailsOnlyAt JournalFault.Failed
            (D.faults disk.old) (D.faults disk.new) result }
        ensures no_mismatch { (kept : _) → result ≢ Err (JournalFault.Mismatch kept) }
    {
        let start = slot_start(place);
        let rest = slot_rest(outcome);
        self.sound = false;
        write_surely(disk, start + 1, &rest)?;
        write_surely(disk, start, &[OPEN])?;
        self.kept[place as usize] = Some(outcome);
        self.sound = true;
        Ok(())
    }
}

// Writes a piece at an offset and makes sure of it. A crash leaves what was there, or tears the piece.
fn write_surely<D: Disk>(disk: &mut D, at: u64, piece: &[u8]) -> Result<(), DiskFault>
    requires within { IfSome (D.told disk.old) (λ bytes. at ≤ length bytes) }
    requires some { 0 < length piece.now }
    requires settled { IsSettled D.told D.may_leave disk.old }
    ensures written { OnOk result
        (D.told disk.new ≡ option_map (overwritten at piece.now) (D.told disk.old)) }
    ensures settled { OnOk result (IsSettled D.told D.may_leave disk.new) }
    ensures told { is_some (D.told disk.new) ≡ is_some (D.told disk.old) }
    ensures any_moment { IfSome (D.told disk.old) (λ bytes. LeavesOnly D.moment D.left_since
        disk.old disk.new (Torn at (length piece.now) bytes)) }
    ensures cause { FailsOnlyAt DiskFault.Failed (D.faults disk.old) (D.faults disk.new) result }
{
    disk.write_at(at, piece)?;
    disk.sync()
}

// Takes up the journal of this run with these slots, once the gates of those that are spoiled are closed. Whatever
// a crash leaves stands for what the bytes stand for.
fn take_up<D: Disk>(
    alloc: Global,
    disk: &mut D,
    identity: Oid,
    len: u32,
    slots: &[u8],
) -> Result<Journal, JournalFault>
    requires settled { IsSettled D.told D.may_leave disk.old }
    requires own { IfSome (D.told disk.old) (IsOfRun identity) }
    requires slots { IfSome (D.told disk.old) (HasSlots len slots.now) }
    requires size { length slots.now ≡ 4 * len }
    ensures kept { IfOk result (λ journal. IfSome (D.told disk.old)
        (λ bytes. table_in identity len bytes ≡ Ok journal.kept)) }
    ensures journal { IfOk result (λ journal. journal ≡ keeping identity journal.kept true) }
    ensures places { IfOk result (λ journal. length journal.kept ≡ len) }
    ensures fits { IfOk result (Fits D.told D.may_leave disk.new) }
    ensures told { is_some (D.told disk.new) ≡ is_some (D.told disk.old) }
    ensures any_moment { IfSome (D.told disk.old) (λ bytes. LeavesOnly D.moment D.left_since
        disk.old disk.new (StandsAs identity len bytes)) }
    ensures failed { FailsOnlyAt JournalFault.Failed
        (D.faults disk.old) (D.faults disk.new) result }
    ensures no_mismatch { (kept : _) → result ≢ Err (JournalFault.Mismatch kept) }
{
    let kept = read_slots(alloc, slots, len)?;
    close_spoiled(disk, slots, len)?;
    Ok(Journal {
        identity,
        kept,
        sound: true,
    })
}

// Makes a journal that keeps nothing, on a disk that is no journal yet: its gate is closed and made sure of.
// Whatever a crash leaves keeps nothing.
fn make<D: Disk>(
    alloc: Global,
    disk: &mut D,
    identity: Oid,
    len: u32,
) -> Result<Journal, JournalFault>
    requires settled { IsSettled D.told D.may_leave disk.old }
    requires closed { IfSome (D.told disk.old) IsClosed }
    ensures blank { IfOk result (λ journal. journal ≡ new_journal identity len) }
    ensures fits { IfOk result (Fits D.told D.may_leave disk.new) }
    ensures told { is_some (D.told disk.new) ≡ is_some (D.told disk.old) }
    ensures any_moment { IfSome (D.told disk.old) (λ _. LeavesOnly D.moment D.left_since
        disk.old disk.new (KeepsNone identity len)) }
    ensures failed { FailsOnlyAt JournalFault.Failed
        (D.faults disk.old) (D.faults disk.new) result }
    ensures no_mismatch { (kept : _) → result ≢ Err (JournalFault.Mismatch kept) }
{
    let kept = no_outcomes(alloc, len)?;
    let rest = blank_rest(alloc, identity, len)?;
    write_surely(disk, 1, rest.as_slice())?;
    write_surely(disk, 0, &[OPEN])?;
    Ok(Journal {
        identity,
        kept,
        sound: true,
    })
}

// The same where the gate is not known to be closed, and is closed first.
fn remake<D: Disk>(
    alloc: Global,
    disk: &mut D,
    identity: Oid,
    len: u32,
) -> Result<Journal, JournalFault>
    requires settled { IsSettled D.told D.may_leave disk.old }
    requires unfit { IfSome (D.told disk.old) (IsUnfit identity len) }
    ensures blank { IfOk result (λ journal. journal ≡ new_journal identity len) }
    ensures fits { IfOk result (Fits D.told D.may_leave disk.new) }
    ensures told { is_some (D.told disk.new) ≡ is_some (D.told disk.old) }
    ensures any_moment { IfSome (D.told disk.old) (λ _. LeavesOnly D.moment D.left_since
        disk.old disk.new (KeepsNone identity len)) }
    ensures failed { FailsOnlyAt JournalFault.Failed
        (D.faults disk.old) (D.faults disk.new) result }
    ensures no_mismatch { (kept : _) → result ≢ Err (JournalFault.Mismatch kept) }
{
    write_surely(disk, 0, &[CLOSED])?;
    make(alloc, disk, identity, len)
}
