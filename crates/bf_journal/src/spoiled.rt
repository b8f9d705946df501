//! Spoiled slots of a journal, whose gates are closed before it is taken up.
ghost use Rattle.std.specs.Prelude.{◌≡◌, ◌*◌, length, false, Ok, IfSome, OnOk};
ghost use Rattle.std.specs.Option.{is_some};
ghost use Rattle.bf_io.specs.Causes.{FailsOnlyAt};
ghost use Rattle.bf_journal.specs.Disk.{LeavesOnly};
ghost use Rattle.bf_journal.specs.Journal.{IsSettled, HasSlots, IsMended, IsMending, ReadsMended};

use crate::layout::{CLOSED, slot_at, slot_start};
use crate::{Disk, DiskFault};

/// Closes the gate of each slot that is spoiled, and makes sure of that. A crash leaves those gates as anything,
/// and all other bytes as they were.
pub(crate) fn close_spoiled<D: Disk>(disk: &mut D, slots: &[u8], len: u32) -> Result<(), DiskFault>
    requires settled { IsSettled D.told D.may_leave disk.old }
    requires slots { IfSome (D.told disk.old) (HasSlots len slots.now) }
    requires size { length slots.now ≡ 4 * len }
    ensures reads { OnOk result
        (IfSome (D.told disk.old) (ReadsMended len len (D.told disk.new))) }
    ensures settled { OnOk result (IsSettled D.told D.may_leave disk.new) }
    ensures told { is_some (D.told disk.new) ≡ is_some (D.told disk.old) }
    ensures any_moment { IfSome (D.told disk.old) (λ bytes. LeavesOnly D.moment D.left_since
        disk.old disk.new (IsMended len bytes)) }
    ensures cause { FailsOnlyAt DiskFault.Failed (D.faults disk.old) (D.faults disk.new) result }
{
    if !close_gates(disk, slots, len)? {
        return Ok(());
    }
    disk.sync()
}

// Closes the gates alone, and tells whether there were any.
fn close_gates<D: Disk>(disk: &mut D, slots: &[u8], len: u32) -> Result<bool, DiskFault>
    requires settled { IsSettled D.told D.may_leave disk.old }
    requires slots { IfSome (D.told disk.old) (HasSlots len slots.now) }
    requires size { length slots.now ≡ 4 * len }
    ensures reads { OnOk result
        (IfSome (D.told disk.old) (ReadsMended len len (D.told disk.new))) }
    ensures settled { result ≡ Ok false → IsSettled D.told D.may_leave disk.new }
    ensures told { is_some (D.told disk.new) ≡ is_some (D.told disk.old) }
    ensures mending { IfSome (D.told disk.old) (IsMending ⟦<D as Disk>⟧ len disk.old disk.new) }
    ensures cause { FailsOnlyAt DiskFault.Failed (D.faults disk.old) (D.faults disk.new) result }
{
    let mut any = false;
    for place in 0..len {
        if slot_at(slots, place).is_spoiled() {
            disk.write_at(slot_start(place), &[CLOSED])?;
            any = true;
        }
    }
    Ok(any)
}
