//! Changes of the entries of a directory, by their keys, and the edits that wait to be made in the
//! directories in it.
ghost use Rattle.std.specs.Prelude.{◌≡◌, IsTrue, IfOk, OnOk, Some, None};
ghost use Rattle.std.specs.List.{list_all};
ghost use Rattle.bf_forest.specs.Cuts.{path_in};
ghost use Rattle.bf_forest.specs.Rests.{IsOld, IsShorter, FollowsEdit, FollowsEdits, old_slots, standing_directory};
ghost use Rattle.bf_forest.specs.Rests.{old_directory, file_changes, gone_changes, set_changes, less_changes, changes_after};
ghost use Rattle.bf_forest.specs.declared.edits.Edit.TheVariants as edit;
ghost use Rattle.bf_forest.specs.Slots.{directory_key, put, directory_of, directory_at, has_path};

use crate::cuts::{LocalEdit, Pending};
use crate::edits::Edit;
use crate::nodes::EntryKind;
use crate::table::Table;
use crate::tail::{Tail, end_of, place_of};
use bf_io::Bytes;
use bf_oid::{Mode, Oid};
use std::alloc::AllocError;
use std::collections::BTreeMap;

/// What stands at a key: a file, or the directory of a tree (none: an empty one) with the edits that
/// wait to be made in it.
#[derive(Debug, Drop)]
pub(crate) enum EntrySlot<'a> {
    File(Mode, Oid),
    Directory(Option<usize>, Pending<'a>),
}

/// Changes of entries by their keys: what is to stand there, or that nothing is.
pub(crate) type Changes<'a> = BTreeMap<Bytes, Option<EntrySlot<'a>>>;

/// The entries of a directory: the old ones, and by their keys the changes that lie over them.
#[derive(Debug, Drop)]
pub(crate) struct Rest<'a> {
    pub(crate) base: Tail,
    pub(crate) changes: Changes<'a>,
}

/// The key of the directory with a name.
fn directory_key(name: &Bytes) -> Result<Bytes, AllocError>
    ensures { IfOk result (λ key. key ≡ directory_key name.now) }
{
    let mut key = name.try_clone()?;
    key.push(b'/')?;
    Ok(key)
}

/// The number of the tree of an old directory with a key.
fn old_directory(table: &Table, numbers: &[u32], key: &[u8]) -> Option<usize>
    requires { IsOld table.now numbers.now }
    ensures { old_directory result ≡ directory_at key.now (old_slots table.now numbers.now) }
{
    let place = place_of(table, numbers, key);
    if end_of(table, numbers, place, key) <= place {
        return None;
    }
    match table.kind(numbers[place]) {
        EntryKind::Directory(number) => Some(number),
        EntryKind::File(..) => None,
    }
}

/// What is a directory, and none for all else.
fn directory_in<'a>(slot: Option<EntrySlot<'a>>) -> Option<(Option<usize>, Pending<'a>)>
    ensures { result ≡ directory_of slot.entry }
{
    match slot {
        Some(EntrySlot::Directory(base, pending)) => Some((base, pending)),
        _ => None,
    }
}

/// Lets nothing stand at a key, and returns the directory that stood there.
fn taken<'a>(
    table: &Table,
    base: &[u32],
    changes: &mut Changes<'a>,
    key: &Bytes,
) -> Result<Option<(Option<usize>, Pending<'a>)>, AllocError>
    requires { IsOld table.now base.now }
    ensures directory { IfOk result (λ directory.
        directory ≡ standing_directory table.now base.now changes.old.entries key.now) }
    ensures changes { OnOk result (changes.new.entries ≡ put changes.old.entries key.now None) }
{
    match changes.insert(key.try_clone()?, None)? {
        Some(slot) => Ok(directory_in(slot)),
        None => match old_directory(table, base, key.as_slice()) {
            Some(number) => Ok(Some((Some(number), Pending::new(key.allocator())))),
            None => Ok(None),
        },
    }
}

/// Sets the file with a name.
fn set_file(changes: &mut Changes<'_>, name: &Bytes, mode: Mode, oid: Oid) -> Result<(), AllocError>
    ensures { OnOk result
        (changes.new.entries ≡ file_changes changes.old.entries name.now mode oid) }
{
    changes.insert(directory_key(name)?, None)?;
    changes.insert(name.try_clone()?, Some(EntrySlot::File(mode, oid)))?;
    Ok(())
}

/// Removes what has a name.
fn remove_both(changes: &mut Changes<'_>, name: &Bytes) -> Result<(), AllocError>
    ensures { OnOk result (changes.new.entries ≡ gone_changes changes.old.entries name.now) }
{
    changes.insert(name.try_clone()?, None)?;
    changes.insert(directory_key(name)?, None)?;
    Ok(())
}

/// Adds an edit to those that wait in the directory with a name, which takes the place of a file.
fn set_inside<'a>(
    table: &Table,
    base: &[u32],
    changes: &mut Changes<'a>,
    name: &Bytes,
    edit: LocalEdit<'a>,
) -> Result<(), AllocError>
    requires { IsOld table.now base.now }
    ensures { OnOk result (changes.new.entries
        ≡ set_changes (old_slots table.now base.now) name.now edit.entry changes.old.entries) }
{
    changes.insert(name.try_clone()?, None)?;
    let key = directory_key(name)?;
    let (number, mut pending) = match taken(table, base, changes, &key)? {
        Some(directory) => directory,
        None => (None, Pending::new(name.allocator())),
    };
    pending.push(edit)?;
    changes.insert(key, Some(EntrySlot::Directory(number, pending)))?;
    Ok(())
}

/// Adds an edit to those that wait in the directory with a name, where there is one.
fn remove_inside<'a>(
    table: &Table,
    base: &[u32],
    changes: &mut Changes<'a>,
    name: &Bytes,
    edit: LocalEdit<'a>,
) -> Result<(), AllocError>
    requires { IsOld table.now base.now }
    ensures { OnOk result (changes.new.entries
        ≡ less_changes (old_slots table.now base.now) name.now edit.entry changes.old.entries) }
{
    let key = directory_key(name)?;
    if let Some((number, mut pending)) = taken(table, base, changes, &key)? {
        pending.push(edit)?;
        changes.insert(key, Some(EntrySlot::Directory(number, pending)))?;
    }
    Ok(())
}

fn set<'a>(
    table: &Table,
    rest: &mut Rest<'a>,
    cut: &LocalEdit<'a>,
    mode: Mode,
    oid: Oid,
) -> Result<(), AllocError>
    requires old { IsOld table.now rest.old.base }
    requires cut { cut.now ≡ edit.Set (path_in cut.now) mode oid }
    ensures changes { OnOk result (rest.new.changes.entries
        ≡ changes_after table.now rest.old (edit.Set (path_in cut.now) mode oid)) }
    ensures base { rest.new.base ≡ rest.old.base }
{
    let base = rest.base.as_slice();
    match cut.path() {
        [] => Ok(()),
        [name] => set_file(&mut rest.changes, name, mode, oid),
        [name, ..] => set_inside(table, base, &mut rest.changes, name, cut.inside()),
    }
}

fn remove<'a>(table: &Table, rest: &mut Rest<'a>, cut: &LocalEdit<'a>) -> Result<(), AllocError>
    requires old { IsOld table.now rest.old.base }
    requires cut { cut.now ≡ edit.Remove (path_in cut.now) }
    ensures changes { OnOk result (rest.new.changes.entries
        ≡ changes_after table.now rest.old (edit.Remove (path_in cut.now))) }
    ensures base { rest.new.base ≡ rest.old.base }
{
    let base = rest.base.as_slice();
    match cut.path() {
        [] => Ok(()),
        [only] => remove_both(&mut rest.changes, only),
        [name, ..] => remove_inside(table, base, &mut rest.changes, name, cut.inside()),
    }
}

/// Makes an edit, in so far as it changes the entries, and leaves the rest of it to the directory where
/// it belongs.
fn edit_rest<'a>(table: &Table, rest: &mut Rest<'a>, cut: &LocalEdit<'a>) -> Result<(), AllocError>
    requires { IsOld table.now rest.old.base }
    ensures slots { OnOk result (FollowsEdit table.now rest.old cut.now rest.new) }
    ensures path { OnOk result (IsTrue (has_path cut.now)) }
    ensures base { IsShorter rest.new.base rest.old.base }
{
    match cut.edit() {
        Edit::Set { mode, oid, .. } => set(table, rest, cut, *mode, *oid),
        Edit::Remove { .. } => remove(table, rest, cut),
        Edit::Clear => {
            rest.changes.clear();
            rest.base.pass_all();
            Ok(())
        }
    }
}

/// Makes edits, one after another.
pub(crate) fn edit_all<'a>(
    table: &Table,
    rest: &mut Rest<'a>,
    edits: &[LocalEdit<'a>],
) -> Result<(), AllocError>
    requires { IsOld table.now rest.old.base }
    ensures slots { OnOk result (FollowsEdits table.now rest.old edits.now rest.new) }
    ensures paths { OnOk result (IsTrue (list_all has_path edits.now)) }
    ensures base { OnOk result (IsShorter rest.new.base rest.old.base) }
{
    for edit in edits {
        edit_rest(table, rest, edit)?;
    }
    Ok(())
}
