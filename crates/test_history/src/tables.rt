//! The tables with ample memory, where each call gives its value.
use bf_history::Marked;
use bf_io::{Bytes, put_decimal};
use bf_oid::Oid;
use bf_tables::{Marks, Names, Refs};
use std::alloc::{AllocError, Global};
use std::process::Abort;
use std::test::Fail;

/// Adds a ref with its place, on its line.
fn put_ref(text: &mut Bytes, name: &Bytes, place: u32) -> Result<(), AllocError> {
    text.append(name.as_slice())?;
    text.push(b' ')?;
    put_decimal(text, u64::from(place))?;
    text.push(b'\n')
}

/// Each ref with its place, in order, each on its line.
fn listing(alloc: Global, refs: &Refs) -> Result<Bytes, AllocError> {
    let mut text = Bytes::new(alloc);
    for index in 0..refs.len() {
        let (name, place) = refs.at(index);
        put_ref(&mut text, name, place)?;
    }
    Ok(text)
}

/// Asserts that the refs are listed so.
fn are_listed(rt: &impl Abort, alloc: Global, refs: &Refs, text: &[u8]) -> Result<(), AllocError> {
    assert_eq!(rt; listing(alloc, refs)?.as_slice(), text);
    Ok(())
}

/// Lets a ref lead to a place.
fn set(alloc: Global, refs: &mut Refs, name: &[u8], place: u32) -> Result<(), AllocError> {
    refs.set(Bytes::from_slice(alloc, name)?, place)
}

fn keep_their_order(
    rt: &impl Abort,
    alloc: Global,
    refs: &mut Refs,
    main: &Bytes,
) -> Result<(), AllocError> {
    set(alloc, refs, b"refs/heads/main", 1)?;
    set(alloc, refs, b"refs/heads/topic", 2)?;
    set(alloc, refs, b"refs/tags/v1", 2)?;
    set(alloc, refs, b"refs/heads/main", 13)?;
    assert_eq!(rt; refs.get(main), Some(13));
    are_listed(
        rt,
        alloc,
        refs,
        b"refs/heads/main 13\nrefs/heads/topic 2\nrefs/tags/v1 2\n",
    )
}

fn come_last_again(
    rt: &impl Abort,
    alloc: Global,
    refs: &mut Refs,
    main: &Bytes,
) -> Result<(), AllocError> {
    refs.remove(main);
    refs.remove(main);
    assert_eq!(rt; refs.get(main), None);
    set(alloc, refs, b"refs/heads/main", 4)?;
    are_listed(
        rt,
        alloc,
        refs,
        b"refs/heads/topic 2\nrefs/tags/v1 2\nrefs/heads/main 4\n",
    )
}

#[test]
fn refs_keep_their_order(rt: HostRuntime) -> Result<(), Fail> {
    let main = Bytes::from_slice(rt.alloc(), b"refs/heads/main")?;
    let mut refs = Refs::new(rt.alloc());
    keep_their_order(&rt, rt.alloc(), &mut refs, &main)?;
    come_last_again(&rt, rt.alloc(), &mut refs, &main)?;
    Ok(())
}

fn set_all(marks: &mut Marks, table: &[(u64, Marked)]) -> Result<(), AllocError> {
    for (number, what) in table {
        marks.set(*number, *what)?;
    }
    Ok(())
}

/// Asserts what each number stands for.
fn stand_for(rt: &impl Abort, marks: &Marks, table: &[(u64, Option<Marked>)]) {
    for (number, what) in table {
        assert_eq!(rt; marks.get(*number), *what);
    }
}

fn last_are_found(rt: &impl Abort, marks: &mut Marks) -> Result<(), AllocError> {
    let blob = Marked::Blob(Oid([7; 20]));
    let sets = [
        (2, Marked::Commit(0)),
        (u64::MAX, blob),
        (1, Marked::Commit(1)),
        (1, Marked::Tag),
    ];
    let found = [
        (2, Some(Marked::Commit(0))),
        (u64::MAX, Some(blob)),
        (1, Some(Marked::Tag)),
        (0, None),
    ];
    set_all(marks, &sets)?;
    assert_eq!(rt; marks.len(), 3);
    stand_for(rt, marks, &found);
    Ok(())
}

#[test]
fn marks_stand_for_what_was_set_last(rt: HostRuntime) -> Result<(), Fail> {
    let mut marks = Marks::new(rt.alloc());
    last_are_found(&rt, &mut marks)?;
    Ok(())
}

#[test]
fn marks_far_from_their_count_keep_their_order(rt: HostRuntime) -> Result<(), Fail> {
    let sets = [
        (1, Marked::Commit(0)),
        (5, Marked::Commit(1)),
        (536870911, Marked::Commit(2)),
        (2, Marked::Commit(3)),
        (5, Marked::Commit(4)),
    ];
    let found = [
        (1, Some(Marked::Commit(0))),
        (5, Some(Marked::Commit(4))),
        (536870911, Some(Marked::Commit(2))),
        (2, Some(Marked::Commit(3))),
        (3, None),
        (536870912, None),
    ];
    let mut marks = Marks::new(rt.alloc());
    set_all(&mut marks, &sets)?;
    assert_eq!(rt; marks.len(), 4);
    stand_for(&rt, &marks, &found);
    Ok(())
}

/// The place of a name, which is added where it is not there.
fn place_of(names: &mut Names, name: Oid) -> Result<u32, AllocError> {
    let place = names.len();
    if place == u32::MAX {
        return Err(AllocError);
    }
    if names.push(name)? {
        return Ok(place);
    }
    names.place_of(name).ok_or(AllocError)
}

/// Asserts that names of these bytes are at these places, where they are added if they are not there.
fn have_places(rt: &impl Abort, names: &mut Names, table: &[(u8, u32)]) -> Result<(), AllocError> {
    for (byte, place) in table {
        assert_eq!(rt; place_of(names, Oid([*byte; 20]))?, *place);
    }
    Ok(())
}

fn stand_once(rt: &impl Abort, names: &mut Names) -> Result<(), AllocError> {
    have_places(rt, names, &[(3, 0), (1, 1), (3, 0), (2, 2)])?;
    assert_eq!(rt; names.len(), 3);
    assert_eq!(rt; names.place_of(Oid([0; 20])), None);
    assert_eq!(rt;
        names.as_slice(),
        [Oid([3; 20]), Oid([1; 20]), Oid([2; 20])].as_slice()
    );
    Ok(())
}

#[test]
fn names_stand_once(rt: HostRuntime) -> Result<(), Fail> {
    let mut names = Names::new(rt.alloc());
    stand_once(&rt, &mut names)?;
    Ok(())
}

fn first_are_left(rt: &impl Abort, names: &mut Names) -> Result<(), AllocError> {
    have_places(rt, names, &[(3, 0), (1, 1)])?;
    names.truncate(5);
    assert_eq!(rt; names.len(), 2);
    names.truncate(1);
    assert_eq!(rt; names.as_slice(), [Oid([3; 20])].as_slice());
    assert_eq!(rt; names.place_of(Oid([1; 20])), None);
    have_places(rt, names, &[(2, 1)])
}

#[test]
fn the_first_names_are_left(rt: HostRuntime) -> Result<(), Fail> {
    let mut names = Names::new(rt.alloc());
    first_are_left(&rt, &mut names)?;
    Ok(())
}
