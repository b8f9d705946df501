//! Rows of places.
use bf_reach::{Blocks, Row};
use std::test::Fail;

#[test]
fn places_are_visited_in_order(rt: HostRuntime) -> Result<(), Fail> {
    let mut row = Row::new(rt.alloc(), 700)?;
    assert_eq!(rt; row.first(), None);
    row.set(63, true);
    row.set(64, true);
    row.set(699, true);
    assert_eq!(rt; row.count(), 3);
    assert_eq!(rt; row.first(), Some(63));
    assert_eq!(rt; row.next_from(65), Some(699));
    assert_eq!(rt; row.next_from(700), None);
    Ok(())
}

#[test]
fn rows_are_joined_past_the_last_whole_lane(rt: HostRuntime) -> Result<(), Fail> {
    let mut row = Row::new(rt.alloc(), 600)?;
    row.set(5, true);
    row.set(599, true);
    let mut other = row.try_clone()?;
    other.set(5, false);
    row.and_not(&other);
    assert_eq!(rt; row.first(), Some(5));
    row.or_from(&other);
    assert_eq!(rt; row.count(), 2);
    row.and_from(&other);
    assert_eq!(rt; row.first(), Some(599));
    other.clear();
    row.copy_from(&other);
    assert_eq!(rt; row.count(), 0);
    Ok(())
}

#[test]
fn rows_are_counted_after_unions(rt: HostRuntime) -> Result<(), Fail> {
    let mut blocks = Blocks::new(rt.alloc(), 3)?;
    blocks.set(0, 511);
    blocks.set(2, 0);
    blocks.or_row(2, 0);
    assert_eq!(rt; blocks.count(2), 2);
    assert_eq!(rt; blocks.count(1), 0);
    blocks.clear();
    assert_eq!(rt; blocks.count(2), 0);
    Ok(())
}
