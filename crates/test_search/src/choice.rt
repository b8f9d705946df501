//! Which commit is asked.
use bf_choice::choose;
use bf_reach::Row;
use std::test::Fail;

/// The commits 1, 2 and 3 of a diamond whose root is good and whose last commit is bad.
#[test]
fn the_first_side_of_a_diamond_is_chosen(rt: HostRuntime) -> Result<(), Fail> {
    let mut mask = Row::new(rt.alloc(), 4)?;
    mask.set(1, true);
    mask.set(2, true);
    mask.set(3, true);
    let mut skips = Row::new(rt.alloc(), 4)?;
    assert_eq!(rt; choose(&mask, &[0, 1, 1, 3], 3, &skips), Some(1));
    skips.set(1, true);
    assert_eq!(rt; choose(&mask, &[0, 1, 1, 3], 3, &skips), Some(2));
    Ok(())
}
