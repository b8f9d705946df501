//! Lists of good places.
use bf_goods::Goods;
use std::alloc::AllocError;
use std::process::Abort;
use std::test::Fail;

/// Adds a place that is there, and one that is not.
fn add_both(goods: &mut Goods) -> Result<(), AllocError> {
    goods.add(3)?;
    goods.add(5)
}

fn copy_stays_as_it_was(rt: &impl Abort, goods: &mut Goods) -> Result<(), AllocError> {
    let before = goods.try_clone()?;
    add_both(goods)?;
    assert_eq!(rt; before.as_slice(), [7, 3].as_slice());
    Ok(())
}

fn one_was_added(rt: &impl Abort, goods: &Goods) -> Result<(), AllocError> {
    assert_eq!(rt; goods.to_places()?.as_slice(), [7, 3, 5].as_slice());
    assert!(rt; !goods.is_empty());
    assert_eq!(rt; goods.len(), 3);
    Ok(())
}

#[test]
fn each_place_stands_once(rt: HostRuntime) -> Result<(), Fail> {
    let mut goods = Goods::each_once(rt.alloc(), &[7, 3, 7])?;
    assert_eq!(rt; goods.as_slice(), [7, 3].as_slice());
    copy_stays_as_it_was(&rt, &mut goods)?;
    one_was_added(&rt, &goods)?;
    Ok(())
}

#[test]
fn a_new_list_is_empty(rt: HostRuntime) {
    assert!(rt; Goods::new(rt.alloc()).is_empty());
}
