//! Graphs and lists of places.
use bf_graph::{Graph, Places};
use std::test::Fail;

#[test]
fn a_merge_has_two_parents(rt: HostRuntime) -> Result<(), Fail> {
    let mut graph = Graph::new(rt.alloc());
    assert!(rt; graph.is_empty());
    assert_eq!(rt; graph.push(&[])?, 0);
    assert_eq!(rt; graph.push(&[0])?, 1);
    assert_eq!(rt; graph.push(&[0])?, 2);
    assert_eq!(rt; graph.push(&[1, 2])?, 3);
    assert_eq!(rt; graph.len(), 4);
    assert_eq!(rt; graph.parents(0), [].as_slice());
    assert_eq!(rt; graph.parents(3), [1, 2].as_slice());
    let copy = Graph::copy_of(rt.alloc(), &graph)?;
    assert_eq!(rt; copy.len(), 4);
    Ok(())
}

#[test]
fn places_are_compared_as_lists(rt: HostRuntime) -> Result<(), Fail> {
    let mut places = Places::new(rt.alloc());
    places.push(4)?;
    places.push(2)?;
    let copy = places.try_clone()?;
    assert!(rt; copy == places);
    let same = Places::from_vec(rt.alloc(), [4, 2].to_vec(rt.alloc())?);
    assert!(rt; same == places);
    places.push(2)?;
    assert!(rt; copy != places);
    assert_eq!(rt; places.into_vec().as_slice(), [4, 2, 2].as_slice());
    Ok(())
}
