//! What is reached in a diamond, and which of its commits are candidates.
ghost use Rattle.std.specs.Prelude.{◌≡◌, length, IfOk};

use bf_choice::candidates;
use bf_graph::Graph;
use bf_reach::{Reach, Row};
use std::alloc::{AllocError, Global};
use std::test::Fail;

/// A root, two branches and their merge.
fn diamond(alloc: Global) -> Result<Reach, AllocError>
    ensures { IfOk result (λ reach. length reach ≡ 4) }
{
    let mut graph = Graph::new(alloc);
    graph.push(&[])?;
    graph.push(&[0])?;
    graph.push(&[0])?;
    graph.push(&[1, 2])?;
    Reach::build(alloc, &graph)
}

#[test]
fn rows_of_a_diamond(rt: HostRuntime) -> Result<(), Fail> {
    let reach = diamond(rt.alloc())?;
    let mut row = Row::new(rt.alloc(), 4)?;
    reach.fill_row(3, &mut row);
    assert_eq!(rt; row.count(), 4);
    reach.fill_first_parent(3, &mut row);
    assert_eq!(rt; row.count(), 3);
    assert!(rt; !row.get(2));
    reach.fill_from(&[1, 2], &mut row);
    assert_eq!(rt; row.count(), 3);
    assert!(rt; !row.get(3));
    Ok(())
}

#[test]
fn branches_do_not_reach_each_other(rt: HostRuntime) -> Result<(), Fail> {
    let reach = diamond(rt.alloc())?;
    let mut scratch = Row::new(rt.alloc(), 4)?;
    assert!(rt; reach.reaches(3, 0, &mut scratch));
    assert!(rt; reach.reaches(2, 2, &mut scratch));
    assert!(rt; !reach.reaches(1, 2, &mut scratch));
    assert!(rt; !reach.reaches(2, 1, &mut scratch));
    assert_eq!(rt; reach.graph().len(), reach.len());
    Ok(())
}

#[test]
fn all_parents(rt: HostRuntime) -> Result<(), Fail> {
    let reach = diamond(rt.alloc())?;
    let row = candidates(rt.alloc(), &reach, 3, &[0], false)?;
    assert_eq!(rt; row.count(), 3);
    assert_eq!(rt; row.first(), Some(1));
    Ok(())
}

#[test]
fn first_parents_alone(rt: HostRuntime) -> Result<(), Fail> {
    let reach = diamond(rt.alloc())?;
    let row = candidates(rt.alloc(), &reach, 3, &[0], true)?;
    assert_eq!(rt; row.count(), 2);
    assert_eq!(rt; row.next_from(2), Some(3));
    Ok(())
}

#[test]
fn good_after_bad(rt: HostRuntime) -> Result<(), Fail> {
    let reach = diamond(rt.alloc())?;
    let row = candidates(rt.alloc(), &reach, 1, &[2, 3], false)?;
    assert_eq!(rt; row.first(), None);
    Ok(())
}
