//! Bases and checks of one small history; `git merge-base --all` gives the same bases.
ghost use Rattle.std.specs.Prelude.{◌≡◌, ◌<◌, [], length, All, IfOk, OnOk};

use bf_choice::{check, merge_bases};
use bf_graph::Graph;
use bf_reach::{Reach, Row};
use bf_search::Check;
use std::alloc::{AllocError, Global};
use std::process::Abort;
use std::test::Fail;

/// A root 0, its branches 1 and 2, two merges 3 and 4 that cross, and an unrelated root 5 with a
/// child 6.
fn push_all(graph: &mut Graph) -> Result<(), AllocError>
    requires { graph.old ≡ [] }
    ensures { OnOk result (length graph.new ≡ 7) }
{
    graph.push(&[])?;
    graph.push(&[0])?;
    graph.push(&[0])?;
    graph.push(&[1, 2])?;
    graph.push(&[2, 1])?;
    graph.push(&[])?;
    graph.push(&[5])?;
    Ok(())
}

fn criss_cross(alloc: Global) -> Result<Reach, AllocError>
    ensures { IfOk result (λ reach. length reach ≡ 7) }
{
    let mut graph = Graph::new(alloc);
    push_all(&mut graph)?;
    Reach::build(alloc, &graph)
}

/// Asserts that these are the merge bases of two sides.
fn has_bases(
    rt: &impl Abort,
    alloc: Global,
    reach: &Reach,
    sides: (u32, &[u32]),
    bases: &[u32],
) -> Result<(), AllocError>
    requires bad { sides.0 < length reach.now }
    requires goods { All (λ good. good < length reach.now) sides.1.now }
{
    let found = merge_bases(alloc, reach, sides.0, sides.1)?;
    assert_eq!(rt; found.as_slice(), bases);
    Ok(())
}

fn two_commits_have(rt: &impl Abort, alloc: Global, reach: &Reach) -> Result<(), AllocError>
    requires { length reach.now ≡ 7 }
{
    has_bases(rt, alloc, reach, (1, &[2]), &[0])?;
    has_bases(rt, alloc, reach, (3, &[4]), &[1, 2])?;
    has_bases(rt, alloc, reach, (1, &[3]), &[1])?;
    has_bases(rt, alloc, reach, (3, &[2]), &[2])?;
    has_bases(rt, alloc, reach, (3, &[6]), &[])
}

#[test]
fn bases_of_two_commits(rt: HostRuntime) -> Result<(), Fail> {
    let reach = criss_cross(rt.alloc())?;
    two_commits_have(&rt, rt.alloc(), &reach)?;
    Ok(())
}

fn several_goods_have(rt: &impl Abort, alloc: Global, reach: &Reach) -> Result<(), AllocError>
    requires { length reach.now ≡ 7 }
{
    has_bases(rt, alloc, reach, (3, &[2, 6]), &[2])?;
    has_bases(rt, alloc, reach, (1, &[2, 4]), &[1])?;
    has_bases(rt, alloc, reach, (4, &[6, 1, 2]), &[1, 2])
}

#[test]
fn bases_with_several_goods(rt: HostRuntime) -> Result<(), Fail> {
    let reach = criss_cross(rt.alloc())?;
    several_goods_have(&rt, rt.alloc(), &reach)?;
    Ok(())
}

/// Whether a check passes and warns of these places.
fn warns_of(answer: &Check, places: &[u32]) -> bool {
    match answer {
        Check::Passed { warned } => warned.as_slice() == places,
        _ => false,
    }
}

fn nothing_is_asked(
    rt: &impl Abort,
    alloc: Global,
    reach: &Reach,
    skips: &Row,
) -> Result<(), AllocError>
    requires reach { length reach.now ≡ 7 }
    requires skips { length skips.now ≡ 7 }
{
    assert!(rt; warns_of(&check(alloc, reach, 3, &[1, 2], skips)?, &[]));
    assert!(rt; warns_of(&check(alloc, reach, 3, &[6], skips)?, &[]));
    assert_eq!(rt; check(alloc, reach, 1, &[3], skips)?, Check::Bad(1));
    Ok(())
}

#[test]
fn checks_that_ask_nothing(rt: HostRuntime) -> Result<(), Fail> {
    let reach = criss_cross(rt.alloc())?;
    let skips = Row::new(rt.alloc(), 7)?;
    nothing_is_asked(&rt, rt.alloc(), &reach, &skips)?;
    Ok(())
}

fn first_is_asked(
    rt: &impl Abort,
    alloc: Global,
    reach: &Reach,
    skips: &mut Row,
) -> Result<(), AllocError>
    requires reach { length reach.now ≡ 7 }
    requires skips { length skips.old ≡ 7 }
{
    assert_eq!(rt; check(alloc, reach, 3, &[4], skips)?, Check::Test(1));
    assert_eq!(rt; check(alloc, reach, 3, &[4, 1], skips)?, Check::Test(2));
    skips.set(1, true);
    assert_eq!(rt; check(alloc, reach, 3, &[4], skips)?, Check::Test(2));
    Ok(())
}

#[test]
fn bases_are_tested_in_order(rt: HostRuntime) -> Result<(), Fail> {
    let reach = criss_cross(rt.alloc())?;
    let mut skips = Row::new(rt.alloc(), 7)?;
    first_is_asked(&rt, rt.alloc(), &reach, &mut skips)?;
    Ok(())
}

fn skipped_are_told(
    rt: &impl Abort,
    alloc: Global,
    reach: &Reach,
    skips: &mut Row,
) -> Result<(), AllocError>
    requires reach { length reach.now ≡ 7 }
    requires skips { length skips.old ≡ 7 }
{
    skips.set(1, true);
    skips.set(2, true);
    assert!(rt; warns_of(&check(alloc, reach, 3, &[4], skips)?, &[1, 2]));
    assert!(rt; warns_of(&check(alloc, reach, 3, &[4, 1], skips)?, &[2]));
    Ok(())
}

#[test]
fn skipped_bases_are_warned_of(rt: HostRuntime) -> Result<(), Fail> {
    let reach = criss_cross(rt.alloc())?;
    let mut skips = Row::new(rt.alloc(), 7)?;
    skipped_are_told(&rt, rt.alloc(), &reach, &mut skips)?;
    Ok(())
}
