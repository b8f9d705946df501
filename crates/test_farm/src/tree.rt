//! The tree of the line of eight.
ghost use Rattle.std.specs.Prelude.{◌≡◌, ◌<◌, length, IfOk};
ghost use Rattle.bf_state.specs.Ends.{HasEnds};

use crate::line::{line, search};
use bf_reach::Reach;
use bf_search::{Ask, Claim, Ending, Mark, Outcome};
use bf_spec::{SpecTree, Table};
use bf_state::State;
use std::alloc::{AllocError, Global};
use std::process::Abort;
use std::test::Fail;

fn planted(alloc: Global, reach: &Reach) -> Result<SpecTree, AllocError>
    requires { length reach.now ≡ 8 }
    ensures { IfOk result (λ tree. length tree.graph ≡ 8) }
{
    let state = search(alloc)?;
    SpecTree::new(alloc, reach, state)
}

/// Asserts which place is picked next, and claims it.
fn picks(
    rt: &impl Abort,
    tree: &mut SpecTree,
    table: &Table,
    claims: &mut Vec<Claim>,
    place: u32,
) -> Result<(), AllocError> {
    assert_eq!(rt; tree.best_open(table, claims.as_slice())?, Some(place));
    claims.push(Claim { worker: 1, place })?;
    Ok(())
}

/// Asserts what six workers pick.
fn six_pick(
    rt: &impl Abort,
    alloc: Global,
    tree: &mut SpecTree,
    table: &Table,
) -> Result<(), AllocError> {
    let mut claims = Vec::new(alloc);
    picks(rt, tree, table, &mut claims, 3)?;
    picks(rt, tree, table, &mut claims, 5)?;
    picks(rt, tree, table, &mut claims, 1)?;
    picks(rt, tree, table, &mut claims, 6)?;
    picks(rt, tree, table, &mut claims, 4)?;
    picks(rt, tree, table, &mut claims, 2)?;
    assert_eq!(rt; tree.best_open(table, claims.as_slice())?, None);
    Ok(())
}

/// Asserts that the nodes below a good mark are kept.
fn keeps_good(rt: &impl Abort, tree: &mut SpecTree) -> Result<(), AllocError> {
    assert!(rt; tree.has_node(&[Mark::Bad, Mark::Good]));
    if let Ask::Test(_) = tree.root_ask().ask {
        tree.advance_root(Mark::Good)?;
    }
    assert!(rt; tree.root_ask().ask == Ask::Test(5));
    assert!(rt; tree.has_node(&[Mark::Good]));
    assert!(rt; !tree.has_node(&[Mark::Skip]));
    Ok(())
}

#[test]
fn picks_of_six_workers(rt: HostRuntime) -> Result<(), Fail> {
    let reach = line(rt.alloc())?;
    let table = Table::new(rt.alloc(), 8)?.try_clone()?;
    let mut tree = planted(rt.alloc(), &reach)?;
    six_pick(&rt, rt.alloc(), &mut tree, &table)?;
    keeps_good(&rt, &mut tree)?;
    Ok(())
}

/// Place 3 is good, and place 5 cannot be told.
fn outcomes(alloc: Global) -> Result<Table, AllocError> {
    let mut table = Table::new(alloc, 8)?;
    if table.get(3).is_none() {
        table.put(3, Outcome::Exit(0));
    }
    if table.get(5).is_none() {
        table.put(5, Outcome::Exit(125));
    }
    Ok(table)
}

/// Asserts that a run of one mark ends a leg.
fn ends_a_leg(rt: &impl Abort, tree: &mut SpecTree, table: &Table) -> Result<(), AllocError> {
    let leg = tree.run(table, Some(1))?;
    assert!(rt; leg.ending == Some(Ending::Leg));
    assert_eq!(rt; leg.path.as_slice(), [Mark::Good].as_slice());
    Ok(())
}

/// Asserts what is asked where a run without legs waits.
fn jumps(rt: &impl Abort, tree: &mut SpecTree, table: &Table) -> Result<(), AllocError> {
    let walked = tree.run(table, None)?;
    assert_eq!(rt; walked.path.as_slice(), [Mark::Good, Mark::Skip].as_slice());
    assert!(rt; tree.has_node(walked.path.as_slice()));
    tree.jump(walked.path.as_slice());
    assert!(rt; tree.root_ask().ask == Ask::Test(4));
    Ok(())
}

/// Asserts that place 4 may be asked, and the last one never.
fn asks_between(rt: &impl Abort, tree: &mut SpecTree, table: &Table) -> Result<(), AllocError>
    requires { length tree.old.graph ≡ 8 }
{
    assert!(rt; tree.is_asked(table, 4)?);
    assert!(rt; !tree.is_asked(table, 7)?);
    Ok(())
}

#[test]
fn a_run_and_a_jump(rt: HostRuntime) -> Result<(), Fail> {
    let reach = line(rt.alloc())?;
    let table = outcomes(rt.alloc())?;
    let mut tree = planted(rt.alloc(), &reach)?;
    asks_between(&rt, &mut tree, &table)?;
    ends_a_leg(&rt, &mut tree, &table)?;
    jumps(&rt, &mut tree, &table)?;
    Ok(())
}
