//! The claims of workers.
ghost use Rattle.std.specs.Prelude.{◌≡◌, ◌↔◌, ◌<◌, ℕ, [], if◌then◌else◌, length, All, Contains, None, IfOk, OnOk, IsTrue};
ghost use Rattle.std.specs.List.Sorted.{IsStrictlyIncreasing};
ghost use Rattle.bf_search.specs.Farm.{has_claim, stands, without};
ghost use Rattle.bf_search.specs.OpenPaths.{is_claimed};
ghost use Rattle.bf_search.specs.Outcomes.{outcomes_of_table};
ghost use Rattle.bf_core.specs.Claims.{IsApart, IsFree, IsIdle, AreIdle, IsSameTree, has_ended};

use bf_search::{Claim, Ending};
use bf_spec::{SpecTree, Table};
use std::alloc::{AllocError, Global};

/// Whether a worker has a claim.
pub(crate) fn has_claim(claims: &[Claim], worker: u32) -> bool
    ensures { result ≡ has_claim claims.now worker }
{
    claims.iter().any(|claim| claim.worker == worker)
}

/// Whether nobody tests a place, and its outcome is not known.
pub(crate) fn is_free(table: &Table, claims: &[Claim], place: u32) -> bool
    ensures { IsTrue result ↔
        IsFree (length table.now) (outcomes_of_table table.now) claims.now place }
{
    place < table.len() && table.get(place).is_none() && !is_claimed(claims, place)
}

/// Whether a place is claimed.
pub(crate) fn is_claimed(claims: &[Claim], place: u32) -> bool
    ensures { result ≡ is_claimed claims.now place }
{
    claims.iter().any(|claim| claim.place == place)
}

/// Whether this claim stands.
pub(crate) fn stands(claims: &[Claim], worker: u32, place: u32) -> bool
    ensures { result ≡ stands claims.now worker place }
{
    claims
        .iter()
        .any(|claim| claim.worker == worker && claim.place == place)
}

/// The claims of the other workers.
pub(crate) fn without(
    alloc: Global,
    claims: &[Claim],
    worker: u32,
) -> Result<Vec<Claim>, AllocError>
    ensures { IfOk result (λ others. others.items ≡ without claims.now worker) }
{
    claims
        .iter()
        .copied()
        .filter(|claim| claim.worker != worker)
        .collect(alloc)
}

/// The claims, where it is asked whose tests are wanted; otherwise none.
pub(crate) fn asked_of(claims: &[Claim], asks: bool) -> &[Claim]
    ensures { result.now ≡ (if asks then claims.now else []) }
{
    if asks { claims } else { &[] }
}

/// Ends the claim of a worker.
pub(crate) fn end_claim(claims: &mut Vec<Claim>, worker: u32)
    ensures { claims.new.items ≡ without claims.old.items worker }
{
    claims.retain(|claim| claim.worker != worker);
}

/// Whether a search has its end: it goes on where it waits for an outcome, and behind the end of a leg.
pub(crate) fn has_ended(ending: &Option<Ending>) -> bool
    ensures { result ≡ has_ended ending.now }
{
    match ending {
        None | Some(Ending::Leg) => false,
        Some(_) => true,
    }
}

/// Whether no path asks for a place. Where the search has ended there is no path. No node is lost.
fn is_idle(tree: &mut SpecTree, table: &Table, place: u32, ended: bool) -> Result<bool, AllocError>
    requires { place < length tree.old.graph }
    ensures idle { IfOk result (λ idle. IsTrue idle ↔ IsIdle tree.old table.now ended place) }
    ensures tree { IsSameTree tree.old tree.new }
{
    if ended {
        return Ok(true);
    }
    Ok(!tree.is_asked(table, place)?)
}

/// The workers whose claimed place no path asks for, ascending. No node is lost.
pub(crate) fn withdrawn(
    alloc: Global,
    tree: &mut SpecTree,
    table: &Table,
    claims: &[Claim],
    ended: bool,
) -> Result<Vec<u32>, AllocError>
    requires places { All (λ claim. claim.place < length tree.old.graph) claims.now }
    requires apart { IsApart claims.now }
    ensures ascending { IfOk result (λ workers. IsStrictlyIncreasing workers.items) }
    ensures idle { IfOk result (λ idle. AreIdle tree.old table.now ended claims.now idle.items) }
    ensures tree { IsSameTree tree.old tree.new }
{
    let mut workers = Vec::new(alloc);
    for claim in claims {
        if is_idle(tree, table, claim.place, ended)? {
            workers.push(claim.worker)?;
        }
    }
    workers.sort_unstable();
    Ok(workers)
}
