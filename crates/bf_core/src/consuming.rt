//! What a core has consumed: the run on the outcomes that are known, and the tree of guesses behind it.
//!
//! The walk and the withdrawn workers are prepared before anything is committed: the entries take the last
//! memory, and what follows takes none. So after want of memory a core is as before, but for nodes that were
//! made.
ghost use Rattle.std.specs.Prelude.{◌≡◌, ◌↔◌, ◌<◌, ◌++◌, ℕ, List, [], Option, Some, None, length, slice_set, All, Contains, IfOk, OnOk, OnErr, IsSome, IsTrue};
ghost use Rattle.std.specs.List.Sorted.{IsStrictlyIncreasing};
ghost use Rattle.bf_graph.specs.Graph.{IsGraph};
ghost use Rattle.bf_search.specs.State.{ask, IsSearchOver};
ghost use Rattle.bf_search.specs.Run.{leg_of, left_after, warnings};
ghost use Rattle.bf_search.specs.Outcomes.{outcomes_of_table};
ghost use Rattle.bf_search.specs.OpenPaths.{OpenPath, best_open};
ghost use Rattle.bf_state.specs.Session.{Session};
ghost use Rattle.bf_spec.specs.Tree.{HasNode};
ghost use Rattle.bf_core.specs.Claims.{AreClaims, KeepsNodes, IsSameTree};
ghost use Rattle.bf_core.specs.Consuming.{IsJoinedTo, IsSameRun, Begins, Consumes, GivesBest, HasAsked};
ghost use Rattle.bf_core.specs.Consuming.{Asks, AreUnwanted, KeepsNodesAhead, HasNodeOfBest};

use crate::claims::{has_ended, withdrawn};
use bf_search::{Claim, Ending, Entry, Outcome, push_warnings};
use bf_spec::{SpecTree, Table, Walked};
use bf_state::State;
use std::alloc::{AllocError, Global};

/// The run so far, with the tree of guesses from where it stands.
#[derive(Drop)]
pub(crate) struct Consumed<'r> {
    /// The guesses. While the run waits for an outcome, the root is the search that it reached.
    pub(crate) tree: SpecTree<'r>,
    /// The log entries of the run.
    pub(crate) entries: Vec<Entry>,
    /// The search that the run reached.
    pub(crate) state: State,
    /// How the run ended, where it has.
    pub(crate) ending: Option<Ending>,
    /// The marks that are left in the leg, where it has an end.
    pub(crate) left: Option<u32>,
}

impl<'r> Consumed<'r> {
    /// The run on a table, from the root of a tree that was just made.
    pub(crate) fn begin(
        alloc: Global,
        mut tree: SpecTree<'r>,
        table: &Table,
        leg: u32,
    ) -> Result<Consumed<'r>, AllocError>
        ensures { IfOk result (Begins tree.entry table.now leg) }
    {
        let mut entries = warnings(alloc, tree.root_ask().warned.as_slice())?;
        let left = leg_of(leg);
        let walked = tree.run(table, left)?;
        let Walked {
            entries: mut more,
            ending,
            state,
            path,
        } = walked;
        entries.append(&mut more)?;
        tree.jump(path.as_slice());
        let left = left_after(left, path.len());
        Ok(Consumed {
            tree,
            entries,
            state,
            ending,
            left,
        })
    }

    /// Goes on as far as the outcomes of a table lead, which has those of the run's table and perhaps
    /// more. Of these claims it returns the workers whose place no path asks for then, ascending. After an
    /// error all is as before, and no node is lost.
    pub(crate) fn consume(
        &mut self,
        alloc: Global,
        table: &Table,
        claims: &[Claim],
    ) -> Result<Vec<u32>, AllocError>
        requires asked { HasAsked self.old }
        requires len { length table.now ≡ length self.old.tree.graph }
        requires claims { AreClaims table.now claims.now }
        ensures run { OnOk result (Consumes self.old table.now self.new) }
        ensures ascending { IfOk result (λ workers. IsStrictlyIncreasing workers.items) }
        ensures unwanted { IfOk result (λ workers.
            AreUnwanted self.new table.now claims.now workers.items) }
        ensures nodes { OnOk result (KeepsNodesAhead self.old self.new) }
        ensures err { OnErr result (IsSameRun self.old self.new) }
    {
        if self.ending.is_some() {
            let ended = has_ended(&self.ending);
            return withdrawn(alloc, &mut self.tree, table, claims, ended);
        }
        let walked = self.tree.run(table, self.left)?;
        let ended = has_ended(&walked.ending);
        let workers = withdrawn(alloc, &mut self.tree, table, claims, ended)?;
        self.commit(walked)?;
        Ok(workers)
    }

    /// Puts the outcome of a place that has none into a table, and goes on as far as its outcomes lead. Of
    /// these claims it returns the workers whose place no path asks for then, ascending. After an error all is
    /// as before, the table too, and no node is lost.
    pub(crate) fn learn(
        &mut self,
        alloc: Global,
        table: &mut Table,
        known: (u32, Outcome),
        claims: &[Claim],
    ) -> Result<Vec<u32>, AllocError>
        requires asked { HasAsked self.old }
        requires len { length table.old ≡ length self.old.tree.graph }
        requires within { known.0 < length table.old }
        requires unknown { outcomes_of_table table.old known.0 ≡ None }
        requires claims { AreClaims (slice_set table.old known.0 (Some known.1)) claims.now }
        ensures table { OnOk result (table.new ≡ slice_set table.old known.0 (Some known.1)) }
        ensures run { OnOk result (Consumes self.old table.new self.new) }
        ensures ascending { IfOk result (λ workers. IsStrictlyIncreasing workers.items) }
        ensures unwanted { IfOk result (λ workers.
            AreUnwanted self.new table.new claims.now workers.items) }
        ensures nodes { OnOk result (KeepsNodesAhead self.old self.new) }
        ensures back { OnErr result (table.new ≡ table.old) }
        ensures err { OnErr result (IsSameRun self.old self.new) }
    {
        let (place, outcome) = known;
        table.put(place, outcome);
        match self.consume(alloc, table, claims) {
            Ok(workers) => Ok(workers),
            Err(error) => {
                table.remove(place);
                Err(error)
            }
        }
    }

    /// Adds a walk from the root, and moves the root to its end. After an error all is as before.
    fn commit(&mut self, walked: Walked) -> Result<(), AllocError>
        requires { HasNode self.old.tree walked.path.items }
        ensures ok { OnOk result (IsJoinedTo self.old walked self.new) }
        ensures err { OnErr result (IsSameRun self.old self.new) }
    {
        let Walked {
            mut entries,
            ending,
            state,
            path,
        } = walked;
        self.entries.append(&mut entries)?;
        self.tree.jump(path.as_slice());
        self.left = left_after(self.left, path.len());
        self.state = state;
        self.ending = ending;
        Ok(())
    }

    /// Whether some path asks for a place; none does where the search has ended. No node is lost, even
    /// after want of memory.
    pub(crate) fn asks(&mut self, table: &Table, place: u32) -> Result<bool, AllocError>
        requires asked { HasAsked self.old }
        requires within { place < length self.old.tree.graph }
        requires unknown { outcomes_of_table table.now place ≡ None }
        ensures asks { IfOk result (λ asks. IsTrue asks ↔ Asks self.old table.now place) }
        ensures same { IsSameRun self.old self.new }
    {
        if has_ended(&self.ending) {
            return Ok(false);
        }
        self.tree.is_asked(table, place)
    }

    /// The best open place; there is none where the run has ended. No node is lost, even after want of
    /// memory.
    pub(crate) fn best(
        &mut self,
        table: &Table,
        claims: &[Claim],
    ) -> Result<Option<u32>, AllocError>
        ensures best { IfOk result (GivesBest self.old table.now claims.now) }
        ensures answer { OnOk result (HasNodeOfBest self.old table.now claims.now self.new) }
        ensures same { IsSameRun self.old self.new }
    {
        if self.ending.is_some() {
            return Ok(None);
        }
        self.tree.best_open(table, claims)
    }
}

/// The warnings of these skipped merge bases.
fn warnings(alloc: Global, warned: &[u32]) -> Result<Vec<Entry>, AllocError>
    ensures { IfOk result (λ entries. entries.items ≡ warnings warned.now) }
{
    let mut entries = Vec::new(alloc);
    push_warnings(&mut entries, warned)?;
    Ok(entries)
}

/// The marks of a leg; a leg of 0 marks has no end.
fn leg_of(leg: u32) -> Option<u32>
    ensures { result ≡ leg_of leg }
{
    if leg == 0 { None } else { Some(leg) }
}

/// The marks that are left after so many more.
fn left_after(left: Option<u32>, marks: usize) -> Option<u32>
    ensures { result ≡ left_after left marks }
{
    match left {
        None => None,
        Some(left) => Some((left as usize).saturating_sub(marks) as u32),
    }
}
