//! The parents of each commit, kept in one run of places.
ghost use Rattle.std.specs.Prelude.{◌≡◌, ◌↔◌, ◌-◌, ◌<◌, ◌≤◌, [], ◌∷◌, ◌++◌, length, take, drop, All, IsTrue, IfOk, OnOk, OnErr};
ghost use Rattle.std.specs.List.{slice_index_or};
ghost use Rattle.bf_graph.specs.Graph.{parents_of, IsGraph};
ghost use Rattle.bf_graph.specs.Layout.{lists_from, EndsRise};

use std::alloc::{AllocError, Global};
use std::marker::Model;

/// The parents of each commit, by place. Contracts see the list of the parent lists. Each parent is
/// earlier than its child; a parent may stand in a list more than once, as the stream has it.
#[derive(Drop)]
pub struct Graph {
    /// The parents of all places, one list after another.
    parents: Vec<u32>,
    /// For each place, where its parents end in `parents`.
    ends: Vec<usize>,
}

impl Model for Graph {
    ghost use Rattle.std.specs.Prelude.{List, ℕ, ◌<◌, ◌^◌, length};
    ghost use Rattle.bf_graph.specs.Graph.{IsGraph};
    ghost use Rattle.bf_graph.specs.Layout.{lists_from, IsLaidOut};

    ghost Value = { List (List ℕ) };

    ghost view = { λ g. lists_from 0 g.ends.items g.parents.items };

    ghost invariant = { λ g. IsLaidOut g.ends.items g.parents.items };
}

impl Graph {
    /// No commit. It takes no memory.
    pub fn new(alloc: Global) -> Graph
        ensures { result ≡ [] }
    {
        Graph {
            parents: Vec::new(alloc),
            ends: Vec::new(alloc),
        }
    }

    /// A copy of a graph in memory of this allocator.
    pub fn copy_of(alloc: Global, graph: &Graph) -> Result<Graph, AllocError>
        ensures { IfOk result (λ copy. copy ≡ graph.now) }
    {
        Ok(Graph {
            parents: Vec::from_slice(alloc, graph.parents.as_slice())?,
            ends: Vec::from_slice(alloc, graph.ends.as_slice())?,
        })
    }

    /// The number of commits.
    pub fn len(&self) -> u32
        ensures len { result ≡ length self.now }
        ensures graph { IsGraph self.now }
    {
        self.ends.len() as u32
    }

    /// Whether there is no commit.
    pub fn is_empty(&self) -> bool
        ensures { IsTrue result ↔ (self.now ≡ []) }
    {
        self.ends.is_empty()
    }

    /// The parents of a place, in the order in which they were given.
    pub fn parents(&self, place: u32) -> &[u32]
        requires { place < length self.now }
        ensures parents { result.now ≡ parents_of self.now place }
        ensures earlier { All (λ parent. parent < place) result.now }
    {
        list_at(
            self.ends.as_slice(),
            self.parents.as_slice(),
            place as usize,
        )
    }

    /// Adds a commit with these parents, and returns its place. After an error the graph is as before.
    pub fn push(&mut self, parents: &[u32]) -> Result<u32, AllocError>
        requires earlier { All (λ parent. parent < length self.old) parents.now }
        requires room { length self.old < 4294967295 }
        ensures ok { IfOk result (λ place. place ≡ length self.old) }
        ensures pushed { OnOk result (self.new ≡ self.old ++ parents.now ∷ []) }
        ensures err { OnErr result (self.new ≡ self.old) }
    {
        let before = self.parents.len();
        self.parents.extend_from_slice(parents)?;
        if self.ends.push(self.parents.len()).is_err() {
            self.parents.truncate(before);
            return Err(AllocError);
        }
        Ok((self.ends.len() - 1) as u32)
    }
}

/// The list of a place: it lies between the end of the list before it and its own end.
fn list_at<'a>(ends: &[usize], all: &'a [u32], place: usize) -> &'a [u32]
    requires place { place < length ends.now }
    requires rise { EndsRise 0 ends.now (length all.now) }
    ensures { result.now ≡ slice_index_or (lists_from 0 ends.now all.now) place [] }
{
    between(all, start_of(ends, place), ends[place])
}

fn between(all: &[u32], start: usize, end: usize) -> &[u32]
    requires order { start ≤ end }
    requires within { end ≤ length all.now }
    ensures { result.now ≡ take (end - start) (drop start all.now) }
{
    &all[start..end]
}

fn start_of(ends: &[usize], place: usize) -> usize
    requires { place < length ends.now }
    ensures { result ≡ slice_index_or (0 ∷ ends.now) place 0 }
{
    if place == 0 { 0 } else { ends[place - 1] }
}
