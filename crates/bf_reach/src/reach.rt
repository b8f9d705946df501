//! The walks down a graph.
ghost use Rattle.std.specs.Prelude.{◌≡◌, ℕ, ◌+◌, ◌<◌, ◌≤◌, length, true, All, IfOk};
ghost use Rattle.bf_graph.specs.Graph.{IsGraph};
ghost use Rattle.bf_search.specs.Reach.{in_mode, reaches, reach_row, reach_row_of};
ghost use Rattle.bf_search.specs.Candidates.{is_in};
ghost use Rattle.bf_reach.specs.Marks.{Marks};

use crate::Row;
use crate::marks::mark_all;
use bf_graph::Graph;
use std::alloc::{AllocError, Global};
use std::marker::Model;

/// Answers which places a place reaches. It keeps the graph alone, and contracts see it as that graph.
///
/// A row that is filled takes one walk down the graph, and no memory.
#[derive(Drop)]
pub struct Reach {
    graph: Graph,
}

impl Model for Reach {
    ghost use Rattle.std.specs.Prelude.{List, ℕ};

    ghost Value = { List (List ℕ) };

    ghost view = { λ r. r.graph };
}

impl Reach {
    /// The reach of a graph, which is copied.
    pub fn build(alloc: Global, graph: &Graph) -> Result<Reach, AllocError>
        ensures { IfOk result (λ reach. reach ≡ graph.now) }
    {
        Ok(Reach {
            graph: Graph::copy_of(alloc, graph)?,
        })
    }

    /// Its graph.
    pub fn graph(&self) -> &Graph
        ensures { result.now ≡ self.now }
    {
        &self.graph
    }

    /// The number of places.
    pub fn len(&self) -> u32
        ensures len { result ≡ length self.now }
        ensures graph { IsGraph self.now }
    {
        self.graph.len()
    }

    /// Makes `out` exactly the places that `place` reaches, itself included.
    pub fn fill_row(&self, place: u32, out: &mut Row)
        requires place { place < length self.now }
        requires out { length out.old ≡ length self.now }
        ensures row { out.new ≡ reach_row self.now place }
        ensures len { length out.new ≡ length out.old }
    {
        prove!(place < self.len());
        out.clear();
        out.set(place, true);
        self.walk(place + 1, 0, out);
    }

    /// Makes `out` exactly the places that `place` reaches along first parents, itself included.
    pub fn fill_first_parent(&self, place: u32, out: &mut Row)
        requires place { place < length self.now }
        requires out { length out.old ≡ length self.now }
        ensures row { out.new ≡ reach_row (in_mode self.now true) place }
        ensures len { length out.new ≡ length out.old }
    {
        prove!(place < self.len());
        out.clear();
        let mut next = Some(place);
        while let Some(place) = next {
            out.set(place, true);
            next = self.graph.parents(place).first().copied();
        }
    }

    /// Makes `out` exactly the places that `place` reaches in the mode, itself included.
    pub fn fill_in_mode(&self, place: u32, first_parent: bool, out: &mut Row)
        requires place { place < length self.now }
        requires out { length out.old ≡ length self.now }
        ensures row { out.new ≡ reach_row (in_mode self.now first_parent) place }
        ensures len { length out.new ≡ length out.old }
    {
        if first_parent {
            self.fill_first_parent(place, out);
        } else {
            self.fill_row(place, out);
        }
    }

    /// Makes `out` exactly the places that some of these places reaches, in one walk for all of them.
    pub fn fill_from(&self, places: &[u32], out: &mut Row)
        requires places { All (λ place. place < length self.now) places.now }
        requires out { length out.old ≡ length self.now }
        ensures row { out.new ≡ reach_row_of self.now places.now }
        ensures len { length out.new ≡ length out.old }
    {
        out.clear();
        mark_all(places, out);
        self.walk(self.len(), 0, out);
    }

    /// Whether `from` reaches `to`. The walk ends at `to`, so what it leaves in `scratch` says nothing.
    pub fn reaches(&self, from: u32, to: u32, scratch: &mut Row) -> bool
        requires from { from < length self.now }
        requires to { to < length self.now }
        requires scratch { length scratch.old ≡ length self.now }
        ensures answer { result ≡ reaches self.now from to }
        ensures len { length scratch.new ≡ length scratch.old }
    {
        prove!(from < self.len());
        scratch.clear();
        scratch.set(from, true);
        self.walk(from + 1, to, scratch);
        scratch.get(to)
    }

    /// Marks the parents of each marked place from the one below `end` down to `low`.
    fn walk(&self, end: u32, low: u32, out: &mut Row)
        requires end { end ≤ length self.now }
        requires out { length out.old ≡ length self.now }
        requires marks { (p : ℕ) → is_in out.old p ≡ true → p < end }
        ensures { Marks self.now out.old out.new low }
    {
        for place in (low..end).rev() {
            if out.get(place) {
                mark_all(self.graph.parents(place), out);
            }
        }
    }
}
