//! Leaps along first parents, by which an ancestor of any generation is found in few steps.
ghost use Rattle.std.specs.Prelude.{◌≡◌, ◌<◌, ◌≤◌, None, Some, length, slice_get, IfNone, IfOk, IfSome};
ghost use Rattle.bf_graph.specs.Graph.{parents_of};
ghost use Rattle.bf_names.specs.Leaps.{AreFirstLeaps, AreLeaps, IsLeap};
ghost use Rattle.bf_names.specs.Names.{ancestor};

use crate::walk::parent;
use bf_graph::Graph;
use std::alloc::{AllocError, Global};
use std::marker::Model;

/// A leap along first parents.
#[derive(Clone, Copy, Debug)]
pub(crate) struct Leap {
    /// How many generations it goes up.
    steps: u32,
    /// The place where it ends.
    place: u32,
}

/// A leap from each commit of a history: 8 bytes a commit. They are made once, in one pass. Then the
/// ancestor of a generation is found in steps that are as many as the digits of the generation in base 2,
/// or some times as many: leaps that meet are joined where both are of one length, as the digits of a skew
/// binary number are.
#[derive(Debug, Drop)]
pub struct Leaps {
    leaps: Vec<Leap>,
}

impl Model for Leaps {
    ghost use Rattle.std.specs.Prelude.{List};
    ghost use Rattle.bf_names.specs.declared.leap.Leap.{Leap};

    ghost Value = { List Leap };

    ghost view = { λ leaps. leaps.leaps.items };
}

impl Leaps {
    /// The leaps over a graph. Their only error is want of memory.
    pub fn new(alloc: Global, graph: &Graph) -> Result<Leaps, AllocError>
        ensures { IfOk result (AreLeaps graph.now) }
    {
        let mut leaps = Vec::new(alloc);
        for place in 0..graph.len() {
            let leap = leap_from(graph, leaps.as_slice(), place);
            leaps.push(leap)?;
        }
        Ok(Leaps { leaps })
    }

    /// The ancestor of a generation along first parents.
    pub(crate) fn ancestor(&self, graph: &Graph, generation: u64, place: u32) -> Option<u32>
        requires leaps { AreLeaps graph.now self.now }
        requires place { place < length graph.now }
        ensures value { result ≡ ancestor graph.now generation place }
        ensures within { IfSome result (λ place. place < length graph.now) }
    {
        let mut place = place;
        let mut left = generation;
        while left > 0 {
            let leap = self.leap_within(graph, left, place)?;
            place = leap.place;
            left -= leap.steps as u64;
        }
        Some(place)
    }

    // A leap from a place that goes up by so many generations at most: that of the place, or one to its
    // first parent.
    fn leap_within(&self, graph: &Graph, most: u64, place: u32) -> Option<Leap>
        requires leaps { AreLeaps graph.now self.now }
        requires place { place < length graph.now }
        requires most { 0 < most }
        ensures leap { IfSome result (IsLeap graph.now place) }
        ensures least { IfSome result (λ leap. 0 < leap.steps) }
        ensures most { IfSome result (λ leap. leap.steps ≤ most) }
        ensures none { IfNone result (ancestor graph.now most place ≡ None) }
    {
        let leap = self.leaps[place as usize];
        if 0 < leap.steps && leap.steps as u64 <= most {
            return Some(leap);
        }
        let parent = parent(graph, 0, place)?;
        Some(Leap {
            steps: 1,
            place: parent,
        })
    }
}

// The leap from a place, where those from all places before it are known.
fn leap_from(graph: &Graph, leaps: &[Leap], place: u32) -> Leap
    requires leaps { AreFirstLeaps graph.now leaps.now }
    requires place { place ≡ length leaps.now }
    requires within { place < length graph.now }
    ensures { IsLeap graph.now place result }
{
    match parent(graph, 0, place) {
        Some(parent) => leap_over(graph, leaps, place, parent),
        None => Leap { steps: 0, place },
    }
}

// The leap from a place over its first parent: to the end of the leap behind that of the parent, where both
// are of one length, else to the parent.
fn leap_over(graph: &Graph, leaps: &[Leap], place: u32, parent: u32) -> Leap
    requires leaps { AreFirstLeaps graph.now leaps.now }
    requires parent { slice_get (parents_of graph.now place) 0 ≡ Some parent }
    requires earlier { parent < place }
    requires known { place ≡ length leaps.now }
    ensures { IsLeap graph.now place result }
{
    let first = leaps[parent as usize];
    let second = leaps[first.place as usize];
    if first.steps == second.steps {
        let steps = 1 + first.steps + second.steps;
        let place = second.place;
        Leap { steps, place }
    } else {
        Leap {
            steps: 1,
            place: parent,
        }
    }
}
