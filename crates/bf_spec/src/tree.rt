//! The tree of guesses.
ghost use Rattle.std.specs.Prelude.{◌≡◌, ◌≢◌, ◌↔◌, ℕ, ◌<◌, ◌∷◌, [], List, length, IfOk, OnOk, OnErr, IsOk, IsTrue};
ghost use Rattle.bf_search.specs.declared.asks.Ask.TheVariants.{Test};
ghost use Rattle.bf_search.specs.declared.outcomes.Mark.{Mark as MarkValue};
ghost use Rattle.bf_search.specs.declared.outcomes.Mark.TheVariants.{Skip};
ghost use Rattle.bf_search.specs.State.{ask};
ghost use Rattle.bf_state.specs.Ends.{HasEnds};
ghost use Rattle.bf_spec.specs.Guessed.{next_asked, asked_at};
ghost use Rattle.bf_state.specs.Session.{with_search};
ghost use Rattle.bf_spec.specs.Nodes.{path_of, HasPath, AreNodes, Extends, IsBest, known_by, RootAsks};
ghost use Rattle.bf_spec.specs.Nodes.{MovesRoot, KeepsPathsBelow, LacksGuess};
ghost use Rattle.bf_spec.specs.Paths.{place_in};
ghost use Rattle.bf_spec.specs.Walks.{HasEntries, HasEnding, HasState, HasMarks};
ghost use Rattle.bf_spec.specs.Walks.{IsThere, HasAsked, IsWaiting, WalksRun};
ghost use Rattle.bf_spec.specs.Tree.{HasNode, HasBeginnings, HasOpenPath, KeepsNodesBelow, LacksNode, MovesSession};
ghost use Rattle.bf_spec.specs.Tree.{best_of, best_place, run_of, IsAskedIn, TellsIfAsked, paths_of, root_of};

use crate::asked::is_asked_from;
use crate::follow::{Walked, run_from};
use crate::grow::{first, grown};
use crate::node::Node;
use crate::nodes::Nodes;
use crate::table::Table;
use crate::walk::{Found, best_from, find};
use bf_reach::Reach;
use bf_search::{Ask, Claim, Mark, Step};
use bf_state::State;
use std::alloc::{AllocError, Global};
use std::marker::Model;

/// The guesses at what comes next in a search. Contracts see the graph, the state at the root with what it has asked,
/// and the paths that have a node.
#[derive(Drop)]
pub struct SpecTree<'r> {
    alloc: Global,
    reach: &'r Reach,
    nodes: Nodes,
}

impl<'r> Model for SpecTree<'r> {
    ghost use Rattle.bf_spec.specs.Tree.{Guesses, session_of, root_of, paths_of, IsRooted};

    ghost Value = { Guesses };

    ghost view = { λ t. record {
      graph = t.reach.now;
      session = session_of t.nodes.items;
      root = root_of t.nodes.items;
      paths = paths_of t.nodes.items;
    } };

    ghost invariant = { λ t. IsRooted t.reach.now t.nodes.items };
}

impl<'r> SpecTree<'r> {
    /// The tree of a search, which asks. Both of its ends are known.
    pub fn new(alloc: Global, reach: &'r Reach, state: State) -> Result<SpecTree<'r>, AllocError>
        requires len { length reach.now ≡ state.len }
        requires ends { HasEnds state.search }
        ensures root { IfOk result (λ tree. tree.root ≡ ask reach.entry.now state.search) }
        ensures session { IfOk result (λ tree. tree.session ≡ with_search state tree.root.search) }
        ensures graph { IfOk result (λ tree. tree.graph ≡ reach.entry.now) }
        ensures paths { IfOk result (λ tree. tree.paths ≡ [] ∷ []) }
    {
        let root = first(alloc, reach, state)?;
        let nodes = Nodes::one(alloc, root)?;
        Ok(SpecTree {
            alloc,
            reach,
            nodes,
        })
    }

    /// What the root asks.
    pub fn root_ask(&self) -> &Step
        ensures { result.now ≡ self.now.root.step }
    {
        root_step(self.nodes.as_slice())
    }

    /// Whether a path has a node.
    pub fn has_node(&self, path: &[Mark]) -> bool
        ensures node { IsTrue result ↔ HasNode self.now path.now }
        ensures prefixes { HasBeginnings self.now }
    {
        has_path(self.nodes.as_slice(), path)
    }

    /// The place of the best open path. No node is lost, even after want of memory.
    pub fn best_open(&mut self, table: &Table, claims: &[Claim]) -> Result<Option<u32>, AllocError>
        ensures best { IfOk result (λ place. place ≡ best_place self.old table.now claims.now) }
        ensures answer { IfOk result
            (λ place. HasOpenPath self.new (best_of self.old table.now claims.now)) }
        ensures kept { (path : List MarkValue) → HasNode self.old path → HasNode self.new path }
        ensures root { self.new.root ≡ self.old.root }
        ensures session { self.new.session ≡ self.old.session }
        ensures graph { self.new.graph ≡ self.old.graph }
    {
        let found = best_in(self.alloc, self.reach, &mut self.nodes, table, claims)?;
        Ok(place_found(found))
    }

    /// Marks the place that the root asks. Where the mark's guess has a node, that is the root, and no memory is
    /// taken; otherwise, and after a skip, the root is made anew. After an error the tree is as before.
    pub fn advance_root(&mut self, mark: Mark) -> Result<(), AllocError>
        requires { (p : ℕ) × (self.old.root.step.ask ≡ Test p) }
        ensures root { OnOk result (self.new.root ≡ next_asked self.old.graph self.old.root mark) }
        ensures session { OnOk result (MovesSession self.old self.new) }
        ensures kept { mark ≢ Skip → HasNode self.old (mark ∷ [])
            → IsOk result × KeepsNodesBelow self.old (mark ∷ []) self.new }
        ensures fresh { OnOk result (LacksNode self.old mark → self.new.paths ≡ [] ∷ []) }
        ensures graph { self.new.graph ≡ self.old.graph }
        ensures err { OnErr result (self.new ≡ self.old) }
    {
        advance_nodes(self.alloc, self.reach, &mut self.nodes, mark)
    }

    /// The run over the outcomes of a table from the root on, with so many marks left in its leg, if it has legs. Each
    /// of its marks has a node afterwards, also the last one of a leg. No node is lost, even after want of memory.
    pub fn run(&mut self, table: &Table, left: Option<u32>) -> Result<Walked, AllocError>
        ensures entries { IfOk result (HasEntries (run_of self.old table.now left)) }
        ensures ending { IfOk result (HasEnding (run_of self.old table.now left)) }
        ensures state { IfOk result (HasState self.old.session (run_of self.old table.now left)) }
        ensures path { IfOk result (HasMarks (run_of self.old table.now left)) }
        ensures node { IfOk result (λ walked. HasNode self.new walked.path.items) }
        ensures there { IfOk result
            (IsThere self.old.graph self.old.root (run_of self.old table.now left)) }
        ensures asked { IfOk result
            (HasAsked self.old.graph self.old.root (run_of self.old table.now left)) }
        ensures waits { IfOk result
            (IsWaiting self.old.graph self.old.root (run_of self.old table.now left)) }
        ensures kept { (path : List MarkValue) → HasNode self.old path → HasNode self.new path }
        ensures root { self.new.root ≡ self.old.root }
        ensures session { self.new.session ≡ self.old.session }
        ensures graph { self.new.graph ≡ self.old.graph }
    {
        run_in(self.alloc, self.reach, &mut self.nodes, table, left)
    }

    /// Whether some path over the outcomes of a table asks for a place. No node is lost, even after want of memory.
    pub fn is_asked(&mut self, table: &Table, place: u32) -> Result<bool, AllocError>
        requires { place < length self.old.graph }
        ensures asked { IfOk result (λ asked. IsTrue asked ↔ IsAskedIn self.old table.now place) }
        ensures kept { (path : List MarkValue) → HasNode self.old path → HasNode self.new path }
        ensures root { self.new.root ≡ self.old.root }
        ensures session { self.new.session ≡ self.old.session }
        ensures graph { self.new.graph ≡ self.old.graph }
    {
        asked_in(self.alloc, self.reach, &mut self.nodes, table, place)
    }

    /// Makes the node of a path the root. It takes no memory.
    pub fn jump(&mut self, path: &[Mark])
        requires { HasNode self.old path.now }
        ensures root { self.new.root ≡ asked_at self.old.graph self.old.root path.now }
        ensures session { MovesSession self.old self.new }
        ensures paths { KeepsNodesBelow self.old path.now self.new }
        ensures graph { self.new.graph ≡ self.old.graph }
    {
        self.nodes.reroot(path);
    }
}

fn root_step(nodes: &[Node]) -> &Step
    requires { (graph : List (List ℕ)) × AreNodes graph nodes.now }
    ensures { result.now ≡ (root_of nodes.now).step }
{
    let none: [Mark; 0] = [];
    match find(nodes, &none) {
        Some(root) => &nodes[root].step,
        None => unreachable!(),
    }
}

fn place_found(found: Option<Found>) -> Option<u32>
    ensures { result ≡ place_in found }
{
    match found {
        Some(found) => Some(found.place),
        None => None,
    }
}

fn has_path(nodes: &[Node], path: &[Mark]) -> bool
    ensures { IsTrue result ↔ HasPath nodes.now path.now }
{
    match find(nodes, path) {
        Some(_) => true,
        None => false,
    }
}

/// The best open path from the root.
fn best_in(
    alloc: Global,
    reach: &Reach,
    nodes: &mut Nodes,
    table: &Table,
    claims: &[Claim],
) -> Result<Option<Found>, AllocError>
    requires { AreNodes reach.now nodes.old.items }
    ensures extends { Extends reach.now nodes.old.items nodes.new.items }
    ensures found { IfOk result
        (IsBest (known_by reach.now table.now claims.now) nodes.old.items nodes.new.items) }
{
    let none: [Mark; 0] = [];
    let Some(start) = find(nodes.as_slice(), &none) else {
        unreachable!()
    };
    best_from(alloc, reach, nodes, start, table, claims)
}

/// The run from the root.
fn run_in(
    alloc: Global,
    reach: &Reach,
    nodes: &mut Nodes,
    table: &Table,
    left: Option<u32>,
) -> Result<Walked, AllocError>
    requires { AreNodes reach.now nodes.old.items }
    ensures extends { Extends reach.now nodes.old.items nodes.new.items }
    ensures walked { IfOk result
        (WalksRun reach.now table.now left nodes.old.items nodes.new.items) }
{
    let none: [Mark; 0] = [];
    let Some(start) = find(nodes.as_slice(), &none) else {
        unreachable!()
    };
    run_from(alloc, reach, nodes, start, table, left)
}

/// Whether some path from the root asks for a place.
fn asked_in(
    alloc: Global,
    reach: &Reach,
    nodes: &mut Nodes,
    table: &Table,
    place: u32,
) -> Result<bool, AllocError>
    requires nodes { AreNodes reach.now nodes.old.items }
    requires place { place < length reach.now }
    ensures extends { Extends reach.now nodes.old.items nodes.new.items }
    ensures asked { IfOk result (TellsIfAsked reach.now table.now nodes.old.items place) }
{
    let none: [Mark; 0] = [];
    let Some(start) = find(nodes.as_slice(), &none) else {
        unreachable!()
    };
    is_asked_from(alloc, reach, nodes, start, table, place)
}

/// The root after one more mark, made anew.
fn moved(alloc: Global, reach: &Reach, nodes: &[Node], mark: Mark) -> Result<Node, AllocError>
    requires nodes { AreNodes reach.now nodes.now }
    requires asks { RootAsks reach.now nodes.now }
    ensures tree { IfOk result (λ node. MovesRoot reach.now nodes.now mark (node ∷ [])) }
    ensures path { IfOk result (λ node. path_of node ≡ []) }
{
    let none: [Mark; 0] = [];
    let Some(start) = find(nodes, &none) else {
        unreachable!()
    };
    let Ask::Test(place) = nodes[start].step.ask else {
        unreachable!()
    };
    let mut node = grown(alloc, reach, &nodes[start], mark, place)?;
    node.path = Vec::new(alloc);
    Ok(node)
}

/// Moves the root on by one mark. After an error all is as before.
fn advance_nodes(
    alloc: Global,
    reach: &Reach,
    nodes: &mut Nodes,
    mark: Mark,
) -> Result<(), AllocError>
    requires nodes { AreNodes reach.now nodes.old.items }
    requires asks { RootAsks reach.now nodes.old.items }
    ensures tree { OnOk result (MovesRoot reach.now nodes.old.items mark nodes.new.items) }
    ensures kept { mark ≢ Skip → HasPath nodes.old.items (mark ∷ [])
        → IsOk result × KeepsPathsBelow nodes.old.items (mark ∷ []) nodes.new.items }
    ensures fresh { OnOk result
        (LacksGuess nodes.old.items mark → paths_of nodes.new.items ≡ [] ∷ []) }
    ensures err { OnErr result (nodes.new ≡ nodes.old) }
{
    if is_guess(mark) && has_path(nodes.as_slice(), &[mark]) {
        nodes.reroot(&[mark]);
        return Ok(());
    }
    let root = moved(alloc, reach, nodes.as_slice(), mark)?;
    *nodes = Nodes::one(alloc, root)?;
    Ok(())
}

fn is_guess(mark: Mark) -> bool
    ensures { IsTrue result ↔ (mark ≢ Skip) }
{
    match mark {
        Mark::Skip => false,
        Mark::Good | Mark::Bad => true,
    }
}
