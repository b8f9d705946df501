//! The nodes of a tree, with links from each to those that follow it.
ghost use Rattle.std.specs.Prelude.{◌≡◌, ◌↔◌, ℕ, ◌<◌, ◌++◌, ◌∷◌, [], length, IsTrue, IfOk, IfSome, OnOk, OnErr};
ghost use Rattle.std.specs.List.{slice_index_or};
ghost use Rattle.bf_search.specs.declared.outcomes.Mark.{Mark as MarkValue};
ghost use Rattle.bf_spec.specs.Links as links_;
ghost use Rattle.bf_spec.specs.Nodes as nodes_;
ghost use Rattle.bf_spec.specs.declared.node.Node.{Node as NodeValue};

use crate::node::Node;
use crate::reroot::{begins_with, is_same, reroot};
use bf_search::Mark;
use std::alloc::{AllocError, Global};
use std::marker::Model;
use std::ops::Index;

/// The links of a node: the numbers of the nodes that follow it by one mark, where they are known.
#[derive(Clone, Copy)]
pub struct Links {
    /// The node that follows by good.
    pub good: Option<usize>,
    /// The node that follows by bad.
    pub bad: Option<usize>,
    /// The node that follows by skip.
    pub skip: Option<usize>,
    /// The number that the node itself gets when the root moves on.
    pub moved: usize,
}

impl Links {
    /// No node follows yet.
    fn none() -> Links
        ensures { result ≡ links_.no_links }
    {
        Links {
            good: None,
            bad: None,
            skip: None,
            moved: 0,
        }
    }

    /// The number of the node that follows by a mark.
    fn at(&self, mark: Mark) -> Option<usize>
        ensures { result ≡ links_.link_by self.now mark }
    {
        match mark {
            Mark::Good => self.good,
            Mark::Bad => self.bad,
            Mark::Skip => self.skip,
        }
    }

    /// Links to the node that follows by a mark.
    fn put(&mut self, mark: Mark, child: usize)
        ensures { self.new ≡ links_.with_link self.old mark child }
    {
        match mark {
            Mark::Good => self.good = Some(child),
            Mark::Bad => self.bad = Some(child),
            Mark::Skip => self.skip = Some(child),
        }
    }
}

/// The nodes of a tree, in the order in which they were made, so that each stands behind the one that it
/// follows. A step from a node to the next reads one link. Contracts see the list alone.
#[derive(Drop)]
pub struct Nodes {
    list: Vec<Node>,
    /// The links of each node, by its number. Each leads to the node that follows.
    links: Vec<Links>,
}

impl Model for Nodes {
    ghost use Rattle.bf_spec.specs.Links.{Listed, AreLinked};

    ghost Value = { Listed };

    ghost view = { λ n. record { items = n.list.items } };

    ghost invariant = { λ n. AreLinked n.list.items n.links.items };
}

impl Index<usize> for Nodes {
    type Output = Node;

    ghost use Rattle.std.specs.Prelude.{◌≡◌, ◌<◌, length};
    ghost use Rattle.std.specs.List.{slice_index_or};

    ghost can_index = { λ n i. i < length n.items };

    ghost index_gives = { λ n i x. x ≡ slice_index_or n.items i x };

    fn index(&self, index: usize) -> &Node
        requires { index < length self.now.items }
        ensures { result.now ≡ slice_index_or self.now.items index result.now }
    {
        &self.list[index]
    }
}

impl Nodes {
    /// The root alone.
    pub(crate) fn one(alloc: Global, root: Node) -> Result<Nodes, AllocError>
        ensures { IfOk result (λ nodes. nodes.items ≡ root ∷ []) }
    {
        let mut list = Vec::new(alloc);
        list.push(root)?;
        let mut links = Vec::new(alloc);
        links.push(Links::none())?;
        Ok(Nodes { list, links })
    }

    /// The nodes in their order.
    pub(crate) fn as_slice(&self) -> &[Node]
        ensures value { result.now ≡ self.now.items }
    {
        self.list.as_slice()
    }

    /// The number of the node that follows another by a mark, where it is known.
    pub(crate) fn child(&self, parent: usize, mark: Mark) -> Option<usize>
        ensures { IfSome result (links_.LeadsTo self.now.items parent mark) }
    {
        if parent >= self.links.len() {
            return None;
        }
        self.links[parent].at(mark)
    }

    /// Adds a node that follows another by a mark, and returns its number. After an error the list is as before.
    pub(crate) fn add(&mut self, parent: usize, mark: Mark, node: Node) -> Result<usize, AllocError>
        requires parent { parent < length self.old.items }
        requires path { (d : NodeValue) → nodes_.path_of node
            ≡ nodes_.path_of (slice_index_or self.old.items parent d) ++ mark ∷ [] }
        ensures items { OnOk result (self.new.items ≡ self.old.items ++ node ∷ []) }
        ensures child { IfOk result (λ child. child ≡ length self.old.items) }
        ensures err { OnErr result (self.new ≡ self.old) }
    {
        let child = self.list.len();
        self.links.push(Links::none())?;
        self.list.push(node)?;
        if parent < self.links.len() {
            self.links[parent].put(mark, child);
        }
        Ok(child)
    }

    /// Keeps what is below a node, which then is the root. It takes no memory, and no time where that node
    /// is the root already.
    pub(crate) fn reroot(&mut self, prefix: &[Mark])
        requires { nodes_.HasPath self.old.items prefix.now }
        ensures tree { nodes_.MovesRootAlong self.old.items prefix.now self.new.items }
        ensures paths { nodes_.KeepsPathsBelow self.old.items prefix.now self.new.items }
    {
        if prefix.is_empty() {
            return;
        }
        number(self.list.as_slice(), prefix, self.links.as_mut_slice());
        gather(self.list.as_slice(), prefix, self.links.as_mut_slice());
        reroot(&mut self.list, prefix);
        self.links.truncate(self.list.len());
        check(self.list.as_slice(), self.links.as_mut_slice());
    }
}

/// Writes down the number that each node gets when those below a path alone are kept.
fn number(nodes: &[Node], prefix: &[Mark], links: &mut [Links]) {
    let mut count = 0usize;
    for i in 0..links.len() {
        if is_kept(nodes, i, prefix) {
            links[i].moved = count;
            count = count.saturating_add(1);
        }
    }
}

/// Brings the links of the nodes that are kept to the front, with the new numbers. A node stands before those
/// that follow it and never moves back, so what is read is not overwritten yet.
fn gather(nodes: &[Node], prefix: &[Mark], links: &mut [Links]) {
    for i in 0..links.len() {
        if is_kept(nodes, i, prefix) {
            let from = links[i];
            let to = Links {
                good: moved(links, from.good),
                bad: moved(links, from.bad),
                skip: moved(links, from.skip),
                moved: 0,
            };
            if let Some(place) = links.get_mut(from.moved) {
                *place = to;
            }
        }
    }
}

/// The number that a node gets, where its old one is known.
fn moved(links: &[Links], child: Option<usize>) -> Option<usize> {
    Some(links.get(child?)?.moved)
}

/// Whether a node is kept: its path begins with these marks.
fn is_kept(nodes: &[Node], number: usize, prefix: &[Mark]) -> bool {
    match nodes.get(number) {
        Some(node) => begins_with(node.path.as_slice(), prefix),
        None => false,
    }
}

/// Drops each link that does not lead to the node that follows.
fn check(nodes: &[Node], links: &mut [Links])
    ensures { links_.AreLinked nodes.now links.new }
{
    for i in 0..links.len() {
        links[i] = checked(nodes, i, links[i]);
    }
}

/// The links of a node that lead to the node that follows.
fn checked(nodes: &[Node], parent: usize, links: Links) -> Links
    ensures { links_.IsLinked nodes.now parent result }
{
    Links {
        good: checked_link(nodes, parent, Mark::Good, links.good),
        bad: checked_link(nodes, parent, Mark::Bad, links.bad),
        skip: checked_link(nodes, parent, Mark::Skip, links.skip),
        moved: 0,
    }
}

/// A link, where it leads to the node that follows by a mark.
fn checked_link(nodes: &[Node], parent: usize, mark: Mark, child: Option<usize>) -> Option<usize>
    ensures { IfSome result (links_.LeadsTo nodes.now parent mark) }
{
    let child = child?;
    if parent < nodes.len() && child < nodes.len() && follows(&nodes[parent], mark, &nodes[child]) {
        Some(child)
    } else {
        None
    }
}

/// Whether a node follows another by a mark.
fn follows(parent: &Node, mark: Mark, child: &Node) -> bool
    ensures { IsTrue result → nodes_.path_of child.now ≡ nodes_.path_of parent.now ++ mark ∷ [] }
{
    match child.path.as_slice().split_last() {
        Some((last, front)) => {
            is_same(&[*last], &[mark]) && is_same(front, parent.path.as_slice())
        }
        None => false,
    }
}
