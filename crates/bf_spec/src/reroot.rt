//! What is kept of the nodes when the root moves on.
ghost use Rattle.std.specs.Prelude.{◌≡◌, ◌↔◌, IsTrue, ◌≤◌, length, drop, All, filter};
ghost use Rattle.bf_spec.specs.Nodes as nodes_;
ghost use Rattle.bf_spec.specs.Reroot.{begins, IsCut, AreCut};

use crate::node::Node;
use bf_search::Mark;

/// Whether two paths are the same.
pub(crate) fn is_same(path: &[Mark], other: &[Mark]) -> bool
    ensures { IsTrue result ↔ (path.now ≡ other.now) }
{
    path == other
}

/// Whether a path begins with these marks.
pub(crate) fn begins_with(path: &[Mark], prefix: &[Mark]) -> bool
    ensures { result ≡ begins prefix.now path.now }
{
    path.starts_with(prefix)
}

/// Keeps the nodes whose path begins with these marks.
fn keep(nodes: &mut Vec<Node>, prefix: &[Mark])
    ensures { nodes.new.items ≡ filter (λ n. begins prefix.now (nodes_.path_of n)) nodes.old.items }
{
    nodes.retain(|node| begins_with(node.path.as_slice(), prefix));
}

/// Takes so many marks off the front of a path.
fn cut_path(path: &mut Vec<Mark>, count: usize)
    requires { count ≤ length path.old.items }
    ensures { path.new.items ≡ drop count path.old.items }
{
    let len = path.as_slice().len();
    path.as_mut_slice().copy_within(count.., 0);
    path.truncate(len - count);
}

fn cut(node: &mut Node, count: usize)
    requires { count ≤ length (nodes_.path_of node.old) }
    ensures { IsCut count node.old node.new }
{
    cut_path(&mut node.path, count);
}

/// Takes so many marks off the front of each path.
fn cut_all(nodes: &mut Vec<Node>, count: usize)
    requires { All (λ n. count ≤ length (nodes_.path_of n)) nodes.old.items }
    ensures len { length nodes.new.items ≡ length nodes.old.items }
    ensures cut { AreCut count nodes.old.items nodes.new.items }
{
    for node in nodes.iter_mut() {
        cut(node, count);
    }
}

/// Keeps what is below a node, which then is the root.
pub(crate) fn reroot(nodes: &mut Vec<Node>, prefix: &[Mark])
    requires { nodes_.HasPath nodes.old.items prefix.now }
    ensures tree { nodes_.MovesRootAlong nodes.old.items prefix.now nodes.new.items }
    ensures paths { nodes_.KeepsPathsBelow nodes.old.items prefix.now nodes.new.items }
{
    keep(nodes, prefix);
    cut_all(nodes, prefix.len());
}
