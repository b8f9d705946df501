//! Places in rows: looking up, and marking parents.
ghost use Rattle.std.specs.Prelude.{◌≡◌, ◌<◌, length, All};
ghost use Rattle.std.specs.List.{list_all};
ghost use Rattle.bf_graph.specs.Graph.{IsGraph};
ghost use Rattle.bf_search.specs.Candidates.{is_in};
ghost use Rattle.bf_choice.specs.Parents.{IsParentsBelow};

use bf_graph::Graph;
use bf_reach::{Row, mark_all};

/// Whether each of these places is true in the row.
pub(crate) fn has_all(row: &Row, places: &[u32]) -> bool
    requires { All (λ place. place < length row.now) places.now }
    ensures { result ≡ list_all (λ place. is_in row.now place) places.now }
{
    for place in places {
        if !row.get(*place) {
            return false;
        }
    }
    true
}

/// Makes `out` exactly the parents of the true places of `row`.
pub(crate) fn fill_parents(graph: &Graph, row: &Row, out: &mut Row)
    requires row { length row.now ≡ length graph.now }
    requires out { length out.old ≡ length graph.now }
    ensures parents { IsParentsBelow graph.now row.now (length row.now) out.new }
    ensures graph { IsGraph graph.now }
{
    out.clear();
    for place in 0..graph.len() {
        if row.get(place) {
            mark_all(graph.parents(place), out);
        }
    }
}
