// The worths of the nodes of a net, worked out along an order.
ghost use Rattle.std.specs.Prelude.{◌≡◌, length, slice_index_or, slice_set};
ghost use Rattle.paths.specs.Net.{Net, node_at, ways_of, tabled};
ghost use Rattle.paths.specs.Join.{join_over};
ghost use Rattle.paths.specs.Fill.{worth_at, filled, Untouched, OrderOf, Worths};

use crate::kind::PathValue;
use crate::node::{Node, Successors};

fn node_at(nodes: &[Node], at: u16) -> Node
    ensures { result ≡ node_at nodes.now at }
{
    nodes.get(at as usize).copied().unwrap_or_default()
}

fn value_at<V: PathValue>(worths: &[V], at: u16) -> V
    ensures { result ≡ slice_index_or worths.now at V.PathValue.kind.empty }
{
    worths.get(at as usize).copied().unwrap_or(V::empty())
}

fn joined<V: PathValue>(worths: &[V], successors: Successors) -> V
    ensures { result ≡ join_over V.PathValue.kind (λ t. slice_index_or worths.now t V.PathValue.kind.empty) (ways_of successors) }
{
    match successors {
        Successors::End => V::empty(),
        Successors::One(a) => value_at(worths, a),
        Successors::Both(a, b) => value_at(worths, a).join(value_at(worths, b)),
    }
}

fn put<V: PathValue>(worths: &mut [V], at: u16, value: V)
    ensures { worths.new ≡ slice_set worths.old at value }
{
    let at = at as usize;
    // Stays: tried `get_mut`; of a slice, a proof knows only the length after it.
    if at < worths.len() {
        worths[at] = value;
    }
}

fn fill_node<V: PathValue>(worths: &mut [V], nodes: &[Node], at: u16)
    ensures { worths.new ≡ slice_set worths.old at (worth_at V.PathValue.kind (tabled nodes.now) worths.old at) }
{
    let node = node_at(nodes, at);
    let value = joined(worths, node.successors).extend(node.slot, node.price);
    put(worths, at, value);
}

// Gives each node of the order in turn its worth: the joined worths of its
// successors, extended by it. Where successors come earlier in the order, the
// worth of a node is the join of all complete lists of nodes from it.
pub fn fill<V: PathValue>(worths: &mut [V], order: &[u16], nodes: &[Node])
    ensures list { worths.new ≡ filled V.PathValue.kind (tabled nodes.now) order.now worths.old }
    ensures untouched { Untouched order.now worths.old worths.new V.PathValue.kind.empty }
    ensures worths { (g : Net) → OrderOf nodes.now g order.now (length worths.old) → Worths V.PathValue.kind g order.now worths.new }
{
    for &at in order {
        fill_node(worths, nodes, at);
    }
}
