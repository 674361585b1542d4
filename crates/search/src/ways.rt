// The ways out of a node.
ghost use Rattle.std.specs.Prelude.{◌≡◌, true, ◌↔◌};
ghost use Rattle.paths.specs.Net.{In, ways_of};
ghost use Rattle.search.specs.Ways.{Split, within};

use crate::NODES;
use paths::node::Successors;

pub(crate) fn within(node: u16) -> Option<u16>
    ensures { result ≡ within node }
{
    (node < NODES).then_some(node)
}

// The pair of ways out, none for one that is not there or leaves the table.
#[inline(always)]
pub(crate) fn ways_within(successors: Successors) -> (Option<u16>, Option<u16>)
    ensures { Split (ways_of successors) result.0 result.1 }
{
    match successors {
        Successors::End => (None, None),
        Successors::One(a) => (within(a), None),
        Successors::Both(a, b) => (within(a), within(b)),
    }
}

pub(crate) fn goes_to(successors: Successors, node: u16) -> bool
    ensures { (result ≡ true) ↔ In node (ways_of successors) }
{
    match successors {
        Successors::End => false,
        Successors::One(a) => a == node,
        Successors::Both(a, b) => a == node || b == node,
    }
}
