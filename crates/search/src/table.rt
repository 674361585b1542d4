// A table of nodes, and which of them to start from.
ghost use Rattle.std.specs.Prelude.{◌≡◌, ◌≤◌, length};

use paths::node::Node;

#[derive(Clone, Copy)]
pub struct Table<'a> {
    // Stays: the device has 1,024 slots, and each is a node.
    pub nodes: &'a [Node; 1024],
    // no part of a node, as the same nodes are searched from other starts; a
    // node past the end is no start
    pub starts: &'a [bool],
    ghost sized: { (length nodes.now ≡ 1024) × (length starts.now ≤ 1024) },
}
