// The tables of an image some of whose idle slots are saves.
ghost use Rattle.std.specs.Prelude.{◌≡◌, ℕ, ◌+◌, ◌<◌, true, false, slice_index_or};

use paths::node::Node;

#[derive(Drop)]
pub(crate) struct Turned {
    // Stays: the device has 1,024 slots, and each is a node.
    pub(crate) nodes: [Node; 1024],
    pub(crate) starts: [bool; 1024],
    // the idle slots that are saves
    pub(crate) saves: [bool; 1024],
    ghost inside: { (n : ℕ) → slice_index_or saves n false ≡ true → n + 1 < 1024 },
}

// What the tables say of a slot.
#[derive(Clone, Copy)]
pub(crate) struct Entry {
    pub(crate) node: Node,
    pub(crate) save: bool,
    // walks start after it
    pub(crate) start: bool,
}
