// The nodes of a net, as a table.

// The nodes that a walk may go on to; none where it ends.
// Stays: nets have loops, so nodes name each other by their numbers.
#[derive(Clone, Copy, Default)]
pub enum Successors {
    #[default]
    End,
    One(u16),
    Both(u16, u16),
}

// The default is the node past the end of a table: no way out, at no price.
#[derive(Clone, Copy, Default)]
pub struct Node {
    // the slot that it stands at
    pub slot: u16,
    pub price: u64,
    pub successors: Successors,
}
