// Searches over a table of nodes: an order or a loop, what starts reach, and
// the lowest node on a loop.
//
// A table has 1,024 nodes. A successor past it is a node with no successors of
// its own: it lies on no loop, and no order or table of answers has a place
// for it.
//
// What each node goes through is inlined, since the calls took longer than what
// they do.
#![tactic(auto)]

pub mod loops;
pub mod order;
pub mod reach;
pub mod table;
mod ways;

// How many nodes a table has.
pub const NODES: u16 = 1024;
