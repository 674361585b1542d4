// The nodes that starts reach, found breadth first.
ghost use Rattle.std.specs.Prelude.{◌≡◌, ℕ, ◌<◌, false, [], replicate, Some};
ghost use Rattle.paths.specs.Net.{tabled};
ghost use Rattle.search.specs.Reach.{Reaches, Reached, Tells};
ghost use Rattle.search.specs.Flood.{Queued, Added};

use crate::NODES;
use crate::table::Table;
use crate::ways::{ways_within, within};
use arrayvec::ArrayVec;
use paths::node::Node;

// The nodes seen so far, in the order in which they were seen.
#[derive(Drop)]
struct Flood {
    // Stays: one for each of the device's 1,024 slots.
    seen: [bool; 1024],
    queue: ArrayVec<u16, 1024>,
}

impl Flood {
    fn new() -> Flood
        ensures seen { result.seen ≡ replicate 1024 false }
        ensures queue { result.queue.items ≡ [] }
    {
        Flood {
            seen: [false; 1024],
            queue: ArrayVec::new(),
        }
    }

    // Sees a node and queues it, unless it has been seen.
    #[inline(always)]
    fn add(&mut self, way: Option<u16>)
        requires queued { Queued self.old.seen self.old.queue.items }
        requires inside { (t : ℕ) → way ≡ Some t → t < 1024 }
        ensures { Added self.old.seen self.new.seen self.old.queue.items self.new.queue.items way }
    {
        let Some(node) = way else {
            return;
        };
        if self.seen[node as usize] {
            return;
        }
        self.seen[node as usize] = true;
        self.queue.push(node);
    }
}

// Follows the ways out of every node seen.
fn spread(nodes: &[Node; 1024], flood: &mut Flood)
    requires { Queued flood.old.seen flood.old.queue.items }
    ensures { Tells flood.new.seen (Reached (tabled nodes.now) flood.old.seen) }
{
    // Stays: the queue grows as it is read, so no iterator can hold it.
    for next in 0..NODES as usize {
        let Some(&node) = flood.queue.get(next) else {
            break;
        };
        let (first, second) = ways_within(nodes[node as usize].successors);
        flood.add(first);
        flood.add(second);
    }
}

impl Table<'_> {
    // Tells of each node whether some start reaches it.
    pub fn reach(&self) -> [bool; 1024]
        ensures { Tells result (Reached (tabled self.now.nodes.now) self.now.starts.now) }
    {
        let mut flood = Flood::new();
        // Stays: tried `(0..NODES).zip(self.starts)`: five goals on what the zip yields stay open.
        for (start, &chosen) in self.starts.iter().enumerate() {
            if chosen {
                flood.add(Some(start as u16));
            }
        }
        spread(self.nodes, &mut flood);
        flood.seen
    }
}

// Tells of each node whether the start reaches it.
pub fn reach_from(nodes: &[Node; 1024], start: u16) -> [bool; 1024]
    ensures { Tells result (Reaches (tabled nodes.now) start) }
{
    let mut flood = Flood::new();
    flood.add(within(start));
    spread(nodes, &mut flood);
    flood.seen
}
