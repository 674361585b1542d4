// The lowest node on a loop. A flood for each node makes it slow, so it is
// asked only once a loop has been found.
ghost use Rattle.std.specs.Prelude.{◌≡◌, true, ◌↔◌};
ghost use Rattle.paths.specs.Net.{tabled};
ghost use Rattle.search.specs.Reach.{OnLoop};
ghost use Rattle.search.specs.Loops.{Lowest};

use crate::NODES;
use crate::reach::reach_from;
use crate::table::Table;
use crate::ways::goes_to;
use paths::node::Node;

fn on_loop(nodes: &[Node; 1024], node: u16) -> bool
    ensures { (result ≡ true) ↔ OnLoop (tabled nodes.now) node }
{
    let seen = reach_from(nodes, node);
    seen.iter()
        .zip(nodes)
        .any(|(&seen, before)| seen && goes_to(before.successors, node))
}

impl Table<'_> {
    // The lowest node on a loop among those that the starts reach.
    pub fn lowest_looped(&self) -> Option<u16>
        ensures { Lowest (tabled self.now.nodes.now) self.now.starts.now result }
    {
        let reached = self.reach();
        (0..NODES).find(|&node| reached[node as usize] && on_loop(self.nodes, node))
    }
}
