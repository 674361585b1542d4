// The dearest stretch of an image, read off the worths that certifying leaves.
ghost use Rattle.std.specs.Prelude.{◌≡◌};
ghost use Rattle.paths.specs.Net.{node_at};
ghost use Rattle.headroom.specs.Stretch.{worth_at, next_on, OnwardRight, Dearest};

use paths::kind::PathValue;
use paths::node::{Node, Successors};
use paths::worth::Worth;

// Stays: one line; public in `paths` it would cost a contract and an import, and save none.
fn worth_at(worths: &[Worth], at: u16) -> Worth
    ensures { result ≡ worth_at worths.now at }
{
    worths.get(at as usize).copied().unwrap_or_default()
}

fn ways_at(nodes: &[Node], at: u16) -> Successors
    ensures { result ≡ (node_at nodes.now at).successors }
{
    nodes
        .get(at as usize)
        .map_or(Successors::End, |node| node.successors)
}

// Where the dearest walk goes on from a slot, or none where it ends. The worth
// that two ways out join to names the one that it comes from.
#[tactic(auto, using(crate::proofs::Following::onward_right))]
pub fn onward(nodes: &[Node], worths: &[Worth], slot: u16) -> Option<u16>
    ensures value { result ≡ next_on worths.now (node_at nodes.now slot).successors }
    ensures right { OnwardRight }
{
    match ways_at(nodes, slot) {
        Successors::End => None,
        Successors::One(next) => Some(next),
        Successors::Both(next, target) => {
            Some(worth_at(worths, next).join(worth_at(worths, target)).slot)
        }
    }
}

// The start with the dearest walk, the lowest of several.
// Stays: the starts are of the device's size, and the worths are the caller's, who may be in C.
pub fn dearest_start(starts: &[bool; 1024], worths: &[Worth]) -> u16
    ensures { Dearest starts.now worths.now result }
{
    let mut dearest = 0;
    for (slot, start) in starts.iter().enumerate() {
        let slot = slot as u16;
        if *start && worth_at(worths, dearest).price < worth_at(worths, slot).price {
            dearest = slot;
        }
    }
    dearest
}
