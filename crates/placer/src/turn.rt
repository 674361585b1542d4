// The idle slots of an image, and its tables with all of them turned into saves.
ghost use Rattle.std.specs.Prelude.{◌≡◌, ◌<◌, false};
ghost use Rattle.isa.specs.Lawful.{Lawful};
ghost use Rattle.pricing.specs.Model.{Model};
ghost use Rattle.paths.specs.Net.{node_at};
ghost use Rattle.walks.specs.ImageGraph.{graph_of};
ghost use Rattle.search.specs.Reach.{Reaches, Tells};
ghost use Rattle.tables.specs.Node.{Tabled};
ghost use Rattle.tables.specs.Start.{way_net, Begins};
ghost use Rattle.placer.specs.Turn.{idles_in};
ghost use Rattle.placer.specs.Turned.{marked, turned_node, turned_start, Turns};

use crate::turned::Turned;
use isa::instruction::Role;
use paths::node::{Node, Successors};
use std::array;
use tables::chart::Chart;
use walks::image_graph::role_at;

#[tactic(auto, unfolding(walks::specs::ImageGraph::role_at))]
fn is_idle(image: &[u8], at: u16) -> bool
    ensures { result ≡ idles_in image.now at }
{
    role_at(image, at) == Role::Idle
}

// Which slots are idle.
fn idle_slots(image: &[u8]) -> [bool; 1024]
    ensures { Tabled false result (idles_in image.now) 1024 }
{
    array::from_fn(|at| is_idle(image, at as u16))
}

fn turned_node(plain: Node, idle: bool, saving: u64) -> Node
    ensures { result ≡ turned_node idle saving plain }
{
    if idle {
        Node {
            slot: plain.slot,
            price: saving,
            successors: Successors::End,
        }
    } else {
        plain
    }
}

fn turned_start(
    starts: &[bool; 1024],
    idle: &[bool; 1024],
    reached: &[bool; 1024],
    at: usize,
) -> bool
    requires { at < 1024 }
    ensures { result ≡ turned_start starts.now idle.now reached.now at }
{
    starts[at] || at > 0 && idle[at - 1] && reached[at - 1]
}

// The tables of an image with every idle slot turned into a save, by its chart.
pub(crate) fn turn_all(image: &[u8], chart: &Chart, saving: u64) -> Turned
    requires lawful { Lawful image.now }
    requires starts { Tells chart.now.starts (Begins image.now) }
    requires reached { Tells chart.now.reached (Reaches (way_net image.now) 0) }
    ensures turns { (m : Model) → Turns saving (graph_of m image.now) chart.now.nodes result }
    ensures saves { Tabled false result.saves (idles_in image.now) 1024 }
{
    let idle = idle_slots(image);
    let Chart {
        nodes,
        starts,
        reached,
        ..
    } = chart;
    Turned {
        nodes: array::from_fn(|at| turned_node(nodes[at], idle[at], saving)),
        starts: array::from_fn(|at| turned_start(starts, &idle, reached, at)),
        saves: idle,
    }
}
