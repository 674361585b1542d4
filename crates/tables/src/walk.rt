// The slots of an image as walks go along them.
ghost use Rattle.std.specs.Prelude.{◌≡◌, ℕ, ◌<◌};
ghost use Rattle.isa.specs.Image.{instruction_at};
ghost use Rattle.isa.specs.Lawful.{Lawful};
ghost use Rattle.paths.specs.Net.{Described, no_node};
ghost use Rattle.walks.specs.Graph.{ending, net_of};
ghost use Rattle.walks.specs.ImageGraph.{graph_of};
ghost use Rattle.tables.specs.Node.{Tabled};
ghost use Rattle.tables.specs.Walk.{onward_of, walk_node};

use crate::node::successors_of;
use isa::image::instruction_at;
use isa::instruction::{Instruction, Role};
use paths::node::{Node, Successors};
use pricing::model::PriceModel;
use walks::image_graph::price_of;

fn ends_walk(role: Role) -> bool
    ensures { result ≡ ending role }
{
    matches!(role, Role::Save | Role::Exit)
}

fn onward_of(instruction: Instruction) -> Successors
    ensures { result ≡ onward_of instruction }
{
    if ends_walk(instruction.role()) {
        Successors::End
    } else {
        successors_of(instruction)
    }
}

fn walk_node<M: PriceModel>(model: &M, at: u16, there: Option<Instruction>) -> Node
    ensures { result ≡ walk_node (M.PriceModel.means model.now) at there }
{
    let ended = Node {
        slot: at,
        ..Node::default()
    };
    there.map_or(
        ended,
        |instruction| Node {
            slot: at,
            price: price_of(model, instruction),
            successors: onward_of(instruction),
        },
    )
}

// The slots with the ways out that a walk may go on by, and their prices.
pub fn walk_table<M: PriceModel>(image: &[u8], model: &M) -> [Node; 1024]
    ensures table { Tabled no_node result (λ i. walk_node (M.PriceModel.means model.now) i (instruction_at image.now i)) 1024 }
    ensures described { Lawful image.now → (n : ℕ) → n < 1024 → Described result (net_of (graph_of (M.PriceModel.means model.now) image.now)) n }
{
    // Stays: array::from_fn makes the table elsewhere and moves it, which takes longer than filling it.
    let mut nodes = [Node::default(); 1024];
    for at in 0..1024u16 {
        nodes[at as usize] = walk_node(model, at, instruction_at(image, at));
    }
    nodes
}
