// The slots that walks start from.
ghost use Rattle.std.specs.Prelude.{◌≡◌, ◌<◌, false, length};
ghost use Rattle.isa.specs.Image.{instruction_at};
ghost use Rattle.isa.specs.Lawful.{Lawful};
ghost use Rattle.pricing.specs.Model.{Model};
ghost use Rattle.walks.specs.Walk.{Start};
ghost use Rattle.walks.specs.ImageGraph.{graph_of};
ghost use Rattle.search.specs.Reach.{Reaches, Tells};
ghost use Rattle.paths.specs.Net.{no_node};
ghost use Rattle.tables.specs.Node.{Tabled};
ghost use Rattle.tables.specs.Start.{way_node, saved_at, started_by, way_net, Begins};

use crate::node::successors_of;
use crate::table::table_of;
use isa::image::instruction_at;
use isa::instruction::{Instruction, Role};
use paths::node::Node;
use search::reach::reach_from;
use walks::image_graph::role_at;

fn way_node(at: u16, there: Option<Instruction>) -> Node
    ensures { result ≡ way_node at there }
{
    Node {
        slot: at,
        price: 0,
        successors: there.map(successors_of).unwrap_or_default(),
    }
}

// The slots with all their ways out, at no price.
fn way_table(image: &[u8]) -> [Node; 1024]
    ensures { Tabled no_node result (λ i. way_node i (instruction_at image.now i)) 1024 }
{
    table_of(|at| way_node(at, instruction_at(image, at)))
}

// Whether a slot is a save that is reached.
// Stays: a struct of image and reached slots would be made for one table and taken apart in it.
fn saved_at(image: &[u8], reached: &[bool; 1024], at: u16) -> bool
    requires { at < 1024 }
    ensures { result ≡ saved_at image.now reached.now at }
{
    role_at(image, at) == Role::Save && reached[at as usize]
}

fn is_start(image: &[u8], reached: &[bool; 1024], at: u16) -> bool
    requires { at < 1024 }
    ensures { result ≡ started_by image.now reached.now at }
{
    at == 0 || saved_at(image, reached, at - 1)
}

fn start_table(image: &[u8], reached: &[bool; 1024]) -> [bool; 1024]
    ensures { Tabled false result (started_by image.now reached.now) 1024 }
{
    table_of(|at| is_start(image, reached, at))
}

// Which slots are reached from slot 0, along all ways out.
fn reached_in(image: &[u8]) -> [bool; 1024]
    ensures { Tells result (Reaches (way_net image.now) 0) }
{
    reach_from(&way_table(image), 0)
}

// Slot 0, and the slot after each reachable save.
pub fn starts_of(image: &[u8]) -> [bool; 1024]
    ensures size { length result ≡ 1024 }
    ensures any { Tells result (Begins image.now) }
    ensures told { Lawful image.now → (m : Model) → Tells result (Start (graph_of m image.now)) }
{
    start_table(image, &reached_in(image))
}
