// The chart of an image: its nodes and its starts, each slot decoded once.
ghost use Rattle.std.specs.Prelude.{◌≡◌, ℕ, ◌<◌, ◌≤◌, ◌↔◌, ◌&&◌, true, false, length, replicate, slice_index_or};
ghost use Rattle.isa.specs.Image.{instruction_at};
ghost use Rattle.isa.specs.Lawful.{Lawful};
ghost use Rattle.paths.specs.Net.{no_node, tabled};
ghost use Rattle.walks.specs.ImageGraph.{graph_of, role_in};
ghost use Rattle.walks.specs.Walk.{Reachable};
ghost use Rattle.walks.specs.Certified.{is_save};
ghost use Rattle.search.specs.Reach.{Reaches, Tells};
ghost use Rattle.tables.specs.Node.{Tabled};
ghost use Rattle.tables.specs.Start.{way_net, Begins};
ghost use Rattle.tables.specs.Chart.{staying_in, opened_at, closed, started_after, charted_at, ChartOf};

use crate::node::successors_of;
use isa::image::{instruction_at, well_sized};
use isa::instruction::{Instruction, Role};
use isa::lawful::leaving_by;
use paths::node::{Node, Successors};
use pricing::model::PriceModel;
use search::reach::reach_from;
use walks::image_graph::price_of;

#[derive(Clone, Copy)]
pub struct Chart {
    // Stays: one for each of the device's 1,024 slots, and a library has no heap.
    pub nodes: [Node; 1024],
    pub starts: [bool; 1024],
    // along all ways out, those of saves too
    pub reached: [bool; 1024],
    // whether the image is lawful
    pub lawful: bool,
}

// A slot with all its ways out, and its price; no node where it has no legal
// instruction.
#[inline(always)]
fn opened_at<M: PriceModel>(model: &M, at: u16, there: Option<Instruction>) -> Node
    ensures { result ≡ opened_at (M.PriceModel.means model.now) at there }
{
    // Stays: `map_or` is a call of its own at two callers, a sixth of certifying.
    match there {
        Some(instruction) => Node {
            slot: at,
            price: price_of(model, instruction),
            successors: successors_of(instruction),
        },
        None => Node::default(),
    }
}

fn is_save(there: Option<Instruction>) -> bool
    ensures { result ≡ is_save (role_in there) }
{
    there.is_some_and(|instruction| instruction.role() == Role::Save)
}

// Whether what was lawful so far stays so: there is a legal instruction, whose
// ways out stay in an image of so many slots.
fn stays(lawful: bool, there: Option<Instruction>, count: u16) -> bool
    ensures { result ≡ (lawful && staying_in there count) }
{
    lawful && there.is_some_and(|instruction| leaving_by(instruction, count).is_none())
}

// Gives each slot its node, and tells whether it is a save. Answers whether the
// image is lawful.
fn open<M: PriceModel>(
    image: &[u8],
    model: &M,
    nodes: &mut [Node; 1024],
    saves: &mut [bool; 1024],
) -> bool
    requires nodes { nodes.old ≡ replicate 1024 no_node }
    requires saves { saves.old ≡ replicate 1024 false }
    ensures nodes { Tabled no_node nodes.new (λ i. opened_at (M.PriceModel.means model.now) i (instruction_at image.now i)) 1024 }
    ensures saves { Tabled false saves.new (λ i. is_save (role_in (instruction_at image.now i))) 1024 }
    ensures lawful { (result ≡ true) ↔ Lawful image.now }
{
    let mut lawful = well_sized(image);
    let count = image.len().min(8192) / 8;
    for at in 0..count {
        let there = instruction_at(image, at as u16);
        nodes[at] = opened_at(model, at as u16, there);
        saves[at] = is_save(there);
        lawful = stays(lawful, there, count as u16);
    }
    lawful
}

// The same, but no further than the first slot that breaks a rule or leaves the
// image.
fn open_lawful<M: PriceModel>(
    image: &[u8],
    model: &M,
    nodes: &mut [Node; 1024],
    saves: &mut [bool; 1024],
) -> bool
    requires nodes { nodes.old ≡ replicate 1024 no_node }
    requires saves { saves.old ≡ replicate 1024 false }
    ensures size { length nodes.new ≡ 1024 }
    ensures nodes { result ≡ true → Tabled no_node nodes.new (λ i. opened_at (M.PriceModel.means model.now) i (instruction_at image.now i)) 1024 }
    ensures saves { result ≡ true → Tabled false saves.new (λ i. is_save (role_in (instruction_at image.now i))) 1024 }
    ensures lawful { (result ≡ true) ↔ Lawful image.now }
{
    if !well_sized(image) {
        return false;
    }
    let count = image.len().min(8192) / 8;
    for at in 0..count {
        let there = instruction_at(image, at as u16);
        nodes[at] = opened_at(model, at as u16, there);
        saves[at] = is_save(there);
        if !stays(true, there, count as u16) {
            return false;
        }
    }
    true
}

// Ends the walks at the saves.
fn close(nodes: &mut [Node; 1024], saves: &[bool])
    requires { length saves.now ≤ 1024 }
    ensures size { length nodes.new ≡ 1024 }
    ensures nodes { (k : ℕ) → k < 1024 → slice_index_or nodes.new k no_node ≡ closed (slice_index_or saves.now k false) (slice_index_or nodes.old k no_node) }
{
    for (at, &save) in saves.iter().enumerate() {
        if save {
            nodes[at].successors = Successors::End;
        }
    }
}

// Slot 0, and the slot after each save that is reached.
fn starts_after(saves: &[bool], reached: &[bool; 1024]) -> [bool; 1024]
    requires { length saves.now ≤ 1024 }
    ensures { Tabled false result (started_after saves.now reached.now) 1024 }
{
    let mut starts = [false; 1024];
    starts[0] = true;
    for (at, &save) in saves.iter().enumerate() {
        if save && at + 1 < 1024 {
            starts[at + 1] = reached[at];
        }
    }
    starts
}

impl Chart {
    // What slot 0 reaches along all ways out, and the starts by that; then walks end
    // at the saves.
    #[inline(always)]
    fn finish(&mut self, saves: &[bool])
        requires { length saves.now ≤ 1024 }
        ensures reached { Tells self.new.reached (Reaches (tabled self.old.nodes) 0) }
        ensures starts { Tabled false self.new.starts (started_after saves.now self.new.reached) 1024 }
        ensures size { length self.new.nodes ≡ 1024 }
        ensures nodes { (k : ℕ) → k < 1024 → slice_index_or self.new.nodes k no_node ≡ closed (slice_index_or saves.now k false) (slice_index_or self.old.nodes k no_node) }
        ensures lawful { self.new.lawful ≡ self.old.lawful }
    {
        self.reached = reach_from(&self.nodes, 0);
        self.starts = starts_after(saves, &self.reached);
        close(&mut self.nodes, saves);
    }

    // The nodes as walks go along them, the slots that walks start from, and those
    // that slot 0 reaches.
    // Not inlined, so that a caller who refuses first need not set up a chart.
    #[inline(never)]
    pub fn of<M: PriceModel>(image: &[u8], model: &M) -> Chart
        ensures nodes { Tabled no_node result.nodes (λ i. charted_at (M.PriceModel.means model.now) i (instruction_at image.now i)) 1024 }
        ensures size { length result.starts ≡ 1024 }
        ensures starts { Tells result.starts (Begins image.now) }
        ensures reached { Tells result.reached (Reaches (way_net image.now) 0) }
        ensures reachable { Lawful image.now → Tells result.reached (Reachable (graph_of (M.PriceModel.means model.now) image.now)) }
        ensures lawful { (result.lawful ≡ true) ↔ Lawful image.now }
        ensures chart { Lawful image.now → ChartOf (graph_of (M.PriceModel.means model.now) image.now) result.nodes result.starts }
    {
        // Filled where it lies, as it is large.
        let mut chart = Chart {
            nodes: [Node::default(); 1024],
            starts: [false; 1024],
            reached: [false; 1024],
            lawful: false,
        };
        let mut saves = [false; 1024];
        chart.lawful = open(image, model, &mut chart.nodes, &mut saves);
        chart.finish(&saves[..image.len().min(8192) / 8]);
        chart
    }
    // The same of a lawful image; of any other that it is not lawful, and no more:
    // whoever refuses it looks no further than the first slot that shows it.
    pub fn of_lawful<M: PriceModel>(image: &[u8], model: &M) -> Chart
        ensures nodes { length result.nodes ≡ 1024 }
        ensures starts { length result.starts ≡ 1024 }
        ensures lawful { (result.lawful ≡ true) ↔ Lawful image.now }
        ensures chart { Lawful image.now → ChartOf (graph_of (M.PriceModel.means model.now) image.now) result.nodes result.starts }
    {
        let mut chart = Chart {
            nodes: [Node::default(); 1024],
            starts: [false; 1024],
            reached: [false; 1024],
            lawful: false,
        };
        let mut saves = [false; 1024];
        chart.lawful = open_lawful(image, model, &mut chart.nodes, &mut saves);
        if chart.lawful {
            chart.finish(&saves[..image.len().min(8192) / 8]);
        }
        chart
    }
}
