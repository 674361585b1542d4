// What walks say of a lawful image.
ghost use Rattle.std.specs.Prelude.{◌≡◌, ◌+◌, ◌<◌, false, slice_index_or};
ghost use Rattle.paths.specs.Net.{node_at, tabled};
ghost use Rattle.search.specs.Reach.{Reaches};
ghost use Rattle.survey.specs.Counted.{Chosen, Counted};

use crate::regions::{Membership, Memberships, Region, region_of, size_of};
use headroom::stretch::{dearest_start, onward};
use paths::node::Node;
use paths::worth::Worth;
use pricing::model::PriceModel;
use tables::start::starts_of;
use tables::walk::walk_table;

// Its slots as walks go along them, the starts of walks, the regions that each slot
// lies in, and the worths, where the certifier leaves any.
#[derive(Clone, Copy)]
pub struct Survey {
    // Stays: the device has 1,024 slots.
    nodes: [Node; 1024],
    starts: [bool; 1024],
    memberships: Memberships,
    worths: Option<[Worth; 1024]>,
}

// A row of the dearest walk: a slot, and what the walk costs up to it, with it.
#[derive(Clone, Copy, PartialEq, Eq, Debug)]
pub struct Row {
    pub slot: u16,
    pub sum: u64,
}

impl Survey {
    ghost use Rattle.survey.specs.Membership.{no_region};
    ghost use Rattle.survey.specs.Survey.{DearestOf, DearestPrice, Surveyed, onward_in, row_after, row_at, worth_in};

    pub fn new<M: PriceModel>(image: &[u8], model: &M, worths: Option<[Worth; 1024]>) -> Survey
        ensures { Surveyed (M.PriceModel.means model.now) image.now worths result }
    {
        let nodes = walk_table(image, model);
        let starts = starts_of(image);
        Survey {
            memberships: Memberships::of(&nodes, &starts),
            nodes,
            starts,
            worths,
        }
    }

    // Whether walks start from a slot.
    pub fn is_start(&self, slot: u16) -> bool
        ensures { result ≡ slice_index_or self.now.starts slot false }
    {
        self.starts.get(slot as usize).copied().unwrap_or(false)
    }

    pub fn membership(&self, slot: u16) -> Membership
        ensures { result ≡ slice_index_or self.now.memberships.list slot no_region }
    {
        self.memberships
            .list
            .get(slot as usize)
            .copied()
            .unwrap_or_default()
    }

    pub fn region_of(&self, start: u16) -> Region
        ensures start { result.start ≡ start }
        ensures number { start < 1024 → Counted (Chosen self.now.starts) (start + 1) result.number }
    {
        region_of(&self.starts, start)
    }

    pub fn size_of(&self, start: u16) -> u16
        ensures { Counted (Reaches (tabled self.now.nodes) start) 1024 result }
    {
        size_of(&self.nodes, start)
    }

    // What a slot costs a walk.
    pub fn price_at(&self, slot: u16) -> u64
        ensures { result ≡ (node_at self.now.nodes slot).price }
    {
        self.nodes.get(slot as usize).map_or(0, |node| node.price)
    }

    // What the dearest walk from a slot costs, where the certifier left it.
    pub fn worth_at(&self, slot: u16) -> Option<u64>
        ensures { result ≡ worth_in self.now.worths slot }
    {
        let worths = self.worths?;
        Some(worths.get(slot as usize).map_or(0, |worth| worth.price))
    }

    // The start with the dearest walk, where the certifier left worths.
    pub fn dearest_start(&self) -> Option<u16>
        ensures { DearestOf self.now.starts self.now.worths result }
    {
        let worths = self.worths?;
        Some(dearest_start(&self.starts, &worths))
    }

    // What the walk from that start costs.
    pub fn dearest_price(&self) -> Option<u64>
        ensures { DearestPrice self.now.starts self.now.worths result }
    {
        let worths = self.worths?;
        let start = dearest_start(&self.starts, &worths);
        Some(worths.get(start as usize).map_or(0, |worth| worth.price))
    }

    // Where the dearest walk goes on from a slot, or none where it ends.
    pub fn onward(&self, slot: u16) -> Option<u16>
        ensures { result ≡ onward_in self.now.worths self.now.nodes slot }
    {
        let worths = self.worths?;
        onward(&self.nodes, &worths, slot)
    }

    fn row_at(&self, slot: u16, before: u64) -> Row
        ensures { result ≡ row_at self.now.nodes slot before }
    {
        Row {
            slot,
            sum: before.saturating_add(self.price_at(slot)),
        }
    }

    // The first row of the walk from a slot.
    pub fn first_row(&self, slot: u16) -> Row
        ensures { result ≡ row_at self.now.nodes slot 0 }
    {
        self.row_at(slot, 0)
    }

    // The row after another in the dearest walk, or none where the walk ends.
    pub fn row_after(&self, row: Row) -> Option<Row>
        ensures { result ≡ row_after self.now row }
    {
        let slot = self.onward(row.slot)?;
        Some(self.row_at(slot, row.sum))
    }
}
