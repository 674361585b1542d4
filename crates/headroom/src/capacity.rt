// The smallest capacitor that a round fits.
ghost use Rattle.std.specs.Prelude.{◌≤◌, length};
ghost use Rattle.walks.specs.ImageGraph.{graph_of};
ghost use Rattle.certifier.specs.Certify.{Left};
ghost use Rattle.supply.specs.Ratings.{Within};
ghost use Rattle.headroom.specs.Budget.{most_budget, answer_of};
ghost use Rattle.headroom.specs.Capacity.{rated, Enough, CapacityTold};

use crate::budget::least_budget;
use isa::refusal::Refusal;
use paths::worth::Worth;
use pricing::model::PriceModel;
use supply::ratings::Ratings;

// The largest capacitor, in microfarads.
const MOST_CAPACITY: u64 = 100_000;

// The numbers of a capacitor but for its capacity.
#[derive(Clone, Copy)]
pub struct Voltages {
    // between which it works, in millivolts
    pub top: u32,
    pub bottom: u32,
    // the energy of a unit of charge, in picojoules
    pub unit: u32,
}

// The least capacity whose charge is a budget or more. Each microfarad holds
// the difference of the squared voltages.
fn capacity_for(budget: u64, voltages: Voltages) -> Option<u32>
    requires some { 1 ≤ budget }
    requires most { budget ≤ most_budget }
    requires within { Within (rated voltages 1) }
    ensures { Enough voltages budget result }
{
    let top = voltages.top as u64;
    let bottom = voltages.bottom as u64;
    let needed = budget * (2 * voltages.unit as u64);
    let each = top * top - bottom * bottom;
    let capacity = needed.div_ceil(each);
    (capacity <= MOST_CAPACITY).then(|| capacity as u32)
}

// The least capacity in microfarads at which a capacitor of these voltages
// still holds what the image needs, or none where not even the largest does.
// The working list is left as the certifier leaves it at the largest budget.
pub fn least_capacity<M: PriceModel>(
    image: &[u8],
    model: &M,
    voltages: Voltages,
    working: &mut [Worth],
) -> Result<Option<u32>, Refusal>
    ensures least { CapacityTold voltages (M.PriceModel.means model.now) image.now (length working.old) result }
    ensures left { Left (graph_of (M.PriceModel.means model.now) image.now) working.old working.new (answer_of result) }
{
    Ratings::new(1, voltages.top, voltages.bottom, voltages.unit)?;
    let budget = least_budget(image, model, working)?;
    Ok(capacity_for(budget, voltages))
}
