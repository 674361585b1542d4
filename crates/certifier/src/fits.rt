// Whether tables of a graph are accepted at a budget.
ghost use Rattle.std.specs.Prelude.{◌≡◌, ◌≤◌, length, replicate};
ghost use Rattle.paths.specs.Price.{price_kind};
ghost use Rattle.walks.specs.Graph.{Graph};
ghost use Rattle.walks.specs.Certified.{certified};
ghost use Rattle.walks.specs.Placing.{is_accepted};
ghost use Rattle.certifier.specs.Fits.{TableOf};

use crate::certify::ENTRIES;
use crate::clear::clear;
use crate::judge::judge_order;
use paths::price::Price;
use search::order::Visits;
use search::table::Table;

// What trials on tables work on. Whoever makes many keeps one.
#[derive(Drop)]
pub struct Workspace {
    visits: Visits,
    // Stays: one for each of the device's 1,024 slots.
    prices: [Price; ENTRIES],
}

impl Workspace {
    pub fn new() -> Workspace
        ensures { result.prices ≡ replicate 1024 price_kind.empty }
    {
        Workspace {
            visits: Visits::new(),
            prices: [Price::default(); ENTRIES],
        }
    }

    // The answer alone, for trials on tables: accepts where no walk holds a node
    // twice and no complete walk costs more than the budget.
    pub fn fits(&mut self, table: &Table<'_>, budget: u64) -> bool
        ensures { (g : Graph) → TableOf g table.now.nodes.now table.now.starts.now → g.size ≤ length table.now.starts.now → result ≡ is_accepted (certified g budget) }
    {
        let Workspace { visits, prices } = self;
        let Ok(()) = table.find_order(visits) else {
            return false;
        };
        clear(prices, table.starts.len());
        judge_order(table, visits.order.as_slice(), budget, prices).is_ok()
    }
}
