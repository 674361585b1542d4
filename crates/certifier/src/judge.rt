// The judgement of a lawful image: a loop, a start over budget, or neither.
ghost use Rattle.std.specs.Prelude.{◌≡◌, ℕ, ◌<◌, ◌≤◌, List, length, slice_index_or};
ghost use Rattle.isa.specs.First.{first_below};
ghost use Rattle.isa.specs.Refusal.{ok_unless};
ghost use Rattle.isa.specs.Lawful.{Lawful};
ghost use Rattle.paths.specs.Net.{tabled};
ghost use Rattle.walks.specs.Graph.{Graph};
ghost use Rattle.walks.specs.ImageGraph.{graph_of};
ghost use Rattle.search.specs.Reach.{Looped};
ghost use Rattle.search.specs.Loops.{Least};
ghost use Rattle.search.specs.Order.{Sorted};
ghost use Rattle.tables.specs.Chart.{ChartOf};
ghost use Rattle.certifier.specs.Clear.{Cleared};
ghost use Rattle.certifier.specs.Fits.{TableOf};
ghost use Rattle.certifier.specs.Judge.{over_by, over_at, Judged};

use crate::certify::Certifier;
use crate::clear::clear;
use crate::priced::Priced;
use isa::refusal::Refusal;
use paths::fill::fill;
use pricing::model::PriceModel;
use search::order::Visits;
use search::table::Table;
use tables::chart::Chart;

fn price_at<V: Priced>(worths: &[V], at: usize) -> u64
    requires { at < length worths.now }
    ensures { result ≡ V.Priced.price (slice_index_or worths.now at V.PathValue.kind.empty) }
{
    worths[at].price()
}

fn check_start(start: bool, price: u64, budget: u64, at: u16) -> Result<(), Refusal>
    ensures { result ≡ ok_unless (over_by start price budget at) tt }
{
    if start && budget < price {
        return Err(Refusal::OverBudget { slot: at, price });
    }
    Ok(())
}

// The refusal by the lowest start over budget.
fn charge<V: Priced>(worths: &[V], starts: &[bool], budget: u64) -> Result<(), Refusal>
    requires room { 1024 ≤ length worths.now }
    requires few { length starts.now ≤ 1024 }
    ensures { result ≡ ok_unless (first_below (over_at V.Priced.price V.PathValue.kind.empty worths.now starts.now budget) 1024) tt }
{
    for (at, &start) in starts.iter().enumerate() {
        check_start(start, price_at(worths, at), budget, at as u16)?;
    }
    Ok(())
}

fn lowest_loop(table: &Table<'_>) -> u16
    requires { (n : ℕ) × Looped (tabled table.now.nodes.now) table.now.starts.now n }
    ensures { Least (Looped (tabled table.now.nodes.now) table.now.starts.now) result }
{
    table.lowest_looped().unwrap()
}

// Fills a list of no worths along an order, and refuses by the lowest start
// over budget.
pub(crate) fn judge_order<V: Priced>(
    table: &Table<'_>,
    order: &[u16],
    budget: u64,
    worths: &mut [V],
) -> Result<(), Refusal>
    requires room { 1024 ≤ length worths.old }
    requires sorted { Sorted (tabled table.now.nodes.now) table.now.starts.now order.now }
    ensures { (g : Graph) → TableOf g table.now.nodes.now table.now.starts.now → (old : List V) → length worths.old ≡ length old → Cleared V.PathValue.kind g.size old worths.old → Judged V.PathValue.kind V.Priced.price g budget old worths.new result }
{
    let Table { nodes, starts } = *table;
    fill(worths, order, nodes);
    charge(worths, starts, budget)
}

// Refuses by the lowest slot that some walk holds twice, else by the lowest
// start over budget. Without a loop it leaves the worths of the slots in the
// list.
pub(crate) fn judge<V: Priced, M: PriceModel>(
    by: &Certifier<'_, M>,
    image: &[u8],
    chart: &Chart,
    worths: &mut [V],
) -> Result<(), Refusal>
    requires lawful { Lawful image.now }
    requires sized { (length chart.now.nodes ≡ 1024) × (length chart.now.starts ≡ 1024) }
    requires chart { ChartOf (graph_of (M.PriceModel.means by.now.model.now) image.now) chart.now.nodes chart.now.starts }
    requires room { 1024 ≤ length worths.old }
    ensures { Judged V.PathValue.kind V.Priced.price (graph_of (M.PriceModel.means by.now.model.now) image.now) by.now.budget worths.old worths.new result }
{
    let count = image.len() / 8;
    let table = Table {
        nodes: &chart.nodes,
        starts: &chart.starts[..count],
    };
    let mut visits = Visits::new();
    let Ok(()) = table.find_order(&mut visits) else {
        return Err(Refusal::Loop {
            slot: lowest_loop(&table),
        });
    };
    clear(worths, count);
    judge_order(&table, visits.order.as_slice(), by.budget, worths)
}
