// The idle slots that become saves: all of them at first, and then each tried
// as idle, one after another.
ghost use Rattle.std.specs.Prelude.{◌≡◌, ℕ, ◌≤◌, false, slice_index_or};
ghost use Rattle.isa.specs.Lawful.{Lawful};
ghost use Rattle.walks.specs.Graph.{Graph};
ghost use Rattle.placer.specs.Turned.{marked, Plain, Turns};
ghost use Rattle.placer.specs.Settle.{AllSettled, settled};

use crate::trial::settle_at;
use crate::turn::turn_all;
use crate::turned::Turned;
use certifier::certify::Certifier;
use certifier::fits::Workspace;
use paths::node::Node;
use pricing::model::PriceModel;
use tables::chart::Chart;

// Leaves each save idle, upward, if the tables are accepted so. Tables that are
// refused as they are stay so.
fn settle(turned: &mut Turned, plain: &[Node; 1024], count: usize, budget: u64)
    requires { count ≤ 1024 }
    ensures { (saving : ℕ) (g : Graph) → Plain saving g plain.now → g.size ≤ count → Turns saving g plain.now turned.old → AllSettled saving g budget count turned.old turned.new }
{
    let mut on = Workspace::new();
    if !turned.fits(count, budget, &mut on) {
        return;
    }
    for (at, node) in plain[..count].iter().enumerate() {
        settle_at(turned, at, *node, count, budget, &mut on);
    }
}

// The idle slots that become saves: all of them, less those that need not be,
// where the image is accepted with all.
pub(crate) fn saves_in<M: PriceModel>(image: &[u8], by: &Certifier<'_, M>) -> [bool; 1024]
    requires { Lawful image.now }
    ensures { (n : ℕ) → slice_index_or result n false ≡ settled (M.PriceModel.means by.now.model.now) image.now by.now.budget n }
{
    let chart = Chart::of(image, by.model);
    let mut turned = turn_all(image, &chart, by.model.dearest() as u64);
    settle(&mut turned, &chart.nodes, image.len() / 8, by.budget);
    turned.saves
}
