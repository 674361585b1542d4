// Certifying an image at a budget.
ghost use Rattle.std.specs.Prelude.{◌≡◌, length, Ok};
ghost use Rattle.walks.specs.ImageGraph.{graph_of};
ghost use Rattle.certifier.specs.Certify.{within_limits, limited, admission, certification, InOrder, Meaning, LeftBy, Left};

use crate::judge::judge;
use crate::priced::Priced;
use isa::lawful::lawful;
use isa::refusal::Refusal;
use paths::price::Price;
use paths::worth::Worth;
use pricing::model::PriceModel;
use tables::chart::Chart;

// The entries that a working list needs: one for each slot of the largest
// image.
pub(crate) const ENTRIES: usize = 1024;

fn within_limits(budget: u64) -> bool
    ensures { result ≡ within_limits budget }
{
    (1..=100_000_000).contains(&budget)
}

// What an image is certified by.
#[derive(Clone, Copy)]
pub struct Certifier<'a, M> {
    pub model: &'a M,
    pub budget: u64,
}

impl<M: PriceModel> Certifier<'_, M> {
    // The checks that need no look at the image.
    fn check_limits(&self, room: usize) -> Result<(), Refusal>
        ensures { result ≡ limited self.now.budget room }
    {
        if !within_limits(self.budget) {
            return Err(Refusal::Budget);
        }
        if room < ENTRIES {
            return Err(Refusal::WorkingList);
        }
        Ok(())
    }

    // The checks that come before the walks, in their order.
    pub fn admit(&self, image: &[u8], room: usize) -> Result<(), Refusal>
        ensures value { result ≡ admission image.now self.now.budget room }
        ensures order { result ≡ Ok tt → InOrder image.now self.now.budget room }
    {
        self.check_limits(room)?;
        lawful(image)
    }

    fn certify_by<V: Priced>(&self, image: &[u8], worths: &mut [V]) -> Result<(), Refusal>
        ensures value { result ≡ certification (M.PriceModel.means self.now.model.now) image.now self.now.budget (length worths.old) }
        ensures meaning { Meaning (M.PriceModel.means self.now.model.now) image.now self.now.budget (length worths.old) result }
        ensures left { LeftBy V.PathValue.kind (graph_of (M.PriceModel.means self.now.model.now) image.now) worths.old worths.new result }
    {
        self.check_limits(worths.len())?;
        let chart = Chart::of_lawful(image, self.model);
        if !chart.lawful {
            return lawful(image);
        }
        judge(self, image, &chart, worths)
    }

    // Accepts an image at a budget where no walk holds a slot twice and no
    // complete walk costs more than the budget. After acceptance, and after a
    // refusal over budget, the working list has the worth of each slot.
    pub fn certify(&self, image: &[u8], working: &mut [Worth]) -> Result<(), Refusal>
        ensures value { result ≡ certification (M.PriceModel.means self.now.model.now) image.now self.now.budget (length working.old) }
        ensures meaning { Meaning (M.PriceModel.means self.now.model.now) image.now self.now.budget (length working.old) result }
        ensures left { Left (graph_of (M.PriceModel.means self.now.model.now) image.now) working.old working.new result }
    {
        self.certify_by(image, working)
    }

    // The answer alone, for trials: it needs no working list.
    pub fn verdict(&self, image: &[u8]) -> Result<(), Refusal>
        ensures value { result ≡ certification (M.PriceModel.means self.now.model.now) image.now self.now.budget 1024 }
        ensures meaning { Meaning (M.PriceModel.means self.now.model.now) image.now self.now.budget 1024 result }
    {
        self.certify_by(image, &mut [Price::default(); ENTRIES])
    }
}
