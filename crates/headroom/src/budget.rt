// The least budget at which an image is accepted.
ghost use Rattle.std.specs.Prelude.{◌≡◌, ◌≤◌, length, MatchOption};
ghost use Rattle.walks.specs.ImageGraph.{graph_of};
ghost use Rattle.certifier.specs.Certify.{Left};
ghost use Rattle.headroom.specs.Budget.{most_budget, AcceptedAt, LeastBudget, BudgetTold, answer_of, Dearer};

use certifier::certify::Certifier;
use isa::refusal::Refusal;
use paths::worth::Worth;
use pricing::model::PriceModel;

// The largest budget that the certifier takes.
const MOST_BUDGET: u64 = 100_000_000;

// The price of a walk that the budget does not pay, or none where it pays all.
fn beyond<M: PriceModel>(image: &[u8], by: &Certifier<'_, M>) -> Option<u64>
    requires some { 1 ≤ by.now.budget }
    requires most { by.now.budget ≤ most_budget }
    requires enough { AcceptedAt (M.PriceModel.means by.now.model.now) image.now 1024 most_budget }
    ensures { MatchOption result (AcceptedAt (M.PriceModel.means by.now.model.now) image.now 1024 by.now.budget) (Dearer (M.PriceModel.means by.now.model.now) image.now 1024 by.now.budget) }
{
    by.verdict(image).err().map(|refusal| refusal.price())
}

// The budget raised to the price of a walk that it does not pay, until it pays
// all.
// Stays: no certifier, since its budget is what is looked for.
fn raised<M: PriceModel>(image: &[u8], model: &M) -> u64
    requires { AcceptedAt (M.PriceModel.means model.now) image.now 1024 most_budget }
    ensures { LeastBudget (M.PriceModel.means model.now) image.now 1024 result }
{
    let mut budget = 1;
    while let Some(price) = beyond(image, &Certifier { model, budget }) {
        budget = price;
    }
    budget
}

// The least budget at which an image is accepted, or what the certifier answers
// at the largest where there is none. The working list is left as the certifier
// leaves it at the largest budget.
pub fn least_budget<M: PriceModel>(
    image: &[u8],
    model: &M,
    working: &mut [Worth],
) -> Result<u64, Refusal>
    ensures least { BudgetTold (M.PriceModel.means model.now) image.now (length working.old) result }
    ensures left { Left (graph_of (M.PriceModel.means model.now) image.now) working.old working.new (answer_of result) }
{
    let by = Certifier {
        model,
        budget: MOST_BUDGET,
    };
    by.certify(image, working)?;
    Ok(raised(image, model))
}
