// What a step draws.
ghost use Rattle.std.specs.Prelude.{◌≡◌};
ghost use Rattle.claims.specs.Amount.{spending_of, amount_for};

use machine::effect::{Effect, Work};
use pricing::model::PriceModel;

#[inline(always)]
fn spending_of<M: PriceModel>(model: &M, work: Work) -> u32
    ensures { result ≡ spending_of (M.PriceModel.means model.now) work }
{
    model.spending(work.opcode, work.imm, work.a, work.b)
}

// The one amount that a step of this effect draws, with so many pending records.
#[inline(always)]
pub fn amount_for<M: PriceModel>(model: &M, effect: Effect, pending: usize) -> u32
    ensures { result ≡ amount_for (M.PriceModel.means model.now) effect pending }
{
    match effect {
        Effect::Nothing => 0,
        Effect::NoInstruction | Effect::Save(_) => model.saving(pending),
        Effect::End(work) => spending_of(model, work) + model.saving(pending),
        Effect::Other(work) => spending_of(model, work),
    }
}
