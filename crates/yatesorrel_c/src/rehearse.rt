// A whole script from C: a rig begun on a supply, and the calls made.
ghost use Rattle.std.specs.Prelude.{◌≡◌, true, false, IfSome, IfNone};
ghost use Rattle.std.specs.List.{list_all};
ghost use Rattle.rig.specs.Seen.{seen};
ghost use Rattle.supply.specs.declared.source.Source.{Source};
ghost use Rattle.yatesorrel_c.specs.declared.told.Own.TheVariants.{NotBegun, NoPrices, NoCall};
ghost use Rattle.yatesorrel_c.specs.Told.{own_told};
ghost use Rattle.yatesorrel_c.specs.Prices.{model_in};
ghost use Rattle.yatesorrel_c.specs.Supplies.{plain_supply, Unmade};
ghost use Rattle.yatesorrel_c.specs.Script.{known};
ghost use Rattle.yatesorrel_c.specs.Rehearse.{Refused, Rehearsed, ScriptDone};

use crate::held::PlainRig;
use crate::prices::PlainPrices;
use crate::script::{PlainCall, PlainReply, all_known};
use crate::supplies::PlainSupply;
use crate::told::{Own, PlainTold};
use claims::round::Round;
use pricing::model::PriceModel;
use rig::rig::Rig;
use supply::supply::Supply;

// Begins a rig and makes the calls, as many as there is room for their replies.
fn rehearse<S: Supply, M: PriceModel>(
    supply: S,
    round: &Round<M>,
    calls: &[PlainCall],
    replies: &mut [PlainReply],
) -> Rig<S>
    ensures { Rehearsed S.Supply (M.PriceModel.means round.now.model.now) round.now.image.now round.now.tape.now supply calls.now replies.old replies.new (seen result) }
{
    let mut rig = Rig::begin(supply);
    // Stays: a proof knows nothing of the replies after iter_mut().zip(calls).
    for made in 0..calls.len().min(replies.len()) {
        replies[made] = PlainReply::of(rig.call(calls[made].call(), round));
    }
    rig
}

// Begins a rig on a supply and makes the calls of a script.
#[unsafe(no_mangle)]
pub extern "C" fn yatesorrel_rehearse(
    supply: &PlainSupply,
    prices: &PlainPrices,
    image: &[u8],
    tape: &[u32],
    calls: &[PlainCall],
    replies: &mut [PlainReply],
    rig: &mut PlainRig,
) -> PlainTold
    ensures unmade { Unmade supply.now → Refused NotBegun replies.old replies.new rig.old rig.new result }
    ensures unpriced { (s : Source) → supply.now ≡ plain_supply s → IfNone (model_in prices.now) (Refused NoPrices replies.old replies.new rig.old rig.new result) }
    ensures unknown { (s : Source) → supply.now ≡ plain_supply s → list_all known calls.now ≡ false → IfSome (model_in prices.now) (λ m. Refused NoCall replies.old replies.new rig.old rig.new result) }
    ensures rehearsed { (s : Source) → supply.now ≡ plain_supply s → list_all known calls.now ≡ true → IfSome (model_in prices.now) (λ m. ScriptDone m image.now tape.now s calls.now replies.old replies.new rig.new result) }
{
    let Some(source) = supply.source() else {
        return PlainTold::own(Own::NotBegun);
    };
    let Some(prices) = prices.prices() else {
        return PlainTold::own(Own::NoPrices);
    };
    if !all_known(calls) {
        return PlainTold::own(Own::NoCall);
    }
    let model = &prices;
    let held = rehearse(source, &Round { model, image, tape }, calls, replies);
    *rig = PlainRig::of(held);
    PlainTold::of(None)
}
