// Calls about an image: whether it is lawful, whether it is accepted at a
// budget, and the saves placed in it.
ghost use Rattle.std.specs.Prelude.{◌≡◌, length, IfSome, IfNone};
ghost use Rattle.std.specs.Result.{result_err};
ghost use Rattle.isa.specs.Lawful.{lawfulness, Judged};
ghost use Rattle.walks.specs.ImageGraph.{graph_of};
ghost use Rattle.certifier.specs.Certify as certify;
ghost use Rattle.certifier.specs.Certify.{certification};
ghost use Rattle.placer.specs.Place as place;
ghost use Rattle.placer.specs.Place.{placing, placed_image};
ghost use Rattle.yatesorrel_c.specs.declared.told.Own.TheVariants.{NoPrices};
ghost use Rattle.yatesorrel_c.specs.Told.{answer_in, own_answer};
ghost use Rattle.yatesorrel_c.specs.Prices.{model_in};

use crate::prices::PlainPrices;
use crate::told::{Own, PlainAnswer};
use certifier::certify::Certifier;
use isa::lawful::lawful;
use paths::worth::Worth;
use placer::place::place;

// Whether an image is lawful.
#[unsafe(no_mangle)]
pub extern "C" fn yatesorrel_lawful(image: &[u8]) -> PlainAnswer
    ensures value { result ≡ answer_in (result_err (lawfulness image.now)) }
    ensures judged { Judged image.now (lawfulness image.now) }
{
    PlainAnswer::of(lawful(image).err())
}

// Whether an image is accepted at a budget.
#[unsafe(no_mangle)]
pub extern "C" fn yatesorrel_certify(
    image: &[u8],
    prices: &PlainPrices,
    budget: u64,
    working: &mut [Worth],
) -> PlainAnswer
    ensures unpriced { IfNone (model_in prices.now) ((result ≡ own_answer NoPrices) × (working.new ≡ working.old)) }
    ensures value { IfSome (model_in prices.now) (λ m. result ≡ answer_in (result_err (certification m image.now budget (length working.old)))) }
    ensures meaning { IfSome (model_in prices.now) (λ m. certify.Meaning m image.now budget (length working.old) (certification m image.now budget (length working.old))) }
    ensures left { IfSome (model_in prices.now) (λ m. certify.Left (graph_of m image.now) working.old working.new (certification m image.now budget (length working.old))) }
{
    let Some(model) = &prices.prices() else {
        return PlainAnswer::own(Own::NoPrices);
    };
    let answer = Certifier { model, budget }.certify(image, working);
    PlainAnswer::of(answer.err())
}

// Places saves in an image, so that it is accepted at a budget.
#[unsafe(no_mangle)]
pub extern "C" fn yatesorrel_place(
    image: &mut [u8],
    prices: &PlainPrices,
    budget: u64,
    working: &mut [Worth],
) -> PlainAnswer
    ensures unpriced { IfNone (model_in prices.now) ((result ≡ own_answer NoPrices) × (image.new ≡ image.old) × (working.new ≡ working.old)) }
    ensures value { IfSome (model_in prices.now) (λ m. result ≡ answer_in (result_err (placing m image.old budget (length working.old)))) }
    ensures image { IfSome (model_in prices.now) (λ m. image.new ≡ placed_image m image.old budget (length working.old)) }
    ensures meaning { IfSome (model_in prices.now) (λ m. place.Meaning m image.old budget (length working.old) image.new (placing m image.old budget (length working.old))) }
    ensures left { IfSome (model_in prices.now) (λ m. place.Left m image.old image.new working.old working.new (placing m image.old budget (length working.old))) }
{
    let Some(model) = &prices.prices() else {
        return PlainAnswer::own(Own::NoPrices);
    };
    let answer = place(image, &Certifier { model, budget }, working);
    PlainAnswer::of(answer.err())
}
