// The least budget of an image, and the smallest capacitor that it fits.
ghost use Rattle.std.specs.Prelude.{◌≡◌, IfSome, IfNone};
ghost use Rattle.yatesorrel_c.specs.declared.told.Own.TheVariants.{NoPrices};
ghost use Rattle.yatesorrel_c.specs.Prices.{model_in};
ghost use Rattle.yatesorrel_c.specs.Least.{least_in, own_least, BudgetFound, capacity_in, own_capacity, voltages_of, CapacityFound};

use crate::prices::PlainPrices;
use crate::told::{Own, PlainAnswer};
use headroom::budget::least_budget;
use headroom::capacity::{Voltages, least_capacity};
use isa::refusal::Refusal;
use paths::worth::Worth;

// The budget is 0 where it is refused.
#[repr(C)]
#[derive(Clone, Copy)]
pub struct PlainLeast {
    pub answer: PlainAnswer,
    pub budget: u64,
}

// The capacity is 0 where it is refused, and where none is large enough.
#[repr(C)]
#[derive(Clone, Copy)]
pub struct PlainCapacity {
    pub answer: PlainAnswer,
    pub microfarads: u32,
}

impl PlainLeast {
    fn of(found: Result<u64, Refusal>) -> PlainLeast
        ensures { result ≡ least_in found }
    {
        PlainLeast {
            answer: PlainAnswer::of(found.err()),
            budget: found.unwrap_or(0),
        }
    }

    fn own(own: Own) -> PlainLeast
        ensures { result ≡ own_least own }
    {
        PlainLeast {
            answer: PlainAnswer::own(own),
            budget: 0,
        }
    }
}

impl PlainCapacity {
    fn of(found: Result<Option<u32>, Refusal>) -> PlainCapacity
        ensures { result ≡ capacity_in found }
    {
        PlainCapacity {
            answer: PlainAnswer::of(found.err()),
            microfarads: found.unwrap_or(None).unwrap_or(0),
        }
    }

    fn own(own: Own) -> PlainCapacity
        ensures { result ≡ own_capacity own }
    {
        PlainCapacity {
            answer: PlainAnswer::own(own),
            microfarads: 0,
        }
    }
}

// The least budget at which an image is accepted.
#[unsafe(no_mangle)]
pub extern "C" fn yatesorrel_least_budget(
    image: &[u8],
    prices: &PlainPrices,
    working: &mut [Worth],
) -> PlainLeast
    ensures unpriced { IfNone (model_in prices.now) ((result ≡ own_least NoPrices) × (working.new ≡ working.old)) }
    ensures found { IfSome (model_in prices.now) (λ m. BudgetFound m image.now working.old working.new result) }
{
    let Some(model) = &prices.prices() else {
        return PlainLeast::own(Own::NoPrices);
    };
    PlainLeast::of(least_budget(image, model, working))
}

// The least capacity, in microfarads, between two voltages in millivolts that
// an image fits, for a unit of so many picojoules.
#[unsafe(no_mangle)]
pub extern "C" fn yatesorrel_least_capacity(
    image: &[u8],
    prices: &PlainPrices,
    top: u32,
    bottom: u32,
    unit: u32,
    working: &mut [Worth],
) -> PlainCapacity
    ensures unpriced { IfNone (model_in prices.now) ((result ≡ own_capacity NoPrices) × (working.new ≡ working.old)) }
    ensures found { IfSome (model_in prices.now) (λ m. CapacityFound (voltages_of top bottom unit) m image.now working.old working.new result) }
{
    let Some(model) = &prices.prices() else {
        return PlainCapacity::own(Own::NoPrices);
    };
    let voltages = Voltages { top, bottom, unit };
    PlainCapacity::of(least_capacity(image, model, voltages, working))
}
