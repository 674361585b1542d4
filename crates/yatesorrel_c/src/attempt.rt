// A step of a rig from C.
ghost use Rattle.std.specs.Prelude.{◌≡◌, IfSome, IfNone};
ghost use Rattle.claims.specs.Rig.{Rig};
ghost use Rattle.machine.specs.declared.state.State.{State};
ghost use Rattle.supply.specs.declared.source.Source.{Source};
ghost use Rattle.yatesorrel_c.specs.declared.told.Own.TheVariants.{NotBegun, NoPrices};
ghost use Rattle.yatesorrel_c.specs.Prices.{model_in};
ghost use Rattle.yatesorrel_c.specs.Held.{plain_rig, Whole, Unbegun};
ghost use Rattle.yatesorrel_c.specs.Attempt.{attempt_in, own_attempt, AttemptDone};

use crate::held::PlainRig;
use crate::prices::PlainPrices;
use crate::state::number_in;
use crate::supplies::PlainSupply;
use crate::told::{Own, PlainTold};
use claims::reply::Attempt;
use claims::round::Round;
use isa::refusal::Refusal;

// Whether the supply said yes, and how the round ended by the step.
#[repr(C)]
#[derive(Clone, Copy)]
pub struct PlainAttempt {
    pub refusal: PlainTold,
    pub said_yes: u8,
    pub ending: u8,
}

impl PlainAttempt {
    pub(crate) fn of(attempt: Result<Attempt, Refusal>) -> PlainAttempt
        ensures { result ≡ attempt_in attempt }
    {
        let (said_yes, ending) = match attempt {
            Ok(Attempt::Yes) => (1, None),
            Ok(Attempt::Ended(ending)) => (1, Some(ending)),
            Ok(Attempt::No) | Err(_) => (0, None),
        };
        PlainAttempt {
            refusal: PlainTold::of(attempt.err()),
            said_yes,
            ending: number_in(ending),
        }
    }

    fn own(own: Own) -> PlainAttempt
        ensures { result ≡ own_attempt own }
    {
        PlainAttempt {
            refusal: PlainTold::own(own),
            said_yes: 0,
            ending: 0,
        }
    }
}

// Attempts one step.
#[unsafe(no_mangle)]
pub extern "C" fn yatesorrel_rig_step(
    rig: &mut PlainRig,
    prices: &PlainPrices,
    image: &[u8],
    tape: &[u32],
) -> PlainAttempt
    ensures unbegun { Unbegun rig.old → (result ≡ own_attempt NotBegun) × (rig.new ≡ rig.old) }
    ensures unpriced { (r : Rig Source State) → Whole r → rig.old ≡ plain_rig r → IfNone (model_in prices.now) ((result ≡ own_attempt NoPrices) × (rig.new ≡ rig.old)) }
    ensures stepped { (r : Rig Source State) → Whole r → rig.old ≡ plain_rig r → IfSome (model_in prices.now) (λ m. AttemptDone m image.now tape.now r rig.new result) }
{
    let Some(mut source) = rig.source() else {
        return PlainAttempt::own(Own::NotBegun);
    };
    let Some(prices) = prices.prices() else {
        return PlainAttempt::own(Own::NoPrices);
    };
    let model = &prices;
    let Some(attempt) = rig
        .standing
        .step(&mut source, &Round { model, image, tape })
    else {
        return PlainAttempt::own(Own::NotBegun);
    };
    rig.supply = PlainSupply::of(&source);
    PlainAttempt::of(attempt)
}
