// Refusals in plain numbers, as C reads them.
ghost use Rattle.std.specs.Prelude.{◌≡◌, Option};
ghost use Rattle.yatesorrel_c.specs.Told.{plain, told_in, own_told, carried_in, answer_in, own_answer};

use isa::refusal::{Refusal, Told};

// What the calls from C refuse by themselves.
#[derive(Clone, Copy)]
pub(crate) enum Own {
    // numbers that no state, supply or rig has
    NotBegun = 101,
    // prices of neither kind
    NoPrices = 102,
    // a call of no kind
    NoCall = 103,
}

// A refusal in numbers, all 0 where nothing is refused.
#[repr(C)]
#[derive(Clone, Copy)]
pub struct PlainTold {
    pub number: u8,
    pub slot: u16,
    pub price: u64,
}

// An answer about an image, with the refusal that it carries.
#[repr(C)]
#[derive(Clone, Copy)]
pub struct PlainAnswer {
    pub refusal: PlainTold,
    pub carried: PlainTold,
}

const NOTHING: Told = Told {
    number: 0,
    slot: 0,
    price: 0,
};

impl PlainTold {
    fn plain(told: Told) -> PlainTold
        ensures { result ≡ plain told }
    {
        PlainTold {
            number: told.number,
            slot: told.slot,
            price: told.price,
        }
    }

    pub(crate) fn of(refusal: Option<Refusal>) -> PlainTold
        ensures { result ≡ told_in refusal }
    {
        PlainTold::plain(refusal.map_or(NOTHING, Told::from))
    }

    pub(crate) fn own(own: Own) -> PlainTold
        ensures { result ≡ own_told own }
    {
        PlainTold {
            number: own as u8,
            slot: 0,
            price: 0,
        }
    }
}

fn carried_in(refusal: Option<Refusal>) -> PlainTold
    ensures { result ≡ carried_in refusal }
{
    let carried = refusal.and_then(|refusal| refusal.carried());
    PlainTold::plain(carried.unwrap_or(NOTHING))
}

impl PlainAnswer {
    pub(crate) fn of(refusal: Option<Refusal>) -> PlainAnswer
        ensures { result ≡ answer_in refusal }
    {
        PlainAnswer {
            refusal: PlainTold::of(refusal),
            carried: carried_in(refusal),
        }
    }

    pub(crate) fn own(own: Own) -> PlainAnswer
        ensures { result ≡ own_answer own }
    {
        PlainAnswer {
            refusal: PlainTold::own(own),
            carried: PlainTold::of(None),
        }
    }
}
