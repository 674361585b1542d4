// The mains: a supply that never says no.
ghost use Rattle.std.specs.Prelude.{◌≡◌};
ghost use Rattle.supply.specs.declared.answer.Answer.TheVariants.{Yes};
ghost use Rattle.supply.specs.Mains.{fresh, drawn, filled, four_of};
ghost use Rattle.std.proofs.Common.{rules};

use crate::answer::Answer;
use crate::supply::Supply;

// Stays: a struct of the two counts, for a capacitor too, would be longer than the two lines that it saves.
#[derive(Drop)]
pub struct Mains {
    pub asked: u64,
    pub charges: u64,
}

impl Mains {
    pub fn new() -> Mains
        ensures { result ≡ fresh }
    {
        Mains {
            asked: 0,
            charges: 0,
        }
    }
}

impl Supply for Mains {
    ghost four = { four_of };

    ghost draws = { λ s n a t. (a ≡ Yes) × (t ≡ drawn s n) };

    ghost fills = { λ s t. t ≡ filled s };

    ghost drawn = { Prim.search rules };

    ghost recharged = { Prim.search rules };

    fn budget(&self) -> u64 {
        100_000_000
    }

    fn assured(&self) -> u64 {
        4_294_967_295
    }

    fn asked(&self) -> u64 {
        self.asked
    }

    fn charges(&self) -> u64 {
        self.charges
    }

    fn recharge(&mut self) {
        self.charges = self.charges.wrapping_add(1);
    }

    fn draw(&mut self, units: u32) -> Answer {
        self.asked = self.asked.wrapping_add(units as u64);
        Answer::Yes
    }
}
