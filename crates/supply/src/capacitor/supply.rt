// A capacitor as a supply.
ghost use Rattle.std.specs.Prelude.{◌≡◌};
ghost use Rattle.supply.specs.Ratings.{ratings_of};
ghost use Rattle.supply.specs.Rated.{rated};
ghost use Rattle.supply.specs.Capacitor.{condition_of, fresh, Made, Drew, filled, four_in};
ghost use Rattle.supply.specs.Drawing.{keeps_meaning};
ghost use Rattle.std.proofs.Common.{rules};

use super::Capacitor;
use crate::answer::Answer;
use crate::ratings::Ratings;
use crate::supply::Supply;
use isa::refusal::Refusal;

impl Capacitor {
    // A capacitor at its bottom voltage.
    pub fn at_bottom(ratings: Ratings) -> Capacitor
        ensures { condition_of result ≡ fresh (rated ratings) }
    {
        Capacitor {
            ratings,
            energy: ratings.floor(),
            asked: 0,
            charges: 0,
        }
    }

    // The same at ratings not yet made: microfarads, then top and bottom in
    // millivolts, and the energy of a unit in picojoules.
    pub fn new(microfarads: u32, top: u32, bottom: u32, unit: u32) -> Result<Capacitor, Refusal>
        ensures { Made (ratings_of microfarads top bottom unit) result }
    {
        Ratings::new(microfarads, top, bottom, unit).map(Capacitor::at_bottom)
    }
}

impl Supply for Capacitor {
    ghost four = { λ x. four_in (condition_of x) };

    ghost draws = { Drew };

    ghost fills = { λ x y. condition_of y ≡ filled (condition_of x) };

    ghost drawn = { λ s t n a d. keeps_meaning s t n a d };

    ghost recharged = { Prim.search rules };

    fn budget(&self) -> u64 {
        self.ratings.units_in(self.ratings.full())
    }

    fn assured(&self) -> u64 {
        self.ratings.units_in(self.energy)
    }

    fn asked(&self) -> u64 {
        self.asked
    }

    fn charges(&self) -> u64 {
        self.charges
    }

    fn recharge(&mut self) {
        self.charges = self.charges.wrapping_add(1);
        self.energy = self.ratings.full();
    }

    fn draw(&mut self, units: u32) -> Answer {
        self.asked = self.asked.wrapping_add(units as u64);
        let floor = self.ratings.floor();
        let taken = self.ratings.energy_of(units);
        if taken <= self.energy - floor {
            self.energy -= taken;
            Answer::Yes
        } else {
            self.energy = floor;
            Answer::No
        }
    }
}
