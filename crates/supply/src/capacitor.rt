// A capacitor that works between two voltages.
ghost use Rattle.std.specs.Prelude.{◌≡◌, ◌≤◌};
ghost use Rattle.supply.specs.Ratings.{floor_of, full_of};
ghost use Rattle.supply.specs.Rated.{rated};

use crate::ratings::Ratings;

// Its calls; their definitions speak of the struct, so they have a file of
// their own.
pub mod supply;

// Whoever stores one may make it again of its parts.
#[derive(Drop)]
pub struct Capacitor {
    pub ratings: Ratings,
    // twice the energy that it holds, in picojoules
    pub energy: u64,
    pub asked: u64,
    pub charges: u64,
    ghost above: { floor_of (rated ratings) ≤ energy },
    ghost below: { energy ≤ full_of (rated ratings) },
}

impl Capacitor {
    // Twice the energy that it holds, in picojoules.
    pub fn energy(&self) -> u64
        ensures { result ≡ self.now.energy }
    {
        self.energy
    }
}
