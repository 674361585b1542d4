// What a capacitor is rated at, and the energies that follow from it.
ghost use Rattle.std.specs.Prelude.{◌≡◌, ◌≤◌};
ghost use Rattle.supply.specs.Ratings.{ratings_of, Within, energy_at, floor_of, full_of, energy_of, units_in};

use isa::refusal::Refusal;

#[derive(Clone, Copy)]
pub struct Ratings {
    pub microfarads: u32,
    // the voltages between which it works, in millivolts
    pub top: u32,
    pub bottom: u32,
    // the energy of a unit of charge, in picojoules
    pub unit: u32,
    ghost within: { Within (ratings_of microfarads top bottom unit) },
}

impl Ratings {
    ghost use Rattle.supply.specs.Rated.{rated, Rated};

    // Microfarads, then top and bottom in millivolts, and the energy of a unit
    // in picojoules.
    pub fn new(microfarads: u32, top: u32, bottom: u32, unit: u32) -> Result<Ratings, Refusal>
        ensures { Rated (ratings_of microfarads top bottom unit) result }
    {
        let allowed = (1..=100_000).contains(&microfarads)
            && bottom < top
            && top <= 10_000
            && (1..=1_000_000).contains(&unit);
        if !allowed {
            return Err(Refusal::SupplyNumbers);
        }
        Ok(Ratings {
            microfarads,
            top,
            bottom,
            unit,
        })
    }

    // Microfarads times millivolts squared are twice the picojoules.
    fn energy_at(self, millivolts: u32) -> u64
        requires { millivolts ≤ 10000 }
        ensures { result ≡ energy_at (rated self) millivolts }
    {
        let volts = millivolts as u64;
        self.microfarads as u64 * (volts * volts)
    }

    // Its energy at the bottom.
    pub fn floor(self) -> u64
        ensures { result ≡ floor_of (rated self) }
    {
        self.energy_at(self.bottom)
    }

    // Its energy at the top.
    pub fn full(self) -> u64
        ensures { result ≡ full_of (rated self) }
    {
        self.energy_at(self.top)
    }

    pub(crate) fn energy_of(self, units: u32) -> u64
        ensures { result ≡ energy_of (rated self) units }
    {
        units as u64 * (2 * self.unit as u64)
    }

    // The whole units that an energy has above the floor.
    pub(crate) fn units_in(self, energy: u64) -> u64
        requires { floor_of (rated self) ≤ energy }
        ensures { result ≡ units_in (rated self) energy }
    {
        (energy - self.floor()) / (2 * self.unit as u64)
    }
}
