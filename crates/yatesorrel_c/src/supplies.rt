// A supply in plain numbers.
ghost use Rattle.std.specs.Prelude.{◌≡◌};
ghost use Rattle.yatesorrel_c.specs.Supplies.{plain_capacitor, plain_mains, plain_supply, CapacitorIn, MainsIn, SupplyIn, CapacitorMade};
ghost use Rattle.supply.specs.Mains.{fresh};
ghost use Rattle.supply.specs.Ratings.{ratings_of};

use crate::told::PlainTold;
use supply::capacitor::Capacitor;
use supply::mains::Mains;
use supply::ratings::Ratings;
use supply::source::Source;

const CAPACITOR: u32 = 1;

const MAINS: u32 = 2;

// By its kind a capacitor or the mains, which have no ratings and no energy.
#[repr(C)]
#[derive(Clone, Copy, PartialEq, Eq)]
pub struct PlainSupply {
    pub kind: u32,
    pub microfarads: u32,
    pub top: u32,
    pub bottom: u32,
    pub unit: u32,
    pub energy: u64,
    pub asked: u64,
    pub charges: u64,
}

impl PlainSupply {
    fn of_capacitor(capacitor: &Capacitor) -> PlainSupply
        ensures { result ≡ plain_capacitor capacitor.now }
    {
        PlainSupply {
            kind: CAPACITOR,
            microfarads: capacitor.ratings.microfarads,
            top: capacitor.ratings.top,
            bottom: capacitor.ratings.bottom,
            unit: capacitor.ratings.unit,
            energy: capacitor.energy,
            asked: capacitor.asked,
            charges: capacitor.charges,
        }
    }

    fn of_mains(mains: &Mains) -> PlainSupply
        ensures { result ≡ plain_mains mains.now }
    {
        PlainSupply {
            kind: MAINS,
            microfarads: 0,
            top: 0,
            bottom: 0,
            unit: 0,
            energy: 0,
            asked: mains.asked,
            charges: mains.charges,
        }
    }

    pub(crate) fn of(source: &Source) -> PlainSupply
        ensures { result ≡ plain_supply source.now }
    {
        match source {
            Source::Capacitor(capacitor) => PlainSupply::of_capacitor(capacitor),
            Source::Mains(mains) => PlainSupply::of_mains(mains),
        }
    }

    fn capacitor(&self) -> Option<Capacitor>
        ensures { CapacitorIn self.now result }
    {
        if self.kind != CAPACITOR {
            return None;
        }
        let rated = Ratings::new(self.microfarads, self.top, self.bottom, self.unit);
        let ratings = rated.ok()?;
        if self.energy < ratings.floor() || ratings.full() < self.energy {
            return None;
        }
        Some(Capacitor {
            ratings,
            energy: self.energy,
            asked: self.asked,
            charges: self.charges,
        })
    }

    #[inline(always)]
    fn mains(&self) -> Option<Mains>
        ensures { MainsIn self.now result }
    {
        let mains = Mains {
            asked: self.asked,
            charges: self.charges,
        };
        (*self == PlainSupply::of_mains(&mains)).then_some(mains)
    }

    // The supply of these numbers, or none where no supply has them.
    #[inline(always)]
    pub(crate) fn source(&self) -> Option<Source>
        ensures { SupplyIn self.now result }
    {
        if let Some(capacitor) = self.capacitor() {
            return Some(Source::Capacitor(capacitor));
        }
        let mains = self.mains()?;
        Some(Source::Mains(mains))
    }
}

// Makes a capacitor at its bottom voltage, of microfarads, millivolts and the
// picojoules of a unit.
#[unsafe(no_mangle)]
pub extern "C" fn yatesorrel_capacitor(
    microfarads: u32,
    top: u32,
    bottom: u32,
    unit: u32,
    supply: &mut PlainSupply,
) -> PlainTold
    ensures { CapacitorMade (ratings_of microfarads top bottom unit) supply.old supply.new result }
{
    match Capacitor::new(microfarads, top, bottom, unit) {
        Ok(capacitor) => {
            *supply = PlainSupply::of_capacitor(&capacitor);
            PlainTold::of(None)
        }
        Err(refusal) => PlainTold::of(Some(refusal)),
    }
}

// Makes the mains.
#[unsafe(no_mangle)]
pub extern "C" fn yatesorrel_mains(supply: &mut PlainSupply)
    ensures { supply.new ≡ plain_mains fresh }
{
    *supply = PlainSupply::of_mains(&Mains::new());
}
