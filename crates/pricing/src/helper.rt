// What a helper adds to the price of its CALL.
ghost use Rattle.std.specs.Prelude.{◌≡◌};
ghost use Rattle.pricing.specs.Helper.{calling};

use isa::helper::Helper;

// The price of a reading goes by the two low bits of r1.
pub(crate) fn calling(helper: Option<Helper>, a: u64) -> u32
    ensures { result ≡ calling helper a }
{
    match helper {
        Some(Helper::NextReading) => 60 + 10 * (a % 4) as u32,
        Some(Helper::Record) => 12,
        Some(Helper::Save) | None => 0,
    }
}
