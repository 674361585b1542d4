// What a store adds to its price: a unit for each one among the bits it writes.
ghost use Rattle.std.specs.Prelude.{◌≡◌};
ghost use Rattle.pricing.specs.Store.{storing};

use isa::kind::Size;
use isa::size::cut_to;

pub(crate) fn storing(size: Size, b: u64) -> u32
    ensures { result ≡ storing size b }
{
    cut_to(size, b).count_ones()
}
