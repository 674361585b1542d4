// A price, joined by the greater.
ghost use Rattle.paths.specs.Price.{price_kind};
ghost use Rattle.std.proofs.Common.{rules};

use crate::kind::PathValue;

#[derive(Clone, Copy, Default, PartialEq, Eq, PartialOrd, Ord)]
pub struct Price {
    pub price: u64,
}

impl PathValue for Price {
    ghost kind = { price_kind };

    ghost laws = { Prim.search rules };

    fn empty() -> Price {
        Price::default()
    }

    fn join(self, other: Price) -> Price {
        self.max(other)
    }

    fn extend(self, _slot: u16, price: u64) -> Price {
        Price {
            price: self.price.saturating_add(price),
        }
    }
}
