// A path value with a price.
ghost use Rattle.std.specs.Prelude.{◌≡◌, ℕ};
ghost use Rattle.std.proofs.Common.{rules};
ghost use Rattle.paths.specs.Price.{Saturates};
ghost use Rattle.certifier.specs.Priced.{price_of_price, price_of_worth};

use paths::kind::PathValue;
use paths::price::Price;
use paths::worth::Worth;

pub trait Priced: PathValue {
    ghost price: { Self → ℕ };

    fn price(self) -> u64
        ensures { result ≡ price self };

    ghost saturates: { Saturates Self.kind price };
}

impl Priced for Price {
    ghost price = { price_of_price };

    fn price(self) -> u64 {
        self.price
    }

    ghost saturates = { Prim.search rules };
}

impl Priced for Worth {
    ghost price = { price_of_worth };

    fn price(self) -> u64 {
        self.price
    }

    ghost saturates = { Prim.search rules };
}
