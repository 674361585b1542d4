// The price of a region as a bar.
ghost use Rattle.std.specs.Prelude.{◌≡◌, ◌≤◌};
ghost use Rattle.survey.specs.Geometry.{scaled};

use crate::geometry::scaled;

// The length of the longest bar.
const LENGTH: u32 = 400;

// A price against a budget, both at a scale on which the whole is the length of
// the longest bar.
#[derive(Clone, Copy)]
pub struct Bar {
    pub price: u64,
    pub budget: u64,
    pub whole: u64,
}

impl Bar {
    ghost use Rattle.std.specs.Prelude.{◌-◌};
    ghost use Rattle.survey.specs.Bar.{bar_length, room, paid, unpaid};

    fn at(self, charge: u64) -> u32
        ensures value { result ≡ scaled charge self.whole bar_length }
        ensures within { result ≤ bar_length }
    {
        scaled(charge, self.whole, LENGTH)
    }

    // How long the budget is.
    pub fn room(self) -> u32
        ensures value { result ≡ room self }
        ensures within { result ≤ bar_length }
    {
        self.at(self.budget)
    }

    // How much of the price the budget pays: a little at least, so that it is seen.
    pub fn paid(self) -> u32
        ensures value { result ≡ paid self }
        ensures within { result ≤ bar_length }
    {
        self.at(self.price).min(self.room()).max(2)
    }

    // How much of the price the budget does not pay.
    pub fn unpaid(self) -> u32
        ensures value { result ≡ unpaid self }
        ensures within { result ≤ bar_length }
    {
        self.at(self.price).saturating_sub(self.room())
    }

    // What the price is over the budget; 0 where it is not.
    pub fn excess(self) -> u64
        ensures { result ≡ self.price - self.budget }
    {
        self.price.saturating_sub(self.budget)
    }

    // What the budget leaves; 0 where it does not suffice.
    pub fn rest(self) -> u64
        ensures { result ≡ self.budget - self.price }
    {
        self.budget.saturating_sub(self.price)
    }
}
