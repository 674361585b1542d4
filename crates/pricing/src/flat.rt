// The flat model: a price for each opcode, whatever its operands.
ghost use Rattle.std.specs.Prelude.{◌≡◌};
ghost use Rattle.pricing.specs.Flat.{Small, flat};
ghost use Rattle.std.proofs.Common.{rules};

use crate::model::PriceModel;

// Prices by opcode, and the last for a saving.
// Stays: callers give the 257 prices as one array, and a library has no heap.
#[derive(Clone, Copy)]
pub struct FlatModel {
    prices: [u16; 257],
    ghost small: { Small prices },
}

const SAVING: usize = 256;

impl FlatModel {
    pub fn new(prices: [u16; 257]) -> FlatModel
        ensures { result.prices ≡ prices }
    {
        FlatModel { prices }
    }
}

impl PriceModel for FlatModel {
    ghost means = { λ m. flat m.prices };

    ghost bounded = { Prim.search rules };

    fn most(&self, opcode: u8, _imm: i32) -> u32 {
        self.prices[opcode as usize] as u32
    }

    fn spending(&self, opcode: u8, imm: i32, _a: u64, _b: u64) -> u32 {
        self.most(opcode, imm)
    }

    fn dearest(&self) -> u32 {
        self.prices[SAVING] as u32
    }

    fn saving(&self, _pending: usize) -> u32 {
        self.dearest()
    }
}
