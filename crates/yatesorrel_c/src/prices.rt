// Prices in plain numbers.
ghost use Rattle.yatesorrel_c.specs.Prices.{Priced};

use crate::lent::LentPrices;
use crate::listed::Listed;

// By kind 0 the operand model, whatever is listed; by kind 1 the 256 prices by
// opcode and the last for a saving; any other kind is none.
#[repr(C)]
#[derive(Clone, Copy)]
pub struct PlainPrices {
    pub kind: u32,
    pub flat: [u16; 257],
}

const OPERAND: u32 = 0;

const FLAT: u32 = 1;

impl PlainPrices {
    pub(crate) fn prices(&self) -> Option<LentPrices<'_>>
        ensures { Priced self.now result }
    {
        match self.kind {
            OPERAND => Some(LentPrices::Operand),
            FLAT => Some(LentPrices::Flat(Listed::new(&self.flat))),
            _ => None,
        }
    }
}
