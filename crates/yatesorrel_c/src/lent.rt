// The prices that a caller lends for a call.
ghost use Rattle.std.proofs.Common.{rules};
ghost use Rattle.yatesorrel_c.specs.Lent.{lent_model};

use crate::listed::Listed;
use pricing::model::PriceModel;
use pricing::operand::OperandModel;

#[derive(Clone, Copy)]
pub(crate) enum LentPrices<'a> {
    Operand,
    Flat(Listed<'a>),
}

const SAVING: usize = 256;

impl PriceModel for LentPrices<'_> {
    ghost means = { lent_model };

    ghost bounded = { Prim.search rules };

    fn most(&self, opcode: u8, imm: i32) -> u32 {
        match self {
            LentPrices::Operand => OperandModel.most(opcode, imm),
            LentPrices::Flat(list) => list.prices[opcode as usize] as u32,
        }
    }

    #[inline(always)]
    fn spending(&self, opcode: u8, imm: i32, a: u64, b: u64) -> u32 {
        match self {
            LentPrices::Operand => OperandModel.spending(opcode, imm, a, b),
            LentPrices::Flat(list) => list.prices[opcode as usize] as u32,
        }
    }

    fn dearest(&self) -> u32 {
        match self {
            LentPrices::Operand => OperandModel.dearest(),
            LentPrices::Flat(list) => list.prices[SAVING] as u32,
        }
    }

    #[inline(always)]
    fn saving(&self, pending: usize) -> u32 {
        match self {
            LentPrices::Operand => OperandModel.saving(pending),
            LentPrices::Flat(list) => list.prices[SAVING] as u32,
        }
    }
}
