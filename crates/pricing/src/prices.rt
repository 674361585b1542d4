// The prices that a person chooses: a list of their own, or the operand model.
ghost use Rattle.pricing.specs.Prices.{model_of};
ghost use Rattle.std.proofs.Common.{rules};

use crate::flat::FlatModel;
use crate::model::PriceModel;
use crate::operand::OperandModel;

// Stays: a None would not say that the operand model is meant.
#[derive(Clone, Copy)]
pub enum Prices {
    Operand,
    Flat(FlatModel),
}

// Stays: a method that picks the model once would hand out a `dyn`, which the gate refuses.
impl PriceModel for Prices {
    ghost means = { model_of };

    ghost bounded = { Prim.search rules };

    fn most(&self, opcode: u8, imm: i32) -> u32 {
        match self {
            Prices::Operand => OperandModel.most(opcode, imm),
            Prices::Flat(model) => model.most(opcode, imm),
        }
    }

    fn spending(&self, opcode: u8, imm: i32, a: u64, b: u64) -> u32 {
        match self {
            Prices::Operand => OperandModel.spending(opcode, imm, a, b),
            Prices::Flat(model) => model.spending(opcode, imm, a, b),
        }
    }

    fn dearest(&self) -> u32 {
        match self {
            Prices::Operand => OperandModel.dearest(),
            Prices::Flat(model) => model.dearest(),
        }
    }

    fn saving(&self, pending: usize) -> u32 {
        match self {
            Prices::Operand => OperandModel.saving(pending),
            Prices::Flat(model) => model.saving(pending),
        }
    }
}
