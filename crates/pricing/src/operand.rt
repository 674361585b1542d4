// The operand model: a price for the class of the opcode, and what the
// operands add to it.
ghost use Rattle.std.specs.Prelude.{◌≡◌, ◌%◌};
ghost use Rattle.isa.specs.Opcode.{kind_of};
ghost use Rattle.pricing.specs.Operand.{class_price, dividing, added, operand};
ghost use Rattle.std.proofs.Common.{rules};

use crate::helper::calling;
use crate::model::PriceModel;
use crate::store::storing;
use isa::helper::helper_of;
use isa::kind::{Kind, Operation};
use isa::opcode::kind_of;

#[derive(Clone, Copy)]
pub struct OperandModel;

// The classes with a price of their own.
// Stays: a class is three bits of any opcode, legal or not, and an enum of it would only be matched again.
const LDX: u8 = 1;

const ST: u8 = 2;

const STX: u8 = 3;

const ALU64: u8 = 7;

fn class_price(opcode: u8) -> u32
    ensures { result ≡ class_price (opcode % 8) }
{
    match opcode % 8 {
        LDX => 3,
        ST | STX => 4,
        ALU64 => 2,
        _ => 1,
    }
}

// Division takes longer than the rest of arithmetic.
fn dividing(operation: Operation) -> u32
    ensures { result ≡ dividing operation }
{
    match operation {
        Operation::Div | Operation::Mod => 6,
        _ => 0,
    }
}

fn added(opcode: u8, imm: i32, a: u64, b: u64) -> u32
    ensures { result ≡ added (kind_of opcode) imm a b }
{
    match kind_of(opcode) {
        Some(Kind::Arithmetic(_, operation, _)) => dividing(operation),
        Some(Kind::Call) => calling(helper_of(imm), a),
        Some(Kind::StoreImm(size) | Kind::StoreReg(size)) => storing(size, b),
        _ => 0,
    }
}

impl PriceModel for OperandModel {
    ghost means = { λ _. operand };

    ghost bounded = { Prim.search rules };

    // No operands add more than those that are all ones.
    fn most(&self, opcode: u8, imm: i32) -> u32 {
        self.spending(opcode, imm, u64::MAX, u64::MAX)
    }

    fn spending(&self, opcode: u8, imm: i32, a: u64, b: u64) -> u32 {
        class_price(opcode) + added(opcode, imm, a, b)
    }

    fn dearest(&self) -> u32 {
        self.saving(usize::MAX)
    }

    fn saving(&self, pending: usize) -> u32 {
        20 + 2 * pending.min(64) as u32
    }
}
