// A price model.
ghost use Rattle.std.specs.Prelude.{◌≡◌};
ghost use Rattle.pricing.specs.Model.{Model, Bounded};

// Its calls answer the four functions that it means, and change nothing.
// Stays: `most` has no operands and `saving` none of these, so a struct of them would fit `spending` alone.
pub trait PriceModel {
    ghost means: { Self → Model };

    // The most that an instruction spends, whatever its operands.
    fn most(&self, opcode: u8, imm: i32) -> u32
        ensures { result ≡ (means self.now).most opcode imm };

    // What an instruction spends at the operands a and b.
    fn spending(&self, opcode: u8, imm: i32, a: u64, b: u64) -> u32
        ensures { result ≡ (means self.now).spending opcode imm a b };

    // The most that a saving spends.
    fn dearest(&self) -> u32
        ensures { result ≡ (means self.now).dearest };

    // What a saving spends with so many pending records.
    fn saving(&self, pending: usize) -> u32
        ensures { result ≡ (means self.now).saving pending };

    ghost bounded: { (m : Self) → Bounded (means m) };
}
