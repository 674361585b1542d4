// The operands of an instruction, as a state gives them.
ghost use Rattle.std.specs.Prelude.{◌≡◌, ◌≤◌};
ghost use Rattle.machine.specs.Operand.{source_value, address_of, second_of, operands_of};

use crate::executable::Executable;
use crate::state::State;
use alu::width::sign_extended;
use isa::instruction::Instruction;
use isa::kind::{Kind, Operation, Source};
use isa::size::cut_to;

impl State {
    // The source value: imm, or the register src.
    pub(crate) fn source_value(&self, executable: &Executable, source: Source) -> u64
        ensures { result ≡ source_value source executable.now.instruction self.now }
    {
        let fields = executable.instruction.fields;
        match source {
            Source::Imm => sign_extended(fields.imm),
            Source::Register => self.read(fields.src),
        }
    }

    // The address that a register and the offset say.
    pub(crate) fn address(&self, base: u8, instruction: Instruction) -> u64
        requires { base ≤ 10 }
        ensures { result ≡ address_of base instruction self.now }
    {
        self.read(base)
            .wrapping_add_signed(instruction.fields.offset as i64)
    }

    // The second operand of arithmetic; NEG has none.
    fn second(&self, executable: &Executable, operation: Operation, source: Source) -> u64
        ensures { result ≡ second_of operation source executable.now.instruction self.now }
    {
        match operation {
            Operation::Neg => 0,
            _ => self.source_value(executable, source),
        }
    }

    // The two operands that the price of an instruction may depend on.
    #[inline(always)]
    pub(crate) fn operands(&self, executable: &Executable) -> (u64, u64)
        ensures { result ≡ operands_of executable.now.instruction.kind executable.now.instruction self.now }
    {
        let instruction = executable.instruction;
        let fields = instruction.fields;
        match instruction.kind {
            Kind::Arithmetic(_, operation, source) => (
                self.read(fields.dst),
                self.second(executable, operation, source),
            ),
            Kind::Branch(_, _, source) => (
                self.read(fields.dst),
                self.source_value(executable, source),
            ),
            Kind::Call => (self.read(1), self.read(2)),
            Kind::StoreImm(size) => (
                self.address(fields.dst, instruction),
                cut_to(size, sign_extended(fields.imm)),
            ),
            Kind::StoreReg(size) => (
                self.address(fields.dst, instruction),
                cut_to(size, self.read(fields.src)),
            ),
            _ => (0, 0),
        }
    }
}
