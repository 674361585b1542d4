// An instruction that can be executed: its registers are among r0 to r10.
ghost use Rattle.isa.specs.Instruction.{Registered};

use isa::instruction::Instruction;

#[derive(Clone, Copy)]
pub(crate) struct Executable {
    pub(crate) instruction: Instruction,
    ghost registered: { Registered instruction },
}
