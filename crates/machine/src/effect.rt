// What a step did, as far as charge is spent on it.
ghost use Rattle.std.specs.Prelude.{◌≡◌};
ghost use Rattle.machine.specs.Effect.{work_of, effect_in};

use crate::executable::Executable;
use crate::state::State;
use isa::instruction::Role;

// What charge is spent on: an instruction, with its two operands.
#[derive(Clone, Copy)]
pub struct Work {
    pub opcode: u8,
    pub imm: i32,
    pub a: u64,
    pub b: u64,
}

#[derive(Clone, Copy)]
pub enum Effect {
    // the run had ended before
    Nothing,
    // trap 1: there was no legal instruction to execute
    NoInstruction,
    Save(Work),
    // an instruction that ended the run
    End(Work),
    // any other instruction
    Other(Work),
}

impl State {
    // An instruction with the operands that it has at this state.
    #[inline(always)]
    pub(crate) fn work(&self, executable: &Executable) -> Work
        ensures { result ≡ work_of executable.now.instruction self.now }
    {
        let (a, b) = self.operands(executable);
        let fields = executable.instruction.fields;
        Work {
            opcode: fields.opcode,
            imm: fields.imm,
            a,
            b,
        }
    }
}

// The effect of an instruction, by its role and by whether it ended the run.
pub(crate) fn effect_in(role: Role, ended: bool, work: Work) -> Effect
    ensures { result ≡ effect_in role ended work }
{
    match role {
        Role::Save => Effect::Save(work),
        _ if ended => Effect::End(work),
        _ => Effect::Other(work),
    }
}
