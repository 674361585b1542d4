// A legal instruction: where it stands, what its opcode means, and its fields.
ghost use Rattle.std.specs.Prelude.{◌≡◌};
ghost use Rattle.isa.specs.Instruction.{next_of, target_of, ways_out, role_of};

use crate::helper::{Helper, helper_of};
use crate::kind::Kind;
use crate::slot::Slot;

#[derive(Clone, Copy)]
pub struct Instruction {
    pub at: u16,
    pub kind: Kind,
    pub fields: Slot,
}

// What an instruction is to a round.
#[derive(Clone, Copy, PartialEq, Eq)]
pub enum Role {
    // the call of the helper that keeps the state
    Save,
    // a jump to the next slot, which may become a save
    Idle,
    Exit,
    Other,
}

impl Instruction {
    // The slot after it.
    pub fn next(self) -> i32
        ensures { result ≡ next_of self }
    {
        i32::from(self.at) + 1
    }

    // The slot that its offset names, counted from the slot after it.
    pub fn target(self) -> i32
        ensures { result ≡ target_of self }
    {
        self.next() + i32::from(self.fields.offset)
    }

    // The ways out: the next slot, and the target of a jump.
    pub fn ways_out(self) -> (Option<i32>, Option<i32>)
        ensures { result ≡ ways_out self }
    {
        match self.kind {
            Kind::Branch(..) => (Some(self.next()), Some(self.target())),
            Kind::Jump => (None, Some(self.target())),
            Kind::Exit => (None, None),
            _ => (Some(self.next()), None),
        }
    }

    pub fn role(self) -> Role
        ensures { result ≡ role_of self }
    {
        match self.kind {
            Kind::Call if helper_of(self.fields.imm) == Some(Helper::Save) => Role::Save,
            Kind::Jump if self.fields.offset == 0 => Role::Idle,
            Kind::Exit => Role::Exit,
            _ => Role::Other,
        }
    }
}
