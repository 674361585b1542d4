// The state of a run.
ghost use Rattle.std.specs.Prelude.{◌≡◌, ◌≤◌};
ghost use Rattle.isa.specs.Instruction.{next_of, target_of};
ghost use Rattle.machine.specs.State.{initial, register_of, moved_to, with_register, ended_by};

use crate::ending::{Ending, GOES_ON};
use alu::memory::MEMORY;
use isa::instruction::Instruction;

pub const REGISTERS: usize = 11;

pub const LOG: usize = 64;

// A reading that the round has put into its log. Callers in C lend lists of
// these, so its layout is C's.
#[repr(C)]
#[derive(Clone, Copy, Debug, PartialEq, Eq)]
pub struct Record {
    pub sensor: u8,
    pub value: u64,
}

// Any numbers are a state, so whoever stores one may make it again of its parts.
// Callers in C hold states, so the layout is C's.
#[repr(C)]
#[derive(Clone, Copy, PartialEq, Eq)]
pub struct State {
    // a jump can lead below 0 or past the image
    pub slot: i32,
    // Stays a number: of an `Option<Ending>` in memory of C not every byte would be one.
    pub ending: u8,
    pub regs: [u64; REGISTERS],
    pub memory: [u8; MEMORY],
    // how many readings of the tape were taken
    pub place: usize,
    // Stays: the device has room for so many, and a state is copied, which an `ArrayVec` is not.
    pub log: [Record; LOG],
    pub logged: usize,
}

impl State {
    // The state at which every run begins.
    pub fn new() -> State
        ensures { result ≡ initial }
    {
        let mut regs = [0; REGISTERS];
        regs[10] = MEMORY as u64;
        State {
            slot: 0,
            ending: GOES_ON,
            regs,
            memory: [0; MEMORY],
            place: 0,
            log: [Record {
                sensor: 0,
                value: 0,
            }; LOG],
            logged: 0,
        }
    }

    // A register that there is.
    // Stays: a type of such numbers would be made of a slot's byte and taken apart at every use.
    pub(crate) fn read(&self, number: u8) -> u64
        requires { number ≤ 10 }
        ensures { result ≡ register_of self.now number }
    {
        self.regs[number as usize]
    }

    pub(crate) fn write(&mut self, number: u8, value: u64)
        requires { number ≤ 10 }
        ensures { self.new ≡ with_register self.old number value }
    {
        self.regs[number as usize] = value;
    }

    pub(crate) fn go_on(&mut self, instruction: Instruction)
        ensures { self.new ≡ moved_to self.old (next_of instruction) }
    {
        self.slot = instruction.next();
    }

    pub(crate) fn jump(&mut self, instruction: Instruction)
        ensures { self.new ≡ moved_to self.old (target_of instruction) }
    {
        self.slot = instruction.target();
    }

    pub(crate) fn end(&mut self, ending: Ending)
        ensures { self.new ≡ ended_by self.old ending }
    {
        self.ending = ending.number();
    }
}
