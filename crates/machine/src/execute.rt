// What each kind of instruction does to a state.
ghost use Rattle.std.specs.Prelude.{◌≡◌};
ghost use Rattle.machine.specs.Execute.{computed, branched, read_from, written_to, sampled, recorded, called, executed};

use crate::ending::{Ending, Trap};
use crate::executable::Executable;
use crate::state::{LOG, Record, State};
use alu::arithmetic::apply;
use alu::comparison::holds;
use alu::memory::{load, store};
use alu::width::sign_extended;
use isa::helper::{Helper, helper_of};
use isa::instruction::Instruction;
use isa::kind::{Kind, Operation, Size, Source, Test, Width};

impl State {
    // Stays: a struct of width, operation and source would be made by the match on the kind and taken apart here.
    #[inline(always)]
    fn compute(
        &mut self,
        executable: &Executable,
        width: Width,
        operation: Operation,
        source: Source,
    )
        ensures { self.new ≡ computed width operation source executable.now.instruction self.old }
    {
        let instruction = executable.instruction;
        let dst = self.read(instruction.fields.dst);
        let value = self.source_value(executable, source);
        self.write(instruction.fields.dst, apply(width, operation, dst, value));
        self.go_on(instruction);
    }

    #[inline(always)]
    fn branch(&mut self, executable: &Executable, width: Width, test: Test, source: Source)
        ensures { self.new ≡ branched width test source executable.now.instruction self.old }
    {
        let instruction = executable.instruction;
        let dst = self.read(instruction.fields.dst);
        if holds(width, test, dst, self.source_value(executable, source)) {
            self.jump(instruction);
        } else {
            self.go_on(instruction);
        }
    }

    #[inline(always)]
    fn read_from(&mut self, executable: &Executable, size: Size)
        ensures { self.new ≡ read_from size executable.now.instruction self.old }
    {
        let instruction = executable.instruction;
        let address = self.address(instruction.fields.src, instruction);
        match load(&self.memory, address, size) {
            Some(value) => {
                self.write(instruction.fields.dst, value);
                self.go_on(instruction);
            }
            None => self.end(Ending::Trap(Trap::OutsideMemory)),
        }
    }

    #[inline(always)]
    fn write_to(&mut self, executable: &Executable, size: Size, value: u64)
        ensures { self.new ≡ written_to size value executable.now.instruction self.old }
    {
        let instruction = executable.instruction;
        let address = self.address(instruction.fields.dst, instruction);
        match store(&mut self.memory, address, size, value) {
            Some(()) => self.go_on(instruction),
            None => self.end(Ending::Trap(Trap::OutsideMemory)),
        }
    }

    // Puts the next reading into r0.
    fn sample(&mut self, instruction: Instruction, tape: &[u32])
        ensures { self.new ≡ sampled tape.now instruction self.old }
    {
        match tape.get(self.place) {
            Some(reading) => {
                self.place += 1;
                self.write(0, *reading as u64);
                self.go_on(instruction);
            }
            None => self.end(Ending::Trap(Trap::TapeFinished)),
        }
    }

    // Appends a record of r1, the sensor, and r2, the value.
    fn note(&mut self, instruction: Instruction)
        ensures { self.new ≡ recorded instruction self.old }
    {
        // Stays: with `get_mut` nothing is known of the log afterwards, and the proof does not close.
        if self.logged < LOG {
            let sensor = (self.read(1) % 256) as u8;
            let value = self.read(2);
            self.log[self.logged] = Record { sensor, value };
            self.logged += 1;
            self.write(0, 0);
            self.go_on(instruction);
        } else {
            self.end(Ending::Trap(Trap::LogFull));
        }
    }

    #[inline(always)]
    fn call(&mut self, instruction: Instruction, tape: &[u32])
        ensures { self.new ≡ called tape.now instruction self.old }
    {
        match helper_of(instruction.fields.imm) {
            Some(Helper::Save) => self.go_on(instruction),
            Some(Helper::NextReading) => self.sample(instruction, tape),
            Some(Helper::Record) => self.note(instruction),
            None => self.end(Ending::Trap(Trap::BadSlot)),
        }
    }

    #[inline(always)]
    pub(crate) fn execute(&mut self, executable: &Executable, tape: &[u32])
        ensures { self.new ≡ executed tape.now executable.now.instruction self.old }
    {
        let instruction = executable.instruction;
        match instruction.kind {
            Kind::Arithmetic(width, operation, source) => self.compute(
                executable, width, operation, source,
            ),
            Kind::Branch(width, test, source) => self.branch(executable, width, test, source),
            Kind::Jump => self.jump(instruction),
            Kind::Call => self.call(instruction, tape),
            Kind::Exit => self.end(Ending::Exit),
            Kind::Load(size) => self.read_from(executable, size),
            Kind::StoreImm(size) => {
                self.write_to(executable, size, sign_extended(instruction.fields.imm))
            }
            Kind::StoreReg(size) => {
                let value = self.read(instruction.fields.src);
                self.write_to(executable, size, value);
            }
        }
    }
}
