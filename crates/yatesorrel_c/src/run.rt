// The mains run from C: begun, stepped, and run at once.
ghost use Rattle.std.specs.Prelude.{◌≡◌, ◌<◌};
ghost use Rattle.machine.specs.Process.{Deterministic};
ghost use Rattle.machine.specs.Run.{mains, run_of, Reached};
ghost use Rattle.machine.specs.State.{initial};
ghost use Rattle.yatesorrel_c.specs.declared.told.Own.TheVariants.{NotBegun};
ghost use Rattle.yatesorrel_c.specs.State.{Known};
ghost use Rattle.yatesorrel_c.specs.Run.{step_of, step_in, own_step, StepDone};

use crate::state::is_known;
use crate::told::{Own, PlainTold};
use machine::effect::{Effect, Work};
use machine::run::run_for;
use machine::state::State;

// What a step did: nothing, since the run had ended; found no instruction; a
// save; ended the run; or another instruction.
const NOTHING: u8 = 0;

const NO_INSTRUCTION: u8 = 1;

const SAVE: u8 = 2;

const END: u8 = 3;

const OTHER: u8 = 4;

// What a step did, and the instruction with its operands, all 0 where there was
// none.
#[repr(C)]
#[derive(Clone, Copy)]
pub struct PlainStep {
    pub refusal: PlainTold,
    pub did: u8,
    pub opcode: u8,
    pub imm: i32,
    pub a: u64,
    pub b: u64,
}

const NO_WORK: Work = Work {
    opcode: 0,
    imm: 0,
    a: 0,
    b: 0,
};

impl PlainStep {
    fn new(refusal: PlainTold, did: u8, work: Work) -> PlainStep
        ensures { result ≡ step_of refusal did work }
    {
        PlainStep {
            refusal,
            did,
            opcode: work.opcode,
            imm: work.imm,
            a: work.a,
            b: work.b,
        }
    }

    fn of(effect: Effect) -> PlainStep
        ensures { result ≡ step_in effect }
    {
        let (did, work) = match effect {
            Effect::Nothing => (NOTHING, NO_WORK),
            Effect::NoInstruction => (NO_INSTRUCTION, NO_WORK),
            Effect::Save(work) => (SAVE, work),
            Effect::End(work) => (END, work),
            Effect::Other(work) => (OTHER, work),
        };
        PlainStep::new(PlainTold::of(None), did, work)
    }

    fn own(own: Own) -> PlainStep
        ensures { result ≡ own_step own }
    {
        PlainStep::new(PlainTold::own(own), NOTHING, NO_WORK)
    }
}

// Makes the state at which every run begins.
#[unsafe(no_mangle)]
pub extern "C" fn yatesorrel_state_begin(state: &mut State)
    ensures begun { state.new ≡ initial }
{
    *state = State::new();
}

// Executes one instruction.
#[unsafe(no_mangle)]
pub extern "C" fn yatesorrel_state_step(state: &mut State, image: &[u8], tape: &[u32]) -> PlainStep
    ensures none { 5 < state.old.ending → (result ≡ own_step NotBegun) × (state.new ≡ state.old) }
    ensures stepped { Known state.old → StepDone image.now tape.now state.old state.new result }
{
    if !is_known(state) {
        return PlainStep::own(Own::NotBegun);
    }
    PlainStep::of(state.step(image, tape))
}

// Runs an image from the beginning for at most so many steps, and tells how
// many were made.
#[unsafe(no_mangle)]
pub extern "C" fn yatesorrel_run(image: &[u8], tape: &[u32], most: u64, state: &mut State) -> u64
    ensures steps { result ≡ (run_of image.now tape.now most).steps }
    ensures left { state.new ≡ (run_of image.now tape.now most).state }
    ensures reached { Reached image.now tape.now most (run_of image.now tape.now most) }
    ensures deterministic { Deterministic (mains image.now tape.now) }
{
    let run = run_for(image, tape, most);
    *state = run.state;
    run.steps
}
