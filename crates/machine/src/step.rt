// One step of a run.
ghost use Rattle.std.specs.Prelude.{◌≡◌};
ghost use Rattle.machine.specs.Execute.{executed};
ghost use Rattle.machine.specs.Step.{effect_by, mains_step, mains_effect, StepLaws};

use crate::effect::{Effect, effect_in};
use crate::ending::{Ending, Trap};
use crate::executable::Executable;
use crate::fetch::fetch;
use crate::state::State;

impl State {
    // Executes an instruction, and tells its effect.
    #[inline(always)]
    fn execute_and_tell(&mut self, executable: &Executable, tape: &[u32]) -> Effect
        ensures left { self.new ≡ executed tape.now executable.now.instruction self.old }
        ensures effect { result ≡ effect_by executable.now.instruction tape.now self.old }
    {
        // The operands are those from before the instruction.
        let work = self.work(executable);
        self.execute(executable, tape);
        effect_in(executable.instruction.role(), self.ended(), work)
    }

    // One step: executes the instruction at the slot, and tells what it was. A
    // run that has ended stays as it is.
    #[tactic(auto, using(crate::proofs::Stepping::stepped), unfolding(crate::specs::Step::mains_step, crate::specs::Step::mains_effect))]
    #[inline(always)]
    pub fn step(&mut self, image: &[u8], tape: &[u32]) -> Effect
        ensures left { self.new ≡ mains_step image.now tape.now self.old }
        ensures effect { result ≡ mains_effect image.now tape.now self.old }
        ensures meant { StepLaws image.now tape.now self.old }
    {
        if self.ended() {
            return Effect::Nothing;
        }
        match fetch(image, self.slot) {
            Some(instruction) => self.execute_and_tell(&Executable { instruction }, tape),
            None => {
                self.end(Ending::Trap(Trap::BadSlot));
                Effect::NoInstruction
            }
        }
    }
}
