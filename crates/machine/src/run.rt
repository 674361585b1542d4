// A run from the beginning.
ghost use Rattle.std.specs.Prelude.{◌≡◌};
ghost use Rattle.machine.specs.Process.{Deterministic};
ghost use Rattle.machine.specs.Run.{mains, run_of, Reached};

use crate::state::State;

#[derive(Clone, Copy)]
pub struct Run {
    pub state: State,
    pub steps: u64,
}

// Runs an image over a tape for at most so many steps, stopping at the ending.
#[tactic(auto, using(crate::proofs::Runs::goes_on, crate::proofs::Runs::stays, crate::proofs::Runs::meant, crate::proofs::Processes::deterministic))]
pub fn run_for(image: &[u8], tape: &[u32], most: u64) -> Run
    ensures value { result ≡ run_of image.now tape.now most }
    ensures reached { Reached image.now tape.now most result }
    ensures deterministic { Deterministic (mains image.now tape.now) }
{
    let mut state = State::new();
    for steps in 0..most {
        if state.ended() {
            return Run { state, steps };
        }
        state.step(image, tape);
    }
    Run { state, steps: most }
}
