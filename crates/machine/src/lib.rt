// The machine that runs a reading round without interruption: its state, one
// step, and a run. What most steps go through is inlined, since the calls took
// longer than the work.
#![tactic(auto)]

pub mod effect;
pub mod ending;
pub mod example;
mod executable;
mod execute;
mod fetch;
mod operand;
mod reading;
pub mod run;
pub mod state;
pub mod step;
