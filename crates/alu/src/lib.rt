// The parts of the machine that work on values: arithmetic, comparisons and
// memory. The first two are inlined into a step, since a call takes longer than
// the work.
#![tactic(auto)]

pub mod arithmetic;
pub mod comparison;
pub mod memory;
pub mod width;
