// What the calls of a rig answer.
use isa::refusal::Refusal;
use machine::ending::Ending;
use machine::state::Record;

// A step that was not refused.
#[derive(Clone, Copy)]
pub enum Attempt {
    No,
    // yes, and the round goes on
    Yes,
    // yes, and the round has ended so
    Ended(Ending),
}

#[derive(Clone, Copy)]
pub enum Reply {
    Step(Result<Attempt, Refusal>),
    Cut(Result<(), Refusal>),
    // a count that was asked for
    Count(u64),
    Record(Result<Record, Refusal>),
}
