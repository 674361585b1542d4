// What came of a round: the program's status is 1 where it is refused.
use isa::refusal::Refusal;

pub type Verdict = Result<(), Refusal>;
