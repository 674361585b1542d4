// The calls of a rig.
#[derive(Clone, Copy)]
pub enum Call {
    // one attempt of a step
    Step,
    // the supply is cut
    Cut,
    // the questions: charges begun, saves passed, cuts, attempts, a kept record
    Charges,
    Saves,
    Cuts,
    Attempts,
    Record(usize),
}
