// The moments of a run.

// What happened at a moment.
#[derive(Clone, Copy, PartialEq, Eq, Debug)]
pub enum Event {
    // a charge began with the rig
    Begun,
    // a step drew its charge
    Drew,
    // a step drew its charge and saved
    Saved,
    // the charge gave out, and the rig fell back to its last save
    Fell,
    // the supply was cut, and the rig fell back to its last save
    Cut,
}

// What happened, and the charge that was assured after it.
#[derive(Clone, Copy, PartialEq, Eq, Debug)]
pub struct Moment {
    pub charge: u64,
    pub event: Event,
}
