// Rounds on a rig whose counts are known.
#![tactic(auto)]

pub mod capacitor;
pub mod known;
