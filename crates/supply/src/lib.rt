// Supplies: what a round draws its charge from.
#![tactic(auto)]

pub mod answer;
pub mod capacitor;
pub mod mains;
pub mod ratings;
pub mod source;
pub mod supply;
