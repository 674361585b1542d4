// The certifier: whether every walk of a round fits one full charge.
#![tactic(auto)]

pub mod certify;
mod clear;
pub mod example;
pub mod fits;
mod judge;
mod priced;
