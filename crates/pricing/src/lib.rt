// Price models: what an instruction and a saving may spend, and what they do.
#![tactic(auto)]

pub mod flat;
mod helper;
pub mod model;
pub mod operand;
pub mod prices;
mod store;
