// The placer: which idle slots of a round become saves.
#![tactic(auto)]

mod entry;
pub mod example;
pub mod place;
mod settle;
mod slot_bytes;
mod trial;
mod turn;
mod turned;
