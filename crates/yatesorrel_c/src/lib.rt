// The library for C: an export for each call, over plain structs and lists. What
// a step of a rig reads is inlined, so that it does not go through memory.
#![tactic(auto)]

pub mod attempt;
pub mod begin;
pub mod cut;
pub mod held;
pub mod image;
pub mod least;
mod lent;
mod listed;
pub mod prices;
pub mod questions;
pub mod rehearse;
pub mod run;
pub mod script;
pub mod state;
pub mod supplies;
pub mod told;
