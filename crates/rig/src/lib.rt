// The rig: a round on a supply that may say no. What each step goes through is
// inlined, since the calls took longer than the work.
#![tactic(auto)]

pub mod begin;
mod charge;
pub mod cut;
mod limit;
pub mod parts;
pub mod question;
pub mod rehearse;
pub mod rig;
pub mod standing;
pub mod step;
