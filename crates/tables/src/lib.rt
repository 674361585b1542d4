// The tables of an image, an entry for each of 1,024 slots: what searches and
// path values go over.
#![tactic(auto)]

pub mod chart;
mod node;
pub mod start;
mod table;
pub mod walk;
