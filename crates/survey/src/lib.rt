// What a page shows of a round, as numbers: its regions and worths, its run, and
// the places at which the picture of the run is drawn.
#![tactic(auto)]

pub mod bar;
pub mod column;
pub mod columns;
pub mod geometry;
pub mod moment;
pub mod regions;
pub mod remark;
pub mod survey;
#[cfg(test)]
mod tests;
pub mod trace;
