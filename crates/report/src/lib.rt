// A report: one page that shows a round, its regions and its run on a supply.
#![tactic(auto)]

mod bars;
mod chart;
pub mod escape;
mod head;
mod log_table;
pub mod page;
mod slot_table;
mod style;
#[cfg(test)]
mod tests;
mod walk_table;
mod words;
