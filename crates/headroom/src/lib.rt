// Headroom: how much charge a round needs at least, how small its capacitor may
// become, and which stretch says so.
#![tactic(auto)]

pub mod budget;
pub mod capacity;
pub mod stretch;
#[cfg(test)]
mod tests;
