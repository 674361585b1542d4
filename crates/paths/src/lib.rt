// Path values: what the walks from a node are worth, for any kind of value.
#![tactic(auto)]

pub mod fill;
pub mod kind;
pub mod node;
pub mod price;
pub mod worth;
