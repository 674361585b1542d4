// The run claims: what a round that was accepted keeps on every supply. The
// functions here carry the theorems.
// What a step draws is inlined, since the call took longer than the work.
#![tactic(auto)]

pub mod amount;
pub mod call;
pub mod claims;
pub mod reply;
pub mod round;
