// The instruction set of a reading round: what an image is, what an
// instruction is, and when an image is lawful.
#![tactic(auto)]

pub mod helper;
pub mod image;
pub mod instruction;
pub mod kind;
pub mod lawful;
pub mod opcode;
pub mod reason;
pub mod refusal;
pub mod rule;
pub mod size;
pub mod slot;
