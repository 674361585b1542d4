// Instructions as text, in the form that llvm-objdump and bpftool write them.
#![tactic(auto)]

pub mod operand;
mod symbol;
pub mod text;
