// What a person types and writes, read: command lines, supply words, tapes and
// price lists.
#![tactic(auto)]

pub mod command;
pub mod misuse;
mod number;
mod options;
pub mod prices;
mod said;
pub mod supply;
pub mod tape;
