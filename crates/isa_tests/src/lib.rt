// Tests of the instruction set and of its text: tables of cases that are run.
#![tactic(auto)]

#[cfg(test)]
mod images;
#[cfg(test)]
mod opcodes;
#[cfg(test)]
mod refusals;
#[cfg(test)]
mod rules;
#[cfg(test)]
mod texts;
