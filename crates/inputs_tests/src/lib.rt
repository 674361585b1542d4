// Tests of what a person types and writes: tables of cases that are run.
#![tactic(auto)]

#[cfg(test)]
mod command;
#[cfg(test)]
mod prices;
#[cfg(test)]
mod supply;
#[cfg(test)]
mod tape;
#[cfg(test)]
mod words;
