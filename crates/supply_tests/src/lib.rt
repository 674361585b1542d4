// Tests of the supplies.
#![tactic(auto)]

#[cfg(test)]
mod capacitors;
#[cfg(test)]
mod limits;
#[cfg(test)]
mod mains;
#[cfg(test)]
mod script;
