// Tests of the certifier: rounds around the edge of every refusal.
#![tactic(auto)]

#[cfg(test)]
mod limits;
#[cfg(test)]
mod rounds;
#[cfg(test)]
mod working;
