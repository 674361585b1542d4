// Tests of the placer: where saves are placed, and when none can be.
#![tactic(auto)]

#[cfg(test)]
mod placements;
#[cfg(test)]
mod refusals;
#[cfg(test)]
mod rounds;
