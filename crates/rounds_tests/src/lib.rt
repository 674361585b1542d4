// Tests of the compiled rounds, over their whole way to the borehole.
#![tactic(auto)]

#[cfg(test)]
mod way;
