// Tests of the price models and of path values: tables of cases that are run.
#![tactic(auto)]

#[cfg(test)]
mod path_values;
#[cfg(test)]
mod prices;
