// Tests of the rig.
#![tactic(auto)]

#[cfg(test)]
mod cases;
mod hostile;
#[cfg(test)]
mod mains;
#[cfg(test)]
mod refusals;
#[cfg(test)]
mod run_claims;
#[cfg(test)]
mod starred;
#[cfg(test)]
mod used;
#[cfg(test)]
mod watched;
