//! Tests of running peers, in a crate of their own, so that the crates that they test are proved
//! once.
#![tactic(auto)]

#[cfg(test)]
mod runs;
#[cfg(test)]
mod sessions;
