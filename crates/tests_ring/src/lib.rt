//! Tests of the rings and the ends of the link, in a crate of their own. So the crates that they
//! test are proved once.
#![tactic(auto)]

#[cfg(test)]
mod endpoints;
#[cfg(test)]
mod handshakes;
#[cfg(test)]
mod offers;
#[cfg(test)]
mod polls;
#[cfg(test)]
mod rings;
#[cfg(test)]
mod slots;
