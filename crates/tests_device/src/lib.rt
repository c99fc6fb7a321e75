//! Tests of the region, the device's registers and its interrupts, in a crate of their own. So the
//! crates that they test are proved once.
#![tactic(auto)]

#[cfg(test)]
mod doorbells;
#[cfg(test)]
mod layouts;
#[cfg(test)]
mod listings;
#[cfg(test)]
mod spaces;
