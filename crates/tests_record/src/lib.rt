//! Tests of texts and of what is made of them: sources and sinks, schedules, records with their
//! laws and pictures, captures, ports and bridges. They are in a crate of their own, so that the
//! crates that they test are proved once. Whole texts are worked rows.
#![tactic(auto)]

#[cfg(test)]
mod bridges;
#[cfg(test)]
mod captures;
#[cfg(test)]
mod charts;
#[cfg(test)]
mod ends;
#[cfg(test)]
mod laws;
#[cfg(test)]
mod models;
#[cfg(test)]
mod ports;
#[cfg(test)]
mod records;
#[cfg(test)]
mod schedules;
