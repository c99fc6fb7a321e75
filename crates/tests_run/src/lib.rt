//! Tests of the top call with the word `run`: peers in threads under gates.
#![tactic(auto)]

#[cfg(test)]
mod counter;
#[cfg(test)]
mod heads;
#[cfg(test)]
mod laws;
#[cfg(test)]
mod run_rows;
