//! The steps of a peer as lines of a history: the lines of an endpoint's notes, and the accesses
//! that a storm draws.
//!
//! The crate uses `lawful_history` for lines and storms and `link_endpoint` for notes. It performs
//! no access: the code that runs a peer over a memory calls it. Its contracts promise the marks and
//! the draws of the definitions.
#![tactic(auto)]

mod notes;
mod storm;

pub use notes::line_of;
pub use storm::Storm;
