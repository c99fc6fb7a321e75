//! The words that running peers share, and the single actions on them.
//!
//! The words are an `atomic_table` under one rule, and a pass has the list of each of its peers'
//! actions. Each public call that acts on a word makes one operation on it, and appends one entry
//! to the list of the pass's first peer. These are `load`, `store`, `set_state`, `store_session`,
//! `load_session`, `reset`, `ring`, `look` and `clear`. `split_pass` and `join_pass` move lists and
//! add none. `learn` makes a load that adds no entry, and gives what the rule says of all lists.
//!
//! A pass can't be made or changed in another way, so a caller can't record more than these calls
//! did. That each of them makes just one operation is read off its body: the rule holds of words
//! and lists, and counts no operations.
//!
//! # Design
//!
//! - The table has the words of the region, then two words for the interrupts of each peer, then
//!   two session words. So one pass has all actions of a peer, in their order. No ring, look or
//!   clear touches a word of the region.
//! - The plays, by which an operation on the table changes a list, are private, and so is what a
//!   pass holds.
#![tactic(auto)]

mod accesses;
mod interrupts;
mod routes;
mod rule;
mod run_setup;
mod sessions;
mod view;
mod words;

pub use accesses::{load, set_state, store};
pub use interrupts::{clear, look, ring};
pub use routes::routes_of;
pub use rule::{Begins, Rule};
pub use run_setup::RunSetup;
pub use sessions::{SessionWord, load_session, reset, store_session};
pub use view::View;
pub use words::{Pass, Words, join_pass, learn, split_pass, words_for};
