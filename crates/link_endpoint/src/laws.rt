//! Laws of the calls of an end and of two ends. Each law is the contract of a function without
//! code.
ghost use Rattle.link_endpoint.specs.Refinement.{RefusedEndsStay};
ghost use Rattle.link_endpoint.specs.Bursts.{BurstsGoOn};
ghost use Rattle.link_endpoint.specs.Offered.{BurstsKeepOffers};

pub use call_grammar::{
    calls_are_lists, calls_are_permitted, calls_keep_rows, calls_meet_bounds, calls_take_a_step,
    cuts_begin, fields_are_read_once, phase_follows_state, places_follow_trees,
};
pub use link_invariant::{
    end_invariant_is_kept, frames_are_spelled, frames_come_whole, honest_ends_agree,
    honest_runs_deliver, link_invariant_is_kept, pair_is_kept, runs_keep_the_invariant,
    steps_follow_rows,
};

/// An end that refused a value stays out of the link until its device is reset, for all values that
/// its Ticks read.
pub fn refused_ends_stay()
    ensures { RefusedEndsStay }
{}

/// The steps of a burst are steps of the grammar, in order.
// claim: After a burst the end is at the place after as many steps of the grammar.
pub fn bursts_go_on()
    ensures { BurstsGoOn }
{}

/// The steps of a burst leave the frame offered last unchanged, as each single step does.
pub fn bursts_keep_offers()
    ensures { BurstsKeepOffers }
{}
