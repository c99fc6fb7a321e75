//! The call grammar that engines, simulator, checker and running peers share. It defines the steps
//! of a Tick, a Stop, an Offer and a Poll as a tree, as lists and from place to place. It also
//! defines the words that a call accesses. The crate uses `split_ring` for accesses and notes and
//! `link_handshake` for the phases. It has no code: each law about the definitions of `specs/` is
//! the contract of a function with an empty body.
//!
//! # Design
//!
//! - A place has its own numbers (the frame's, the frames freed, the item's), so the rest of a call
//!   needs no other data. The pending offer has the lengths of its session's frames. `pending_of`
//!   says, at the start of the call, that they are the lengths of the frames accepted and of the
//!   one offered.
//! - Between two reads an end does a task: a list of steps of the table of calls. Its place there
//!   is the number of the next step (`specs/PlaceTable`). `specs/Places` has a name for each of
//!   these places. The law `places_are_the_same` says that both have the same steps.
//! - `freed` of an end rises by the whole distance at `reclaim`, before the ids are read. A place
//!   between the ids has the number of ids left.
//! - An end stores one bit for its avail_event: whether its last read of the available index in the
//!   session found no frame. If it did, avail_event wants a doorbell for the next frame. A poll's
//!   last read that finds no frame comes after the write of avail_event, and a later read finds
//!   each frame that is delivered since. The bit describes the read, not avail_event, so that the
//!   marks of a history determine it and an engine stores no further number. In version 1 nothing
//!   depends on it.
//! - The second read of the available index in a poll is like the first: the place
//!   `ReadingAvailIndex` says whether it is the last one. In version 1 the first read is the last.
//!   So events add one place to a poll, the write of the own avail_event, and one to an offer, the
//!   read of the other's.
//! - The bound of a poll depends on the values read, so it is a function of its marks
//!   (`specs/StepBounds`).
#![tactic(auto)]

ghost use Rattle.call_grammar.specs.Trees.{CutsBegin};
ghost use Rattle.call_grammar.specs.Ends.{PhaseFollowsState};
ghost use Rattle.call_grammar.specs.Calls.{CallsAreLists, CallsTakeAStep};
ghost use Rattle.call_grammar.specs.Automatic.{RoundsKeepTheRule};
ghost use Rattle.call_grammar.specs.Paths.{PathsAreCalls, PathsJoin};
ghost use Rattle.call_grammar.specs.Permitted.{CallsArePermitted, PathsArePermitted};
ghost use Rattle.call_grammar.specs.Returning.{PollsThatReturnRing};
ghost use Rattle.call_grammar.specs.Rows.{CallsKeepRows};
ghost use Rattle.call_grammar.specs.Places.{PlacesFollowTrees};
ghost use Rattle.call_grammar.specs.SamePlaces.{PlacesAreTheSame};
ghost use Rattle.call_grammar.specs.Replays.{ReplaysAreCalls};
ghost use Rattle.call_grammar.specs.StepBounds.{CallsMeetBounds, OtherCallsMeetBounds};
ghost use Rattle.call_grammar.specs.ReadsOnce.{FieldsAreReadOnce};
ghost use Rattle.call_grammar.specs.ItemSpelling.{ReadItemsAreSpelled};

/// Law: the steps of a call that is cut are the first steps of a whole call.
pub fn cuts_begin()
    ensures { CutsBegin }
{}

/// Law: a list of steps runs the tree of a call to its end exactly if the table of calls has the
/// list.
// claim with cuts_begin, calls_take_a_step, phase_follows_state: A list of steps runs a call's tree
//    to its end exactly if it is one of the call's lists. A cut call is the beginning of one; each
//    call takes a step; its phase is that of its State writes.
pub fn calls_are_lists()
    ensures { CallsAreLists }
{}

/// Law: every call has at least one step.
pub fn calls_take_a_step()
    ensures { CallsTakeAStep }
{}

/// Law: the phase of an end changes only at a State step.
pub fn phase_follows_state()
    ensures { PhaseFollowsState }
{}

/// Law: the rounds of an automatic end choose the same calls as its rule, which depends on the call
/// before.
// claim: The rounds in which an automatic peer chooses its calls keep its rule, which depends on
//    the call before.
pub fn rounds_keep_the_rule()
    ensures { RoundsKeepTheRule }
{}

/// Law: for all values read, a call writes only its own section and its own State word, and reads
/// only the other's words.
// claim: A call writes its own section and State, reads the other's, and rings the other.
pub fn calls_are_permitted()
    ensures { CallsArePermitted }
{}

/// Law: an end sets State 0, or the State of the phase table's move for the last value read, which
/// is the other's State.
// claim: State steps follow the phase table from the value read.
pub fn calls_keep_rows()
    ensures { CallsKeepRows }
{}

/// Law: a call begins at its first place, and each step is the step at its place and leads to the
/// next place.
// claim: A call begins at its first place, and continues by the step at its place alone.
pub fn places_follow_trees()
    ensures { PlacesFollowTrees }
{}

/// Law: a list of steps is a call exactly if it replays, step by step, from the call's first place
/// to its end.
// claim: A list of steps is a call exactly if it is played from the call's first place.
pub fn replays_are_calls()
    ensures { ReplaysAreCalls }
{}

/// Law: the number of steps of a finished call is at most its bound. An Offer needs a number of
/// frames in flight of at most the limit; any other call needs nothing.
// claim calls, others: A finished call meets its step bound: an offer if the frames in flight are
//    within the limit, a tick, a stop and a poll always.
pub fn calls_meet_bounds()
    ensures calls { CallsMeetBounds }
    ensures others { OtherCallsMeetBounds }
{}

/// Law: each foreign field is read once for each item of a poll, and each word once in an offer.
/// Each index is read once for each use of it.
// claim: Each foreign field is read once for each item, and each word once in an offer. An index is
//    read once for each use, whole call or cut: the step with the mark of the use is the read. A
//    call may use an index more than once.
pub fn fields_are_read_once()
    ensures { FieldsAreReadOnce }
{}

/// Law: the last step of a finished poll that returned a frame is the other peer's doorbell, unless
/// the poll refused the link. So a peer whose offer was full needs no event index for returned
/// frames.
// claim: The last step of a finished poll that returned a frame is the other's doorbell, unless the
//    poll refused the link. So a sender whose offer found no room needs no event.
pub fn polls_that_return_ring()
    ensures { PollsThatReturnRing }
{}

/// Law: the values read for one item of a poll hold the frame that the poll delivers. The
/// definition is that of the words of a section.
// claim: The values that a poll reads for an item spell the frame that it delivers, by the
//    definition by which the words of a section do.
pub fn read_items_are_spelled()
    ensures { ReadItemsAreSpelled }
{}

/// Law: a list of steps is a call exactly if it leads from the call's first place to `Closed`.
// claim with paths_join, places_are_the_same: A list of steps is a call exactly if each step is
//    that of its place, from the call's first place to the end. A cut call is the beginning of one.
pub fn paths_are_calls()
    ensures { PathsAreCalls }
{}

/// Law: a path can be cut at each of its steps, and joined.
pub fn paths_join()
    ensures { PathsJoin }
{}

/// Law: a place by number has the step and the next place of the place that it numbers.
pub fn places_are_the_same()
    ensures { PlacesAreTheSame }
{}

/// Law: every step from the first place of a call on is permitted.
// claim: Each step of a call, whole or cut, accesses a permitted word.
pub fn paths_are_permitted()
    ensures { PathsArePermitted }
{}
