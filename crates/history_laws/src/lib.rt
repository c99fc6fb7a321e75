//! The laws of every lawful history of a scenario. The crate uses `lawful_history` for the
//! histories and `link_invariant` for the invariant of two ends. It has no code: each law is the
//! contract of a function with an empty body.
//!
//! # Design
//!
//! - The invariant of two ends is a law of steps. Here it is proved along the computed history, and
//!   `one_history` transfers it to every lawful history. The scenario says which peers are honest,
//!   and the rows against a hostile other serve the others.
//! - The laws are about the history without marks of sessions, which is version 1 of a record.
//!   Marks say nothing of words, ends or devices. So a record of version 2 has one law more, on
//!   their numbers, and every other law for the history without them.
//! - Calls are determined by a peer's event records and not by its lines, because the order of
//!   calls is. The bound of a poll depends on the values read. So an open poll is compared with the
//!   bound of each list that it may become, and with one number for the whole queue.
//! - The values that a peer has read are the reads since its last mark or reset. A write or a
//!   doorbell between two reads doesn't change that. So the reads of one item are a list of lines,
//!   without a place of a call in it.
//! - There are two laws on a delivered frame. It has the reads of its item, which a reader of lines
//!   can look up. The values of these reads hold the frame, by the definition for the words of a
//!   section.
//! - That a refused side writes only 0 is a row of the link machine, which is about one write.
//!   `refused_peers_stay_in_reset` says the same of all lines from a refusal to the next reset,
//!   without a side.
#![tactic(auto)]

ghost use Rattle.history_laws.specs.Calls.{CallsEndWithinBounds};
ghost use Rattle.history_laws.specs.Delivered.{DeliveredFramesAreSpelled};
ghost use Rattle.history_laws.specs.Devices.{DeviceActsChangeNothing};
ghost use Rattle.history_laws.specs.Indexes.{IndexesAreReadOnce};
ghost use Rattle.history_laws.specs.Marks.{SessionsAreNumbered};
ghost use Rattle.history_laws.specs.Polls.{DonePollsDeliverAll};
ghost use Rattle.history_laws.specs.Quiet.{ResetsAreQuiet};
ghost use Rattle.history_laws.specs.Reads.{DeliveredFramesAreRead, OutOfRangeIsRefused, RefusedValuesAreRead};
ghost use Rattle.history_laws.specs.Refusals.{HonestPeersNeverRefuse, RefusedPeersStayInReset, RefusesOutOfRange};
ghost use Rattle.history_laws.specs.Rows.{HistoriesRunTheMachine};
ghost use Rattle.history_laws.specs.Sessions.{HistoriesDeliver};
ghost use Rattle.history_laws.specs.Spelled.{HistoriesSpellAccepted};
ghost use Rattle.history_laws.specs.Wake.{WakesAreRung};

use lawful_history::{history_is_lawful, one_history, versions_differ_in_marks};

/// Law: each line of a link peer with a side event has its row: a write of its State, a mark, or
/// its reset.
// claim: Each line of a link peer that matters to the link machine has its row; marks are those of
//    honest link peers.
pub fn histories_run_the_machine()
    ensures { HistoriesRunTheMachine }
{}

/// Law: if both link peers are honest, neither refuses.
// top claim: If both link peers are honest, neither refuses. below:
//    link_invariant.honest_ends_agree, link_invariant.link_invariant_is_kept
pub fn honest_peers_never_refuse()
    ensures { HonestPeersNeverRefuse }
{}

/// Law: an honest peer refuses a value only against a hostile one, and the value is outside the
/// range of its field.
// claim: A refusal is an honest peer's against a hostile one, in RUN, of a value outside its
//    field's range.
pub fn refused_values_are_out_of_range()
    ensures { RefusesOutOfRange }
{}

/// Law: a peer that refused sets no State except 0 until its device is reset.
// claim: A peer that refused sets no State but 0 until its device is reset.
pub fn refused_peers_stay_in_reset()
    ensures { RefusedPeersStayInReset }
{}

/// Law: between a read of the available index and the end of its poll, the number of frames
/// delivered is the number found.
// claim: Between a look and the end of its poll as many frames are delivered as the look found.
pub fn done_polls_deliver_all()
    ensures { DonePollsDeliverAll }
{}

/// Law: between honest peers each has delivered, at each moment, what the other accepted. In each
/// session it is a beginning of the frames accepted in the session carried, each once and in order,
/// through stops and resets.
// top claim: If both link peers are honest, each has delivered at each moment, in each session, a
//    beginning of what the other accepted in the session that it carries, each frame once and in
//    order. below: history_laws.histories_run_the_machine, link_machine.machine_delivers,
//    link_invariant.honest_runs_deliver
pub fn histories_deliver()
    ensures { HistoriesDeliver }
{}

/// Law: in a history of version 2 each mark of a session belongs to an honest link peer that enters
/// RUN. The mark has the session numbers of both link peers. It also exists against a hostile one.
// claim: In a history of version 2, each mark of a session is that of an honest link peer that has
//    entered RUN. Its numbers are how many sessions that peer and the other opened, 0 for a hostile
//    one; between honest peers the second is the session carried.
pub fn sessions_are_numbered()
    ensures { SessionsAreNumbered }
{
    versions_differ_in_marks();
}

/// Law: when a frame is accepted, the section of its peer holds it, for all writes of the other
/// side.
// claim: When a frame is accepted, the section of its peer spells it, whatever the other side
//    writes.
pub fn accepted_frames_are_spelled()
    ensures { HistoriesSpellAccepted }
{}

/// Law: a delivered frame is the frame that was read for its item: each field once, in order and in
/// range.
// top claim: A delivered frame is the bytes of the words that were read for its item, each field
//    once and in range. below: history_laws.delivered_frames_are_spelled,
//    call_grammar.fields_are_read_once, call_grammar.read_items_are_spelled
pub fn delivered_frames_are_read()
    ensures { DeliveredFramesAreRead }
{}

/// Law: the values that a peer reads for an item hold the frame that it delivers, at the position
/// of the item. No word is read twice for it.
// claim: No word is read twice for an item, and the values read spell its frame, at the position of
//    the frames delivered before it in the session.
pub fn delivered_frames_are_spelled()
    ensures { DeliveredFramesAreSpelled }
{}

/// Law: a refused value is in its peer's last read, in the field that the refusal names, and is
/// outside that field's range.
// claim: A refused value stands in what the peer read last, in the field that the refusal names.
pub fn refused_values_are_read()
    ensures { RefusedValuesAreRead }
{}

/// Law: an honest peer refuses each value that it reads outside its field's range immediately, and
/// names the field.
// top claim: Each value that an honest peer reads outside its field's range is refused at once, by
//    the name of the field. below: history_laws.refused_values_are_read,
//    history_laws.refused_values_are_out_of_range, split_ring.Queue.check_avail.inside
pub fn values_out_of_range_are_refused()
    ensures { OutOfRangeIsRefused }
{}

/// Law: each mark of a read of the available index, each reclaim and each refusal of an index has
/// its own read of that index.
// claim: Each look, reclaim and refusal of an index has one read of that index of its own: the line
//    right before it. The peer has read nothing else since the mark or the reset before that.
pub fn indexes_are_read_once()
    ensures { IndexesAreReadOnce }
{}

/// Law: in a link with events, a finished poll that found no frame leaves its peer's avail_event at
/// the next frame's number. An honest peer rings if the other's avail_event is the number of the
/// frame that it accepts. So of two honest peers, one that found no frame is rung at the next one.
// claim: In a link with events, a poll that found nothing leaves its peer's event at the next
//    frame. If the event stands at the frame that the honest partner accepts, and is not written or
//    cleared until that offer ends, the offer rings.
pub fn wakes_are_rung()
    ensures { WakesAreRung }
{}

/// Law: an honest peer in RESET writes no word of its section.
// claim: An honest peer in RESET writes nothing to its section.
pub fn resets_are_quiet()
    ensures { ResetsAreQuiet }
{}

/// Law: the steps of an honest link peer since its last reset are finished calls in order, and then
/// the beginning of a call. Each finished call is within its bound. That one also ends within its
/// bound if its peer gets the turns.
// claim: At each moment, the steps that an honest link peer took in its turns since its last reset
//    are those of finished calls, each begun in its turn and within its bound, then the first steps
//    of one that is open.
pub fn calls_end_within_bounds()
    ensures { CallsEndWithinBounds }
{}

/// Law: if two schedules differ only in device accesses and in interrupts dropped or repeated, the
/// histories differ only in lines of devices.
// claim: If two schedules of one world differ in events of devices alone, their lawful histories
//    differ in lines of devices alone: every other line is the same, in the same order.
pub fn device_acts_change_nothing()
    ensures { DeviceActsChangeNothing }
{
    one_history();
    history_is_lawful();
}
