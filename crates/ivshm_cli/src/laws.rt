//! The headline in full, in one place: the laws of every lawful history as laws of each record that
//! `sim` writes.
ghost use Rattle.ivshm_cli.specs.Whole.{RecordsKeepTheLaws, WrittenRecordsReplayAsSame};

use history_laws::{
    accepted_frames_are_spelled, calls_end_within_bounds, delivered_frames_are_read,
    done_polls_deliver_all, histories_deliver, histories_run_the_machine,
    honest_peers_never_refuse, indexes_are_read_once, refused_peers_stay_in_reset,
    refused_values_are_out_of_range, refused_values_are_read, resets_are_quiet,
    sessions_are_numbered, values_out_of_range_are_refused, wakes_are_rung,
};
use lawful_history::{memory_is_kept, versions_differ_in_marks};
use record_sizes::records_are_short;

/// Law: the history of each record that `sim` writes keeps the laws, and its session marks number
/// its sessions.
///
/// The laws say where each peer writes and what each read returns. Each foreign field and each
/// index is read once, and is in range or refuses the link. Each call ends within its bound. A poll
/// delivers what it found. A waiting peer is rung. An end in RESET writes nothing. Two honest ends
/// agree.
// claim: Without its marks of sessions, the history of each record that `sim` writes keeps every
//    law of lawful histories.
pub fn records_keep_the_laws()
    ensures { RecordsKeepTheLaws }
{
    memory_is_kept();
    histories_run_the_machine();
    calls_end_within_bounds();
    delivered_frames_are_read();
    accepted_frames_are_spelled();
    indexes_are_read_once();
    done_polls_deliver_all();
    resets_are_quiet();
    wakes_are_rung();
    values_out_of_range_are_refused();
    refused_values_are_out_of_range();
    refused_values_are_read();
    refused_peers_stay_in_reset();
    honest_peers_never_refuse();
    histories_deliver();
    versions_differ_in_marks();
    sessions_are_numbered();
}

/// Law: `replay` answers each record that `sim` writes with `same`, if neither the source nor the
/// sink fails and no allocation fails. The record is within the limit of `replay`. It is read as
/// the record that was written, and its history is the lawful one.
// top claim: For each record that `sim` writes, `replay` owes the line `same` alone: the record is
//    within the limit, is read as itself, and its history is the lawful one. below:
//    record_sizes.records_are_short.limit, record_text.print.text
pub fn written_records_replay_as_same()
    ensures { WrittenRecordsReplayAsSame }
{
    records_are_short();
}
