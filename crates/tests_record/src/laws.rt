//! Each law may be called: none has a condition for its caller.
use frame_bridge::{bytes_after_end_are_bad_line, cut_is_no_end, fault_is_first, spelled_is_read};
use history_laws::{
    accepted_frames_are_spelled, calls_end_within_bounds, delivered_frames_are_read,
    delivered_frames_are_spelled, device_acts_change_nothing, done_polls_deliver_all,
    histories_deliver, histories_run_the_machine, honest_peers_never_refuse, indexes_are_read_once,
    refused_peers_stay_in_reset, refused_values_are_out_of_range, refused_values_are_read,
    resets_are_quiet, sessions_are_numbered, values_out_of_range_are_refused, wakes_are_rung,
};
use record_sizes::records_are_short;

// claim call_grammar.fields_are_read_once
// claim history_laws.refused_values_are_read
// claim history_laws.histories_deliver
// claim history_laws.honest_peers_never_refuse
// claim history_laws.histories_run_the_machine
// claim history_laws.done_polls_deliver_all
// claim history_laws.refused_values_are_out_of_range
// claim history_laws.refused_peers_stay_in_reset
// claim history_laws.values_out_of_range_are_refused
// claim history_laws.accepted_frames_are_spelled
// claim history_laws.delivered_frames_are_read
// claim history_laws.delivered_frames_are_spelled
// claim history_laws.indexes_are_read_once
// claim history_laws.resets_are_quiet
// claim history_laws.calls_end_within_bounds
// claim history_laws.sessions_are_numbered
// claim history_laws.device_acts_change_nothing
// claim history_laws.wakes_are_rung
#[test]
fn laws_of_histories() {
    histories_run_the_machine();
    honest_peers_never_refuse();
    refused_values_are_out_of_range();
    refused_peers_stay_in_reset();
    done_polls_deliver_all();
    histories_deliver();
    accepted_frames_are_spelled();
    delivered_frames_are_read();
    delivered_frames_are_spelled();
    refused_values_are_read();
    values_out_of_range_are_refused();
    indexes_are_read_once();
    resets_are_quiet();
    sessions_are_numbered();
    calls_end_within_bounds();
    device_acts_change_nothing();
    wakes_are_rung();
}

#[test]
fn laws_of_runs_of_a_bridge() {
    spelled_is_read();
    cut_is_no_end();
    bytes_after_end_are_bad_line();
    fault_is_first();
}

// claim record_sizes.records_are_short.bound
// claim record_sizes.records_are_short.limit
#[test]
fn law_of_sizes() {
    records_are_short();
}
