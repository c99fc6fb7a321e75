//! Each law of the top call may be called: it has no condition for its caller.
use ivshm_cli::{records_keep_the_laws, written_records_replay_as_same};

// claim record_text.print.text
// claim ivshm_cli.records_keep_the_laws
#[test]
fn laws_of_records() {
    records_keep_the_laws();
    written_records_replay_as_same();
}
