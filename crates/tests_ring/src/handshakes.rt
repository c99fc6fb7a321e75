//! Handshakes, state by state.
use link_handshake::{Handshake, Move, Phase};
use std::process::Abort;

// Takes one tick for each of these states of the other, and compares the states that the end sets.
fn sets_in_turn(rt: &impl Abort, end: &mut Handshake, seen: [u32; 4], want: [Option<u32>; 4]) {
    for (value, want) in seen.into_iter().zip(want) {
        let set = match end.saw(value) {
            Move::Stay => None,
            Move::Set(state) | Move::ClearThenSet(state) => Some(state),
        };
        assert!(rt; set == want, "{value}");
        match set {
            None => {}
            Some(0) => end.enter(Phase::Reset),
            Some(1) => end.enter(Phase::Init),
            Some(2) => end.enter(Phase::Ready),
            Some(_) => end.enter(Phase::Run),
        }
    }
}

// claim link_handshake.Handshake.saw
// claim link_handshake.phases_in_step.skips_none
#[test]
fn handshakes(rt: HostRuntime) {
    let mut end = Handshake::new();
    // the shortest handshake
    sets_in_turn(
        &rt,
        &mut end,
        [0, 1, 2, 3],
        [Some(1), Some(2), Some(3), None],
    );
    assert!(rt; end.phase() == Phase::Run);
    // the other end is reset and begins again
    sets_in_turn(
        &rt,
        &mut end,
        [0, 0, 0, 1],
        [Some(0), Some(1), None, Some(2)],
    );
    sets_in_turn(&rt, &mut end, [1, 0, 3, 0], [None, Some(0), None, Some(1)]);
    // a state of 7 counts as READY or more
    end.reset();
    sets_in_turn(
        &rt,
        &mut end,
        [7, 1, 7, 7],
        [None, Some(1), Some(2), Some(3)],
    );
}

// claim link_handshake.Handshake.refuse
#[test]
fn leaving_the_link(rt: HostRuntime) {
    let mut end = Handshake::new();
    end.enter(Phase::Run);
    end.stop();
    assert!(rt; end.phase() == Phase::Reset && !end.refused());
    sets_in_turn(&rt, &mut end, [0, 0, 0, 0], [Some(1), None, None, None]);
    end.refuse();
    sets_in_turn(&rt, &mut end, [0, 1, 2, 3], [None, None, None, None]);
    end.stop();
    assert!(rt; end.phase() == Phase::Reset && end.refused());
    end.reset();
    assert!(rt; end == Handshake::new());
}
