//! A schedule of two honest peers with a session, simulated in two ways and stopped early. Whole
//! records are worked rows.
use lawful_history::Line;
use scenario_text::parse;
use sim_world::{Listener, Stopped, play, writes_alike};
use std::test::Fail;

/// Two honest peers with a session, in which each clears its section.
const SESSION: &[u8] =
    b"ivshm 1\npeers 2\ntable 4096\ncommon 0\nout 16384\nmtu 256\nirq msix 2\npeer 0 honest\npeer 1 honest\nbegin\ntick 0\nturn 0 2\ntick 1\nturn 1 2\ntick 0\nturn 0 4098\ntick 1\nturn 1 4098\ntick 0\nturn 0 2\ntick 1\nturn 1 2\nend\n";

// claim sim_world.play.received
// claim sim_world.simulate_text.spelled
// claim sim_world.writes_alike
#[test]
fn both_ways_write_alike(rt: HostRuntime) -> Result<(), Fail> {
    let alloc = rt.alloc();
    let scenario = parse(alloc, SESSION)?;
    assert!(rt; writes_alike(alloc, scenario)?);
    Ok(())
}

/// A listener that stops after its first part.
#[derive(Drop)]
struct First {
    lines: usize,
}

impl Listener for First {
    ghost received = { λ _began _now _lines. Unit {0} };

    ghost stopped_after = { λ _began _now _lines. Unit {0} };

    fn take_lines(&mut self, lines: &[Line]) -> Result<(), Stopped> {
        self.lines = lines.len();
        Err(Stopped::HasEnough)
    }
}

// claim sim_world.play.received
#[test]
fn a_listener_stops_the_play(rt: HostRuntime) -> Result<(), Fail> {
    let alloc = rt.alloc();
    let scenario = parse(alloc, SESSION)?;
    let mut first = First { lines: 0 };
    assert!(rt; play(alloc, &scenario, 2, &mut first) == Err(Stopped::HasEnough));
    assert!(rt; first.lines >= 256);
    Ok(())
}
