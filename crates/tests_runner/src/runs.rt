//! Runs of small scenarios. The large ones, with gates that show that threads run at the same time,
//! are tests of the top call.
use lawful_history::Line;
use peer_runner::{Gate, OpenGate, laws, run_peers, words_for};
use record_text::{OwnTrace, RunTrace};
use scenario_text::{not_running, parse};
use std::alloc::{AllocError, Global};
use std::process::Abort;
use std::test::Fail;
use std::thread::Threads;
use tests_gates::{After, Lockstep, Relay};

/// The property of a line for which the tests look.
#[derive(Clone, Copy, PartialEq, Eq)]
enum Kind {
    Accept,
    Deliver,
    /// An interrupt with this vector at this peer.
    Interrupt(u32, u32),
    /// A doorbell at this peer.
    Bell(u32),
    /// A write by this peer of this word with this value.
    Write(u32, u32, u32),
    /// A write of this State by this peer.
    State(u32, u32),
    /// A look that found nothing.
    EmptyLook,
    /// The end of a poll.
    Done,
    /// The end of a call of this peer.
    Over(u32),
    /// Any other line.
    Other,
}

/// Returns the kind of the line.
fn kind_of(line: &Line) -> Kind {
    match line {
        Line::Accept { .. } => Kind::Accept,
        Line::Deliver { .. } => Kind::Deliver,
        Line::Interrupt { peer, vector } => Kind::Interrupt(*peer, *vector),
        Line::Doorbell { target, .. } => Kind::Bell(*target),
        Line::Write { peer, word, value } => Kind::Write(*peer, *word, *value),
        Line::State { peer, value } => Kind::State(*peer, *value),
        Line::Look { count: 0, .. } => Kind::EmptyLook,
        Line::Done { .. } => Kind::Done,
        Line::Over { peer } => Kind::Over(*peer),
        _ => Kind::Other,
    }
}

/// Whether the line is an interrupt.
fn is_interrupt(line: &Line) -> bool {
    matches!(line, Line::Interrupt { .. })
}

/// Returns the number of lines of this kind.
fn count(lines: &[Line], wanted: Kind) -> usize {
    lines.iter().filter(|line| kind_of(line) == wanted).count()
}

/// Returns the number of interrupt lines.
fn interrupts(lines: &[Line]) -> usize {
    lines.iter().filter(|line| is_interrupt(line)).count()
}

/// Returns the number of lines before the first interrupt.
fn before_interrupt(lines: &[Line]) -> usize {
    lines.iter().take_while(|line| !is_interrupt(line)).count()
}

/// Whether the line at this place is of this kind.
fn is_at(lines: &[Line], place: usize, wanted: Kind) -> bool {
    lines.get(place).is_some_and(|line| kind_of(line) == wanted)
}

/// The property of a peer's part of a trace.
#[derive(Clone, Copy)]
enum Sight {
    /// The number of the peer.
    Peer(u32),
    /// The number of its turns.
    Turns(u64),
    /// It took fewer turns.
    FewerTurns(u64),
    /// Whether it finished.
    Finished(bool),
    /// The number of its lines.
    Lines(usize),
    /// It has more lines.
    MoreLines(usize),
    /// The numbers of frames accepted and delivered.
    Frames(usize, usize),
    /// The number of interrupts.
    Interrupts(usize),
    /// The number of lines of this kind.
    Count(Kind, usize),
    /// The kind of the line at this place.
    At(usize, Kind),
    /// The kind of the line at this distance before the first interrupt.
    Before(usize, Kind),
    /// The least number of lines before the first interrupt.
    FirstInterrupt(usize),
    /// The kind of its last line.
    Last(Kind),
    /// One interrupt of vector 1 comes before each frame that is delivered.
    InterruptBeforeEachFrame,
    /// Two writes of the word that has the place of frames, each of this value or of 0.
    Starts(u32),
}

/// Whether one interrupt of vector 1 comes before each frame that is delivered.
fn is_in_turn(lines: &[Line]) -> bool {
    let mut waits = false;
    for line in lines {
        match line {
            Line::Interrupt { vector, .. } => {
                if waits || *vector != 1 {
                    return false;
                }
                waits = true;
            }
            Line::Deliver { .. } => {
                if !waits {
                    return false;
                }
                waits = false;
            }
            _ => {}
        }
    }
    true
}

/// The word of the first descriptor that has the place of a frame.
const PLACE: u32 = 1_028;

/// Whether there are two writes of `PLACE`, each of this value or of 0.
fn has_starts(lines: &[Line], second: u32) -> bool {
    let mut starts = 0usize;
    for line in lines {
        if let Line::Write { word, value, .. } = line {
            if *word == PLACE && *value != second && *value != 0 {
                return false;
            }
            if *word == PLACE {
                starts = starts.saturating_add(1);
            }
        }
    }
    starts == 2
}

/// Whether the line at this distance before the first interrupt is of this kind.
fn is_before(lines: &[Line], distance: usize, wanted: Kind) -> bool {
    let at = before_interrupt(lines);
    at >= distance && at < lines.len() && is_at(lines, at - distance, wanted)
}

/// Whether the lines show this.
fn lines_show(lines: &[Line], sight: Sight) -> bool {
    match sight {
        Sight::Lines(number) => lines.len() == number,
        Sight::MoreLines(number) => lines.len() > number,
        Sight::Interrupts(number) => interrupts(lines) == number,
        Sight::Count(wanted, number) => count(lines, wanted) == number,
        Sight::Frames(accepted, delivered) => {
            count(lines, Kind::Accept) == accepted && count(lines, Kind::Deliver) == delivered
        }
        Sight::At(place, wanted) => is_at(lines, place, wanted),
        Sight::Before(distance, wanted) => is_before(lines, distance, wanted),
        Sight::FirstInterrupt(least) => before_interrupt(lines) >= least,
        Sight::Last(wanted) => lines.last().is_some_and(|line| kind_of(line) == wanted),
        Sight::InterruptBeforeEachFrame => is_in_turn(lines),
        Sight::Starts(second) => has_starts(lines, second),
        _ => false,
    }
}

/// Whether a peer's part shows this.
#[must_use]
fn shows(part: &OwnTrace, sight: Sight) -> bool {
    match sight {
        Sight::Peer(peer) => part.peer == peer,
        Sight::Turns(turns) => part.turns == turns,
        Sight::FewerTurns(turns) => part.turns < turns,
        Sight::Finished(finished) => part.finished == finished,
        _ => lines_show(part.lines.items(), sight),
    }
}

/// Whether the place is that of a part that shows this.
#[must_use]
fn part_shows(parts: &[OwnTrace], place: usize, sight: Sight) -> bool {
    parts.get(place).is_some_and(|part| shows(part, sight))
}

/// Checks the number of the parts, and what each of them shows.
fn check(rt: &impl Abort, parts: &[OwnTrace], number: usize, sights: &[(usize, Sight)]) {
    assert!(rt; parts.len() == number);
    for at in 0..sights.len() {
        let (place, sight) = sights[at];
        assert!(rt; part_shows(parts, place, sight), "sight {at}");
    }
}

/// Whether the gate counted the turns of both peers, and one end of each.
fn has_counted(gate: &Lockstep, parts: &[OwnTrace]) -> bool {
    parts.iter().all(|part| gate.passed(part.peer) == part.turns
        && gate.times_ended(part.peer) == 1)
}

/// Runs a scenario in running form. Returns its trace.
pub(crate) fn run<R: Threads + Sync, G: Gate + Sync>(
    rt: &R,
    alloc: Global,
    text: &[u8],
    gate: &G,
) -> Result<Option<RunTrace>, Fail> {
    let scenario = parse(alloc, text)?;
    if not_running(&scenario).is_some() {
        return Ok(None);
    }
    let (words, mut pass) = words_for(alloc, &scenario)?;
    let trace = run_peers(rt, alloc, &words, &mut pass, scenario, gate)?;
    Ok(Some(trace))
}

/// Runs a scenario, and checks the number of its parts and what each of them shows.
fn check_run<R: Threads + Sync + Abort, G: Gate + Sync>(
    rt: &R,
    alloc: Global,
    text: &[u8],
    gate: &G,
    number: usize,
    sights: &[(usize, Sight)],
) -> Result<(), Fail> {
    let Some(trace) = run(rt, alloc, text, gate)? else {
        panic!(rt; "the scenario can be run");
    };
    check(rt, trace.peers.items(), number, sights);
    Ok(())
}

/// Two honest peers: two frames one way, and one the other way.
const TWO_WAYS: &[u8] =
    b"ivshm 1\npeers 2\ntable 4096\ncommon 0\nout 16384\nmtu 256\nirq msix 2\npeer 0 honest\npeer 1 honest\nbegin\nauto 0 1\nauto 1 2\noffer 0 ffffffffffff0200000000010800\noffer 0 ffffffffffff0200000000010801\noffer 1 ffffffffffff0200000000020800\nturn 0 100000\nturn 1 100000\nend\n";

/// The parts of two peers that deliver these frames.
const TWO_WAYS_SIGHTS: [(usize, Sight); 8] = [
    (0, Sight::Peer(0)),
    (1, Sight::Peer(1)),
    (0, Sight::Finished(true)),
    (0, Sight::FewerTurns(100_000)),
    (0, Sight::Frames(2, 1)),
    (1, Sight::Finished(true)),
    (1, Sight::FewerTurns(100_000)),
    (1, Sight::Frames(1, 2)),
];

/// Runs a scenario of these frames under a gate that keeps both peers near. Checks what the parts
/// show, these sights too, and that no call was held too long and each was counted.
fn check_two_ways<R: Threads + Sync + Abort>(
    rt: &R,
    alloc: Global,
    text: &[u8],
    sights: &[(usize, Sight)],
) -> Result<(), Fail> {
    let gate = Lockstep::new(4);
    let Some(trace) = run(rt, alloc, text, &gate)? else {
        panic!(rt; "the scenario can be run");
    };
    let parts = trace.peers.items();
    check(rt, parts, 2, &TWO_WAYS_SIGHTS);
    check(rt, parts, 2, sights);
    assert!(rt; gate.was_kept() && has_counted(&gate, parts));
    Ok(())
}

#[test]
fn two_threads_deliver(rt: HostRuntime) -> Result<(), Fail> {
    check_two_ways(&rt, rt.alloc(), TWO_WAYS, &[])
}

/// A storm of seed 7 next to an end.
const STORM: &[u8] =
    b"ivshm 1\npeers 2\ntable 4096\ncommon 0\nout 16384\nmtu 256\nirq msix 2\npeer 0 honest\npeer 1 hostile\nbegin\nauto 0 1\nstorm 1 7\nturn 0 200\nturn 1 200\nend\n";

/// The first draws of seed 7, computed by hand from the generator's formula. They are a write to a
/// word of the section, State 7, another write to the section, and one to its rings.
#[test]
fn a_storm_runs_beside_an_end(rt: HostRuntime) -> Result<(), Fail> {
    let sights = [
        (1, Sight::Peer(1)),
        (1, Sight::Turns(200)),
        (1, Sight::Finished(false)),
        (1, Sight::Lines(200)),
        (1, Sight::At(0, Kind::Write(1, 7_807, 3_893_713_506))),
        (1, Sight::At(1, Kind::State(1, 7))),
        (1, Sight::At(2, Kind::Write(1, 5_160, 4_214_743_478))),
        (1, Sight::At(3, Kind::Write(1, 5_511, 2_401_506_150))),
    ];
    check_run(&rt, rt.alloc(), STORM, &OpenGate, 2, &sights)
}

/// One of two honest peers has turns.
const ALONE: &[u8] =
    b"ivshm 1\npeers 2\ntable 4096\ncommon 0\nout 16384\nmtu 256\nirq msix 2\npeer 0 honest\npeer 1 honest\nbegin\nauto 0 1\nturn 0 5\nend\n";

/// The other's state stays 0: the first Tick sets INIT, and each later one is quiet.
#[test]
fn one_peer_runs_alone(rt: HostRuntime) -> Result<(), Fail> {
    let sights = [
        (0, Sight::Turns(5)),
        (0, Sight::Finished(false)),
        (0, Sight::Lines(4)),
    ];
    check_run(&rt, rt.alloc(), ALONE, &OpenGate, 1, &sights)
}

/// A storm of seed 49, and a peer that takes interrupts of vector 1.
const ONE_BELL: &[u8] =
    b"ivshm 1\npeers 3\ntable 4096\ncommon 0\nout 16384\nmtu 256\nirq msix 2\npeer 0 honest\npeer 1 honest\npeer 2 hostile\nbegin\ncfg 0 w 4 2 6\ncfg 0 w 98 2 32768\nmsix 0 w 28 0\nmmio 0 w 8 1\nauto 0 1\nstorm 2 49\nturn 0 9\nturn 2 6\nend\n";

/// The sixth draw of seed 49 is a doorbell at peer 0 with vector 1, its first.
// claim peer_runner.drive
#[test]
fn an_interrupt_comes(rt: HostRuntime) -> Result<(), Fail> {
    let sights = [
        (0, Sight::Turns(9)),
        (0, Sight::Interrupts(1)),
        (0, Sight::MoreLines(1)),
        (0, Sight::At(0, Kind::Interrupt(0, 1))),
        (1, Sight::Turns(6)),
        (1, Sight::Count(Kind::Bell(0), 1)),
    ];
    check_run(&rt, rt.alloc(), ONE_BELL, &After::new(2), 2, &sights)
}

/// A storm of seed 44, and a peer that takes interrupts of both vectors.
const TWO_BELLS: &[u8] =
    b"ivshm 1\npeers 3\ntable 4096\ncommon 0\nout 16384\nmtu 256\nirq msix 2\npeer 0 honest\npeer 1 honest\npeer 2 hostile\nbegin\ncfg 0 w 4 2 6\ncfg 0 w 98 2 32768\nmsix 0 w 12 0\nmsix 0 w 28 0\nmmio 0 w 8 1\nauto 0 1\nstorm 2 44\nturn 0 9\nturn 2 8\nend\n";

/// The third draw of seed 44 is a doorbell at peer 0 with vector 1, and the fifth draw is one with
/// vector 0. One look finds both.
// claim peer_runner.drive
#[test]
fn one_look_finds_two_interrupts(rt: HostRuntime) -> Result<(), Fail> {
    let sights = [
        (0, Sight::Interrupts(2)),
        (0, Sight::MoreLines(2)),
        (0, Sight::At(0, Kind::Interrupt(0, 0))),
        (0, Sight::At(1, Kind::Interrupt(0, 1))),
    ];
    check_run(&rt, rt.alloc(), TWO_BELLS, &After::new(2), 2, &sights)
}

/// A storm of seed 44, and a peer in one-shot mode.
const ONE_SHOT: &[u8] =
    b"ivshm 1\npeers 3\ntable 4096\ncommon 0\nout 16384\nmtu 256\nirq intx\npeer 0 honest\npeer 1 honest\npeer 2 hostile\nbegin\ncfg 0 w 67 1 1\nmmio 0 w 8 1\nauto 0 1\nstorm 2 44\nturn 0 9\nturn 2 9\nend\n";

/// The same two doorbells at a peer in one-shot mode: the first one takes two turns, and the second
/// takes one.
// claim peer_runner.drive
#[test]
fn a_one_shot_peer_is_interrupted_once(rt: HostRuntime) -> Result<(), Fail> {
    let sights = [
        (0, Sight::Interrupts(1)),
        (0, Sight::MoreLines(1)),
        (0, Sight::At(0, Kind::Interrupt(0, 0))),
        (1, Sight::Turns(9)),
        (1, Sight::Lines(8)),
        (1, Sight::Count(Kind::Bell(0), 2)),
    ];
    check_run(&rt, rt.alloc(), ONE_SHOT, &After::new(2), 2, &sights)
}

/// Two honest peers, of which peer 1 gets interrupts of the frames' vector alone.
const DOORBELLS: &[u8] =
    b"ivshm 1\npeers 2\ntable 4096\ncommon 0\nout 16384\nmtu 256\nirq msix 2\npeer 0 honest\npeer 1 honest\nbegin\ncfg 1 w 4 2 6\ncfg 1 w 98 2 32768\nmsix 1 w 28 0\nmmio 1 w 8 1\nauto 0 0\nauto 1 2\noffer 0 ffffffffffff0200000000010800\noffer 0 ffffffffffff0200000000010801\nturn 0 10000\nturn 1 10000\nend\n";

/// Two honest peers of the link. Peer 1 gets interrupts of the frames' vector alone. Peer 0 rings
/// for its first frame before peer 1 runs, and for its second one after the first was delivered.
/// One interrupt comes for each, before its frame.
#[test]
fn each_doorbell_between_honest_peers_is_delivered(rt: HostRuntime) -> Result<(), Fail> {
    let sights = [
        (0, Sight::Turns(9129)),
        (0, Sight::Finished(true)),
        (1, Sight::Finished(true)),
        (1, Sight::Interrupts(2)),
        (1, Sight::Frames(0, 2)),
        (1, Sight::InterruptBeforeEachFrame),
    ];
    let gate = Relay::new([[5000, 4112], [9115, 4152], [9129, 4252]]);
    check_run(&rt, rt.alloc(), DOORBELLS, &gate, 2, &sights)?;
    assert!(rt; gate.was_kept());
    Ok(())
}

/// A storm of seed 44, and a peer with interrupts off.
const NO_INTERRUPTS: &[u8] =
    b"ivshm 1\npeers 3\ntable 4096\ncommon 0\nout 16384\nmtu 256\nirq intx\npeer 0 honest\npeer 1 honest\npeer 2 hostile\nbegin\nauto 0 1\nstorm 2 44\nturn 0 9\nturn 2 8\nend\n";

/// A peer with Interrupt Control 0 gets no interrupt. A doorbell to that peer still takes a turn
/// and adds a line.
// claim peer_runner.drive
#[test]
fn nothing_comes_where_interrupts_are_off(rt: HostRuntime) -> Result<(), Fail> {
    let sights = [
        (0, Sight::Interrupts(0)),
        (1, Sight::Turns(8)),
        (1, Sight::Lines(8)),
        (1, Sight::Count(Kind::Bell(0), 2)),
    ];
    check_run(&rt, rt.alloc(), NO_INTERRUPTS, &After::new(2), 2, &sights)
}

/// Two peers of the link and six storms.
const EIGHT: &[u8] =
    b"ivshm 1\npeers 8\ntable 4096\ncommon 0\nout 16384\nmtu 256\nirq msix 2\npeer 0 honest\npeer 1 honest\npeer 2 hostile\npeer 3 hostile\npeer 4 hostile\npeer 5 hostile\npeer 6 hostile\npeer 7 hostile\nbegin\nauto 0 1\nauto 1 1\noffer 0 ffffffffffff0200000000010800\noffer 1 ffffffffffff0200000000020800\nstorm 2 9\nstorm 3 9\nstorm 4 9\nstorm 5 9\nstorm 6 9\nstorm 7 9\nturn 0 100000\nturn 1 100000\nturn 2 1000\nturn 3 1000\nturn 4 1000\nturn 5 1000\nturn 6 1000\nturn 7 1000\nend\n";

/// Two peers of the link and six storms.
#[test]
fn eight_peers_run(rt: HostRuntime) -> Result<(), Fail> {
    let sights = [
        (0, Sight::Finished(true)),
        (0, Sight::Frames(1, 1)),
        (1, Sight::Finished(true)),
        (1, Sight::Frames(1, 1)),
        (2, Sight::Turns(1_000)),
        (2, Sight::Finished(false)),
        (3, Sight::Turns(1_000)),
        (3, Sight::Finished(false)),
        (4, Sight::Turns(1_000)),
        (4, Sight::Finished(false)),
        (5, Sight::Turns(1_000)),
        (5, Sight::Finished(false)),
        (6, Sight::Turns(1_000)),
        (6, Sight::Finished(false)),
        (7, Sight::Turns(1_000)),
        (7, Sight::Finished(false)),
    ];
    check_run(&rt, rt.alloc(), EIGHT, &Lockstep::new(4), 8, &sights)
}

/// Two honest peers with events, of which peer 1 takes interrupts.
const SLEEPING: &[u8] =
    b"ivshm 2\npeers 2\ntable 4096\ncommon 0\nout 16384\nmtu 256\nirq msix 2\npeer 0 honest\npeer 1 honest\nbegin\ncfg 1 w 4 2 6\ncfg 1 w 98 2 32768\nmsix 1 w 28 0\nmmio 1 w 8 1\nauto 0 0\nauto 1 1\noffer 0 ffffffffffff0200000000010800\nturn 0 10000\nturn 1 10000\nend\n";

/// The doorbell of the next frame is wanted, and rung. Peer 1 sets its event index and sleeps: ten
/// looks find nothing, and the eleventh finds the bit, before its next choice. It sleeps again
/// before the poll that delivers the frame. That time no bit comes, and it polls after 64 looks.
// claim link_endpoint.Endpoint.is_armed
// claim peer_runner.drive
#[test]
fn a_sleeping_peer_is_woken(rt: HostRuntime) -> Result<(), Fail> {
    let sights = [
        (0, Sight::Turns(9115)),
        (0, Sight::Finished(true)),
        (1, Sight::Turns(4210)),
        (1, Sight::Finished(true)),
        (0, Sight::Frames(1, 0)),
        (0, Sight::Last(Kind::Over(0))),
        (1, Sight::Frames(0, 1)),
        (1, Sight::Interrupts(1)),
        (1, Sight::FirstInterrupt(6)),
        (1, Sight::Before(5, Kind::EmptyLook)),
        (1, Sight::Before(4, Kind::Write(1, 5_553, 0))),
        (1, Sight::Before(2, Kind::EmptyLook)),
        (1, Sight::Before(1, Kind::Done)),
    ];
    let gate = Relay::new([[5000, 4112], [9102, 4129], [9115, 4302]]);
    check_run(&rt, rt.alloc(), SLEEPING, &gate, 2, &sights)?;
    assert!(rt; gate.was_kept());
    Ok(())
}

/// Returns a scenario of a sleeping peer and `burst` frames for it.
fn burst_text(alloc: Global, burst: usize) -> Result<String, AllocError> {
    let mut text = format!(in alloc;
        "ivshm 3\npeers 2\ntable 4096\ncommon 0\nout 16384\nmtu 256\nirq msix 2\npeer 0 honest\npeer 1 honest\nbegin\ncfg 1 w 4 2 6\ncfg 1 w 98 2 32768\nmsix 1 w 28 0\nmmio 1 w 8 1\nauto 0 0\nauto 1 {burst}\n"
    )?;
    for _ in 0..burst {
        text.push_str("offer 0 ffffffffffff0200000000010800\n")?;
    }
    text.push_str("turn 0 100000\nturn 1 100000\nend\n")?;
    Ok(text)
}

/// Checks twenty runs of a scenario of `burst` frames for a sleeping peer.
fn check_bursts<R: Threads + Sync + Abort>(
    rt: &R,
    alloc: Global,
    text: &[u8],
    burst: usize,
) -> Result<(), Fail> {
    let sights = [
        (0, Sight::Finished(true)),
        (1, Sight::Finished(true)),
        (0, Sight::Frames(burst, 0)),
        (1, Sight::Frames(0, burst)),
        (1, Sight::Before(1, Kind::Done)),
    ];
    for _ in 0..20 {
        let gate = Relay::new([[5000, 4112], [9102, 4129], [9115, 4129]]);
        check_run(rt, alloc, text, &gate, 2, &sights)?;
        assert!(rt; gate.was_kept());
    }
    Ok(())
}

/// Bursts of frames for a sleeping peer, twenty times in a row. The first frame is rung before the
/// peer looks again, and all frames are delivered within the turns.
// claim peer_runner.drive
#[test]
fn bursts_wake_a_sleeping_peer(rt: HostRuntime) -> Result<(), Fail> {
    let alloc = rt.alloc();
    for burst in [1usize, 8, 32] {
        let text = burst_text(alloc, burst)?;
        check_bursts(&rt, alloc, text.as_bytes(), burst)?;
    }
    Ok(())
}

/// Returns a scenario of two peers with events, of which peer 1 takes interrupts.
fn events_text(alloc: Global, version: u32) -> Result<String, AllocError> {
    format!(in alloc;
        "ivshm {version}\npeers 2\ntable 4096\ncommon 0\nout 16384\nmtu 256\nirq msix 2\npeer 0 honest\npeer 1 honest\nbegin\ncfg 1 w 4 2 6\ncfg 1 w 98 2 32768\nmsix 1 w 28 0\nmmio 1 w 8 1\nauto 0 1\nauto 1 2\noffer 0 ffffffffffff0200000000010800\noffer 0 ffffffffffff0200000000010801\noffer 1 ffffffffffff0200000000020800\nturn 0 100000\nturn 1 100000\nend\n"
    )
}

/// Peers of a link with events. One of them has its interrupts enabled. Frames are in slots, and
/// then in a byte ring, where the second frame starts 64 bytes after the first.
#[test]
fn two_threads_deliver_by_events(rt: HostRuntime) -> Result<(), Fail> {
    let alloc = rt.alloc();
    for (version, second) in [(2, 2_112), (3, 1_856)] {
        let text = events_text(alloc, version)?;
        let sights = [(0, Sight::Starts(second))];
        check_two_ways(&rt, alloc, text.as_bytes(), &sights)?;
    }
    Ok(())
}

/// Each law may be called: none has a condition for its caller.
// claim peer_runner.words_are_made
// claim peer_runner.all_words_are_made
// claim peer_runner.interrupts_are_rung
// claim peer_runner.doorbells_stay_set
// claim peer_runner.accesses_are_calls
// claim peer_runner.words_are_written
// claim peer_runner.words_follow_phases
// claim peer_runner.flight_is_spelled
// claim peer_runner.offers_store_apart
// claim peer_runner.read_values_are_in_range
// claim peer_runner.honest_peers_never_refuse
// claim peer_runner.other_opens_no_session
// claim peer_runner.session_words_are_numbers
// claim peer_runner.sessions_are_paired
// claim peer_runner.pair_invariant_holds
// claim peer_runner.read_values_are_as_sent
// claim peer_runner.hostile_words_are_free
#[test]
fn laws_of_the_rule() {
    laws::words_are_made();
    laws::all_words_are_made();
    laws::stores_are_owned();
    laws::interrupts_are_rung();
    laws::doorbells_stay_set();
    laws::accesses_are_calls();
    laws::words_are_written();
    laws::words_follow_phases();
    laws::flight_is_spelled();
    laws::offers_store_apart();
    laws::read_values_are_in_range();
    laws::honest_peers_never_refuse();
    laws::other_opens_no_session();
    laws::session_words_are_numbers();
    laws::hostile_sessions_are_none();
    laws::sessions_are_paired();
    laws::pair_invariant_holds();
    laws::asked_doorbells_are_rung();
    laws::read_values_are_as_sent();
    laws::hostile_words_are_free();
}
