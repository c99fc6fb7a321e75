//! Running peers through the top call, under gates that hold them next to each other. The record
//! written is what is compared.
use crate::counter::Counter;
use crate::heads::{HONEST, HOSTILE, IN_BYTES, WITH_EVENTS};
use ivs_base::{MemorySink, MemorySource};
use ivshm_cli::{Status, ivshm};
use peer_runner::{Gate, OpenGate};
use std::alloc::{AllocError, Global};
use std::process::Abort;
use std::test::Fail;
use std::thread::Threads;
use tests_gates::{Lockstep, Meeting, MeetingLockstep};

/// The frame of the worked examples.
const FRAME: &str = "ffffffffffff0200000000010800";

/// Whether the line is one of a session or a reset, or says that a peer is spent.
fn is_of_session(line: &[u8]) -> bool {
    line.starts_with(b"session ") || line.starts_with(b"x ") || line == b"spent".as_slice()
}

/// The result of a run: its status, its text, and whether it left the words and pass of its peers.
#[derive(Drop)]
struct RunResult {
    status: Status,
    text: Vec<u8>,
    has_ran: bool,
}

impl RunResult {
    /// Returns the number of lines that begin with `start`.
    fn count(&self, start: &[u8]) -> usize {
        self.text
            .split(|byte| *byte == b'\n')
            .filter(|line| line.starts_with(start))
            .count()
    }

    /// Whether the number of lines that begin with this start is this one.
    fn counts(&self, (start, number): (&str, usize)) -> bool {
        self.count(start.as_bytes()) == number
    }

    /// Returns the lines of sessions, of resets and of peers that are spent, in their order.
    fn sessions(&self, alloc: Global) -> Result<Vec<u8>, AllocError> {
        let mut found = Vec::new(alloc);
        for line in self.text.split(|byte| *byte == b'\n') {
            if is_of_session(line) {
                found.extend_from_slice(line)?;
                found.push(b'\n')?;
            }
        }
        Ok(found)
    }

    /// Returns the number of lines that equal `is`.
    fn lines(&self, is: &[u8]) -> usize {
        self.text
            .split(|byte| *byte == b'\n')
            .filter(|line| *line == is)
            .count()
    }
}

/// Runs the word `run` on the input, under this gate.
fn run<R: Threads + Sync, G: Gate + Sync>(
    rt: &R,
    alloc: Global,
    scenario: &str,
    gate: &G,
) -> Result<RunResult, Fail> {
    let mut words = Vec::new(alloc);
    words.push(String::from_str(alloc, "run")?)?;
    let mut source = MemorySource::new(alloc, scenario.as_bytes(), 4096, &[])?;
    let mut sink = MemorySink::new(alloc, 1 << 24, 4096, &[])?;
    let mut ran = None;
    let status = ivshm(
        rt,
        alloc,
        words.as_slice(),
        &mut source,
        &mut sink,
        gate,
        &mut ran,
    );
    let text = sink.bytes().to_vec(alloc)?;
    let has_ran = ran.is_some();
    Ok(RunResult {
        status,
        text,
        has_ran,
    })
}

/// Returns a scenario of two honest automatic peers, with this head and these acts. Each offers its
/// number of frames, expects the other's number, and takes at most its number of turns.
fn automatic(
    alloc: Global,
    head: &str,
    frames: [u32; 2],
    turns: u32,
) -> Result<String, AllocError> {
    let [first, second] = frames;
    let mut text = format!(in alloc; "{head}auto 0 {second}\nauto 1 {first}\n")?;
    for _ in 0..first {
        write!(text, "offer 0 {FRAME}\n")?;
    }
    for _ in 0..second {
        write!(text, "offer 1 {FRAME}\n")?;
    }
    write!(text, "turn 0 {turns}\nturn 1 {turns}\nend\n")?;
    Ok(text)
}

/// Checks that the run is done, and the number of its lines that begin with each of these starts.
fn check_counts(rt: &impl Abort, run_result: &RunResult, rows: &[(&str, usize)]) {
    assert!(rt; run_result.status == Status::Done);
    for at in 0..rows.len() {
        assert!(rt; run_result.counts(rows[at]), "row {at}");
    }
}

/// Checks that both peers finished, and that each delivered what the other offered.
fn check_delivered(rt: &impl Abort, run_result: &RunResult, frames: [u32; 2]) {
    let [first, second] = frames;
    let rows = [
        ("finished", 2),
        ("spent", 0),
        ("refuse ", 0),
        ("accept 0 ", first as usize),
        ("deliver 1 ", first as usize),
        ("accept 1 ", second as usize),
        ("deliver 0 ", second as usize),
    ];
    check_counts(rt, run_result, &rows);
    assert!(rt; run_result.has_ran);
}

/// Peers that exchange frames: the head of their scenario, the numbers of their frames, and their
/// turns.
type Exchange = (&'static str, [u32; 2], u32);

const EXCHANGES: [Exchange; 6] = [
    (HONEST, [1000, 1000], 1_500_000),
    (HONEST, [40, 0], 100_000),
    (WITH_EVENTS, [1000, 1000], 1_500_000),
    (WITH_EVENTS, [40, 0], 100_000),
    (IN_BYTES, [1000, 1000], 1_500_000),
    (IN_BYTES, [40, 0], 100_000),
];

/// Runs peers that are kept within this span of each other, and checks that each delivers all.
fn check_near<R: Threads + Sync + Abort>(
    rt: &R,
    alloc: Global,
    (head, frames, turns): Exchange,
    span: u64,
) -> Result<(), Fail> {
    let scenario = automatic(alloc, head, frames, turns)?;
    let gate = Lockstep::new(span);
    let run_result = run(rt, alloc, &scenario, &gate)?;
    assert!(rt; gate.was_kept());
    check_delivered(rt, &run_result, frames);
    Ok(())
}

// claim ivshm_cli.ivshm.running
#[test]
fn near_peers_exchange_frames(rt: HostRuntime) -> Result<(), Fail> {
    for exchange in EXCHANGES {
        check_near(&rt, rt.alloc(), exchange, 64)?;
    }
    Ok(())
}

/// Runs a scenario whose peers meet at their first turn, and checks that it is done and refuses
/// nothing.
fn check_meeting<R: Threads + Sync + Abort>(
    rt: &R,
    alloc: Global,
    scenario: &str,
) -> Result<(), Fail> {
    let gate = Meeting::new(2);
    let run_result = run(rt, alloc, scenario, &gate)?;
    assert!(rt; gate.was_kept());
    check_counts(rt, &run_result, &[("refuse ", 0)]);
    Ok(())
}

/// Runs a scenario whose peers meet at their first turn and stay near each other.
fn run_meeting_near<R: Threads + Sync + Abort>(
    rt: &R,
    alloc: Global,
    scenario: &str,
    peers: u32,
) -> Result<RunResult, Fail> {
    let gate = MeetingLockstep::new(peers, 64);
    let run_result = run(rt, alloc, scenario, &gate)?;
    assert!(rt; gate.was_kept());
    Ok(run_result)
}

/// Peers that exchange frames, and meet at their first turns.
const MEETINGS: [Exchange; 4] = [
    (HONEST, [1000, 1000], 1_500_000),
    (HONEST, [40, 0], 100_000),
    (WITH_EVENTS, [1000, 1000], 1_500_000),
    (IN_BYTES, [1000, 1000], 1_500_000),
];

/// Both reach their first turn before either takes it, so they run at the same time. The scheduler
/// decides how far one gets while the other waits for a processor. A check with peers that are kept
/// near each other shows that both end.
// claim ivshm_cli.ivshm.running
#[test]
fn peers_run_beside_one_another(rt: HostRuntime) -> Result<(), Fail> {
    let alloc = rt.alloc();
    for (head, frames, turns) in MEETINGS {
        let scenario = automatic(alloc, head, frames, turns)?;
        check_meeting(&rt, alloc, &scenario)?;
        let run_result = run_meeting_near(&rt, alloc, &scenario, 2)?;
        check_delivered(&rt, &run_result, frames);
    }
    Ok(())
}

// claim ivshm_cli.ivshm.running
#[test]
fn lockstep_through_a_session(rt: HostRuntime) -> Result<(), Fail> {
    check_near(&rt, rt.alloc(), (HONEST, [5, 5], 100_000), 0)
}

/// Whether the gate was called once at the end of the peer, and the peer's line has the number of
/// its turns.
fn is_counted(
    alloc: Global,
    gate: &Counter,
    run_result: &RunResult,
    peer: u32,
) -> Result<bool, Fail> {
    let line = format!(in alloc; "turns {}", gate.lockstep.passed(peer))?;
    Ok(gate.lockstep.times_ended(peer) == 1 && run_result.count(line.as_bytes()) > 0)
}

#[test]
fn a_gate_is_called_before_each_turn(rt: HostRuntime) -> Result<(), Fail> {
    let alloc = rt.alloc();
    let scenario = automatic(alloc, HONEST, [3, 0], 100_000)?;
    let gate = Counter::new();
    let run_result = run(&rt, alloc, &scenario, &gate)?;
    check_delivered(&rt, &run_result, [3, 0]);
    assert!(rt; gate.was_kept());
    assert!(rt; is_counted(alloc, &gate, &run_result, 0)?);
    assert!(rt; is_counted(alloc, &gate, &run_result, 1)?);
    Ok(())
}

/// Returns a scenario of two peers that can't finish. Peer 0 waits for a frame that is never sent,
/// and peer 1 for one frame too many. Peer 0 is reset in its first session.
fn restarting(alloc: Global) -> Result<String, AllocError> {
    let mut text = format!(in alloc; "{HONEST}auto 0 1\nauto 1 41\n")?;
    for _ in 0..40 {
        write!(text, "offer 0 {FRAME}\n")?;
    }
    text.push_str("turn 0 6000\nturn 1 400000\nreset 0\nturn 0 400000\nend\n")?;
    Ok(text)
}

/// The lines of sessions and resets of this run.
const ANEW: &[u8] =
    b"session 0 1 1\nx 0\nsession 0 2 2\nspent\nsession 1 1 1\nsession 1 2 2\nspent\n";

/// Whether the record is one of a run, and has these lines of sessions.
fn has_sessions(alloc: Global, run_result: &RunResult, wanted: &[u8]) -> Result<bool, Fail> {
    let found = run_result.sessions(alloc)?;
    Ok(run_result.text.starts_with(b"run 2\n") && found.as_slice() == wanted)
}

// claim peer_runner.drive
#[test]
fn a_reset_peer_opens_a_session_anew(rt: HostRuntime) -> Result<(), Fail> {
    let alloc = rt.alloc();
    let scenario = restarting(alloc)?;
    let gate = Lockstep::new(64);
    let run_result = run(&rt, alloc, &scenario, &gate)?;
    assert!(rt; gate.was_kept());
    assert!(rt; has_sessions(alloc, &run_result, ANEW)?);
    check_counts(&rt, &run_result, &[("refuse ", 0)]);
    assert!(rt; run_result.lines(b"turns 406001") == 1);
    Ok(())
}

/// Returns the number in a field of a line, counted from 0.
fn number(line: &[u8], field: usize) -> Option<u64> {
    line_format::number(line.split(|byte| *byte == b' ').nth(field)?)
}

/// Whether the line writes a word of the peer's own section, if it is a write.
fn is_own(line: &[u8]) -> bool {
    if line.starts_with(b"w 0 ") {
        return number(line, 2).is_some_and(|word| (1024..5120).contains(&word));
    }
    if line.starts_with(b"w 1 ") {
        return number(line, 2).is_some_and(|word| (5120..9216).contains(&word));
    }
    true
}

/// Whether each peer of the run writes its own section alone, and the last part is that of the
/// storm.
fn is_storm(run_result: &RunResult) -> Result<bool, Fail> {
    let is_last = str::from_utf8(&run_result.text)?.contains("turns 20000\nspent\nend ");
    Ok(
        is_last
            && run_result
                .text
                .split(|byte| *byte == b'\n')
                .all(|line| is_own(line)),
    )
}

// claim ivshm_cli.ivshm.running
// claim step_lines.Storm.step.step
#[test]
fn a_storm_beside_an_honest_peer(rt: HostRuntime) -> Result<(), Fail> {
    let alloc = rt.alloc();
    let scenario = format!(in alloc;
        "{HOSTILE}auto 0 0\noffer 0 {FRAME}\noffer 0 {FRAME}\noffer 0 {FRAME}\nstorm 1 7\nturn 0 20000\nturn 1 20000\nend\n"
    )?;
    let run_result = run(&rt, alloc, &scenario, &OpenGate)?;
    assert!(rt; run_result.status == Status::Done && run_result.has_ran);
    assert!(rt; run_result.count(b"w 1 ") > 0);
    assert!(rt; is_storm(&run_result)?);
    Ok(())
}

/// The acts of the peers of the link: five frames each way.
const FIVE_EACH_WAY: &str =
    "auto 0 5\nauto 1 5\noffer 0 ffffffffffff0200000000010800\noffer 1 ffffffffffff0200000000010800\noffer 0 ffffffffffff0200000000010800\noffer 1 ffffffffffff0200000000010800\noffer 0 ffffffffffff0200000000010800\noffer 1 ffffffffffff0200000000010800\noffer 0 ffffffffffff0200000000010800\noffer 1 ffffffffffff0200000000010800\noffer 0 ffffffffffff0200000000010800\noffer 1 ffffffffffff0200000000010800\n";

/// The six storms, and the turns of all.
const SIX_STORMS: &str =
    "storm 2 9\nstorm 3 9\nstorm 4 9\nstorm 5 9\nstorm 6 9\nstorm 7 9\nturn 0 900000\nturn 1 900000\nturn 2 1000\nturn 3 1000\nturn 4 1000\nturn 5 1000\nturn 6 1000\nturn 7 1000\nend\n";

/// Returns a scenario of two peers of the link, with five frames each way, and six storms of 1,000
/// turns. `acts` come first.
fn eight(alloc: Global, wiring: &str, acts: &str) -> Result<String, AllocError> {
    format!(in alloc;
        "ivshm 1\npeers 8\ntable 4096\ncommon 0\nout 16384\nmtu 256\nirq {wiring}\npeer 0 honest\npeer 1 honest\npeer 2 hostile\npeer 3 hostile\npeer 4 hostile\npeer 5 hostile\npeer 6 hostile\npeer 7 hostile\nbegin\n{acts}{FIVE_EACH_WAY}{SIX_STORMS}"
    )
}

#[test]
fn eight_peers_run_at_once(rt: HostRuntime) -> Result<(), Fail> {
    let alloc = rt.alloc();
    let scenario = eight(alloc, "msix 2", "")?;
    let run_result = run_meeting_near(&rt, alloc, &scenario, 8)?;
    let rows = [
        ("accept 0 ", 5),
        ("accept 1 ", 5),
        ("deliver 0 ", 5),
        ("deliver 1 ", 5),
        ("refuse ", 0),
        ("i ", 0),
    ];
    check_counts(&rt, &run_result, &rows);
    assert!(rt; run_result.lines(b"turns 1000") == 6);
    assert!(rt; run_result.lines(b"finished") == 2);
    Ok(())
}

#[test]
fn a_peer_in_one_shot_mode_is_interrupted_once(rt: HostRuntime) -> Result<(), Fail> {
    let alloc = rt.alloc();
    let scenario = eight(alloc, "intx", "cfg 1 w 67 1 1\nmmio 1 w 8 1\n")?;
    let run_result = run(&rt, alloc, &scenario, &OpenGate)?;
    check_counts(&rt, &run_result, &[("refuse ", 0)]);
    assert!(rt; run_result.lines(b"turns 1000") == 6);
    let interrupts = run_result.count(b"i 1 0");
    assert!(rt; interrupts <= 1 && run_result.count(b"i ") == interrupts);
    Ok(())
}
