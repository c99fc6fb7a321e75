//! Peers that are reset as they run, and the session numbers that they store and load.
use crate::runs::run;
use ivs_base::Frame;
use lawful_history::Line;
use peer_runner::{Gate, OpenGate};
use record_text::OwnTrace;
use std::alloc::{AllocError, Global};
use std::process::Abort;
use std::test::Fail;
use std::thread::Threads;
use tests_gates::{Lockstep, Meeting, MeetingLockstep};

/// Two automatic peers, up to their frames.
const AUTOMATIC: &str =
    "peers 2\ntable 4096\ncommon 0\nout 16384\nmtu 256\nirq msix 2\npeer 0 honest\npeer 1 honest\nbegin\nauto 0 30000\nauto 1 30000\n";

/// Two honest peers of the first layout, up to their frames.
const RESET_ONCE: &str =
    "ivshm 1\npeers 2\ntable 4096\ncommon 0\nout 16384\nmtu 256\nirq msix 2\npeer 0 honest\npeer 1 honest\nbegin\nauto 0 1\nauto 1 41\n";

/// An end and a storm of seed 7, up to their turns.
const WITH_A_STORM: &str =
    "ivshm 1\npeers 2\ntable 4096\ncommon 0\nout 16384\nmtu 256\nirq msix 2\npeer 0 honest\npeer 1 hostile\nbegin\nauto 0 1\nstorm 1 7\n";

/// The digits of a frame between its header and its number: 24 times 0800.
const PAYLOAD: &str =
    "080008000800080008000800080008000800080008000800080008000800080008000800080008000800080008000800";

/// One session of a peer, from its lines. `carried` is the number of the other's session, or 0 if
/// this session didn't reach RUN. `accepted` and `delivered` are the indices of the lines of its
/// frames.
#[derive(Debug, Drop)]
struct Session {
    carried: u32,
    accepted: Vec<usize>,
    delivered: Vec<usize>,
}

impl Session {
    fn opened(alloc: Global) -> Session {
        Session {
            carried: 0,
            accepted: Vec::new(alloc),
            delivered: Vec::new(alloc),
        }
    }
}

/// Adds the line at this place to the sessions. Returns whether a session mark has its session's
/// number.
fn adds(all: &mut Vec<Session>, alloc: Global, at: usize, line: &Line) -> Result<bool, AllocError> {
    if let Line::State { value: 2, .. } = line {
        all.push(Session::opened(alloc))?;
        return Ok(true);
    }
    let count = all.len();
    let Some(session) = all.last_mut() else {
        return Ok(!matches!(line, Line::Session { .. }));
    };
    match line {
        Line::Session { opened, other, .. } => {
            session.carried = *other;
            return Ok(*opened as usize == count);
        }
        Line::Accept { .. } => session.accepted.push(at)?,
        Line::Deliver { .. } => session.delivered.push(at)?,
        _ => {}
    }
    Ok(true)
}

/// Returns the sessions of the lines, in their order. Each session mark has its session's number.
fn sessions<R: Abort>(rt: &R, alloc: Global, lines: &[Line]) -> Result<Vec<Session>, AllocError> {
    let mut all: Vec<Session> = Vec::new(alloc);
    for (at, line) in lines.iter().enumerate() {
        assert!(rt; adds(&mut all, alloc, at, line)?);
    }
    Ok(all)
}

/// Returns the frame of a mark.
fn frame_at(lines: &[Line], at: usize) -> Option<&Frame> {
    match lines.get(at) {
        Some(Line::Accept { frame, .. } | Line::Deliver { frame, .. }) => Some(frame),
        _ => None,
    }
}

/// Whether the two lines are marks of one frame.
fn are_of_one_frame(delivered: Option<&Frame>, accepted: Option<&Frame>) -> bool {
    delivered.is_some() && delivered == accepted
}

/// The lines of a peer and their sessions.
#[derive(Clone, Copy)]
struct Part<'a> {
    lines: &'a [Line],
    sessions: &'a [Session],
}

/// Whether the session delivered a prefix of what the carried session of the other peer accepted.
#[must_use]
fn is_prefix(lines: &[Line], session: &Session, others: &[Line], carried: &Session) -> bool {
    if session.delivered.len() > carried.accepted.len() {
        return false;
    }
    session.delivered.iter().zip(carried.accepted.iter()).all(|(delivered, accepted)| {
        are_of_one_frame(frame_at(lines, *delivered), frame_at(others, *accepted))
    })
}

/// Whether a session is as due after one that carried the number `last`. If it carries none, it has
/// no frames. Otherwise its number is larger, and is that of a session of the other peer. It
/// delivered a prefix of what that one accepted.
#[must_use]
fn is_paired(session: &Session, last: u32, own: Part<'_>, other: Part<'_>) -> bool {
    if session.carried == 0 {
        return session.delivered.is_empty();
    }
    let place = session.carried as usize - 1;
    session.carried > last
        && other.sessions.get(place).is_some_and(|carried| is_prefix(
            own.lines,
            session,
            other.lines,
            carried,
        ))
}

/// Checks that the sessions of one peer have rising numbers of the other's. Each must deliver a
/// prefix of what the other accepted in that session. Returns the number of sessions that delivered
/// frames.
fn check_carried(rt: &impl Abort, own: Part<'_>, other: Part<'_>) -> usize {
    let mut last = 0;
    for session in own.sessions {
        assert!(rt; is_paired(session, last, own, other));
        last = last.max(session.carried);
    }
    own.sessions
        .iter()
        .filter(|session| !session.delivered.is_empty())
        .count()
}

/// Whether no line refuses a value.
fn refuses_none(lines: &[Line]) -> bool {
    !lines.iter().any(|line| matches!(line, Line::Refuse { .. }))
}

/// Checks that the sessions of both peers are paired. Returns for each the number of sessions that
/// delivered frames.
fn check_paired<R: Abort>(
    rt: &R,
    alloc: Global,
    first: &[Line],
    second: &[Line],
) -> Result<[usize; 2], AllocError> {
    assert!(rt; refuses_none(first) && refuses_none(second));
    let all = [sessions(rt, alloc, first)?, sessions(rt, alloc, second)?];
    let own = Part {
        lines: first,
        sessions: &all[0],
    };
    let other = Part {
        lines: second,
        sessions: &all[1],
    };
    Ok([check_carried(rt, own, other), check_carried(rt, other, own)])
}

/// Returns the number of resets in the lines.
fn resets(lines: &[Line]) -> usize {
    lines
        .iter()
        .filter(|line| matches!(line, Line::Reset { .. }))
        .count()
}

/// Appends an offer of the peer's frame of 64 bytes with this number.
fn push_offer(text: &mut String, peer: u32, frame: u32) -> Result<(), AllocError> {
    write!(text, "offer {peer} ffffffffffff02000000000{peer}")?;
    text.push_str(PAYLOAD)?;
    write!(text, "{frame:08}\n")
}

/// Returns a scenario of two automatic peers with frames of 64 bytes. Peer 0 is reset after each
/// span of its turns, and peer 1 is never reset.
fn restarting(
    alloc: Global,
    version: u32,
    frames: u32,
    resets: u32,
    span: u32,
    others: u32,
) -> Result<String, AllocError> {
    let mut text = format!(in alloc; "ivshm {version}\n")?;
    text.push_str(AUTOMATIC)?;
    for frame in 0..frames {
        for peer in 0..2 {
            push_offer(&mut text, peer, frame)?;
        }
    }
    write!(text, "turn 1 {others}\n")?;
    for _ in 0..resets {
        write!(text, "turn 0 {span}\nreset 0\n")?;
    }
    write!(text, "turn 0 {span}\nend\n")?;
    Ok(text)
}

/// Whether the peer took these turns without an end, and has this number of resets.
#[must_use]
fn is_part(part: &OwnTrace, (turns, number): (u64, usize)) -> bool {
    part.turns == turns && !part.finished && resets(part.lines.items()) == number
}

/// Whether the sessions carry these numbers.
#[must_use]
fn carry(sessions: &[Session], numbers: [u32; 2]) -> bool {
    match sessions {
        [first, second] => [first.carried, second.carried] == numbers,
        _ => false,
    }
}

/// Checks the turns and the resets of both peers, and that their sessions are paired. Returns for
/// each the number of sessions that delivered frames.
fn check_parts<R: Abort>(
    rt: &R,
    alloc: Global,
    parts: &[OwnTrace],
    ends: [(u64, usize); 2],
) -> Result<[usize; 2], Fail> {
    let [first, second] = parts else {
        panic!(rt; "both peers run");
    };
    let [of_first, of_second] = ends;
    assert!(rt; is_part(first, of_first));
    assert!(rt; is_part(second, of_second));
    let [first, second] = [first.lines.items(), second.lines.items()];
    Ok(check_paired(rt, alloc, first, second)?)
}

/// Runs a scenario of two peers under this gate, and checks its parts as `check_parts` does.
fn check_run<R: Threads + Sync + Abort, G: Gate + Sync>(
    rt: &R,
    alloc: Global,
    text: &str,
    gate: &G,
    ends: [(u64, usize); 2],
) -> Result<[usize; 2], Fail> {
    let Some(trace) = run(rt, alloc, text.as_bytes(), gate)? else {
        panic!(rt; "the scenario can be run");
    };
    check_parts(rt, alloc, trace.peers.items(), ends)
}

/// Returns a scenario in which neither peer can finish. No frame comes for peer 0, and peer 1 waits
/// for one frame too many. Peer 0 is reset in its first session.
fn reset_once(alloc: Global) -> Result<String, AllocError> {
    let mut text = String::from_str(alloc, RESET_ONCE)?;
    for _ in 0..40 {
        text.push_str("offer 0 ffffffffffff0200000000010800\n")?;
    }
    text.push_str("turn 0 6000\nturn 1 400000\nreset 0\nturn 0 400000\nend\n")?;
    Ok(text)
}

/// Checks that each of the two peers has two sessions, which carry the numbers 1 and 2.
fn check_two_sessions(rt: &impl Abort, alloc: Global, parts: &[OwnTrace]) -> Result<(), Fail> {
    for part in parts {
        let all = sessions(rt, alloc, part.lines.items())?;
        assert!(rt; carry(&all, [1, 2]));
    }
    Ok(())
}

/// Peer 0 can't finish, since no frame comes for it. Peer 1 can't finish either, since it waits for
/// one frame too many. Peer 0 is reset in its first session.
#[test]
fn a_reset_peer_opens_a_session_anew(rt: HostRuntime) -> Result<(), Fail> {
    let alloc = rt.alloc();
    let text = reset_once(alloc)?;
    let gate = Lockstep::new(64);
    let Some(trace) = run(&rt, alloc, text.as_bytes(), &gate)? else {
        panic!(rt; "the scenario can be run");
    };
    assert!(rt; gate.was_kept());
    let parts = trace.peers.items();
    check_parts(&rt, alloc, parts, [(406_001, 1), (400_000, 0)])?;
    check_two_sessions(&rt, alloc, parts)
}

/// Runs fifty resets of peer 0 in 3,900,000 turns, with a peer 1 that is never reset. Checks that
/// the sessions of both are paired. Returns for each the number of sessions that delivered frames.
fn fifty_resets<R: Threads + Sync + Abort, G: Gate + Sync>(
    rt: &R,
    alloc: Global,
    gate: &G,
) -> Result<[usize; 2], Fail> {
    let text = restarting(alloc, 1, 24_000, 50, 38_000, 1_962_000)?;
    check_run(rt, alloc, &text, gate, [(1_938_050, 50), (1_962_000, 0)])
}

/// Runs fifty resets under this gate, and checks that ten sessions of each peer or more deliver
/// frames.
fn check_often<R: Threads + Sync + Abort, G: Gate + Sync>(
    rt: &R,
    alloc: Global,
    gate: &G,
) -> Result<(), Fail> {
    let [first, second] = fifty_resets(rt, alloc, gate)?;
    assert!(rt; first >= 10 && second >= 10, "{first} {second}");
    Ok(())
}

/// If the peers stay near each other, many of the sessions deliver frames, whether the first turns
/// met or not. If they met and both run freely, the scheduler decides the number of sessions that
/// do, and all are paired.
// claim peer_runner.sessions_are_paired
// claim peer_runner.drive
#[test]
fn fifty_resets_beside_a_steady_peer(rt: HostRuntime) -> Result<(), Fail> {
    let alloc = rt.alloc();
    let near = Lockstep::new(64);
    check_often(&rt, alloc, &near)?;
    assert!(rt; near.was_kept());
    let both = MeetingLockstep::new(2, 1_024);
    check_often(&rt, alloc, &both)?;
    assert!(rt; both.was_kept());
    let meeting = Meeting::new(2);
    fifty_resets(&rt, alloc, &meeting)?;
    assert!(rt; meeting.was_kept());
    Ok(())
}

/// Turns of peer 0 between its resets: in the handshake and after it.
const SPANS: [u32; 10] = [
    1, 2, 4_099, 4_100, 4_101, 4_102, 4_103, 8_211, 8_230, 12_345,
];

/// Checks a run of ten resets of peer 0, one after each span of its turns.
fn check_resets<R: Threads + Sync + Abort>(
    rt: &R,
    alloc: Global,
    version: u32,
    span: u32,
) -> Result<(), Fail> {
    let text = restarting(alloc, version, 20, 10, span, 130_000)?;
    let turns = 11 * span as u64 + 10;
    check_run(
        rt,
        alloc,
        &text,
        &Lockstep::new(64),
        [(turns, 10), (130_000, 0)],
    )?;
    Ok(())
}

/// Resets at many places of the handshake and after it, in each version.
// claim peer_runner.sessions_are_paired
#[test]
fn resets_at_any_place(rt: HostRuntime) -> Result<(), Fail> {
    for version in 1..4 {
        for span in SPANS {
            check_resets(&rt, rt.alloc(), version, span)?;
        }
    }
    Ok(())
}

/// Returns a scenario of an end and a storm of seed 7, in which both peers are reset fifty times.
fn storm_text(alloc: Global) -> Result<String, AllocError> {
    let mut text = String::from_str(alloc, WITH_A_STORM)?;
    for _ in 0..50 {
        text.push_str("turn 0 38000\nreset 0\nturn 1 38000\nreset 1\n")?;
    }
    text.push_str("turn 0 38000\nturn 1 38000\nend\n")?;
    Ok(text)
}

/// Whether the line is one that the hostile peer may have: no session mark, and no write of another
/// word than its own.
fn is_of_storm(line: &Line) -> bool {
    match line {
        Line::Session { .. } => false,
        Line::Write { word, .. } => *word >= 5_120 && *word < 9_216,
        _ => true,
    }
}

/// Checks that the end and the storm were reset fifty times, and no session carries a number. The
/// hostile peer has no session of its own, and writes its own words alone.
fn check_storm_parts<R: Abort>(rt: &R, alloc: Global, parts: &[OwnTrace]) -> Result<(), Fail> {
    let [end, storm] = parts else {
        panic!(rt; "both peers run");
    };
    assert!(rt; is_part(storm, (1_938_050, 50)));
    assert!(rt; resets(end.lines.items()) == 50);
    let all = sessions(rt, alloc, end.lines.items())?;
    assert!(rt; all.iter().all(|session| session.carried == 0));
    assert!(rt; storm.lines.items().iter().all(|line| is_of_storm(line)));
    Ok(())
}

/// With a hostile peer, which is reset too, every session has the other's number 0.
fn check_storm<R: Threads + Sync + Abort, G: Gate + Sync>(
    rt: &R,
    alloc: Global,
    gate: &G,
) -> Result<(), Fail> {
    let text = storm_text(alloc)?;
    let Some(trace) = run(rt, alloc, text.as_bytes(), gate)? else {
        panic!(rt; "the scenario can be run");
    };
    check_storm_parts(rt, alloc, trace.peers.items())
}

// claim peer_runner.drive
#[test]
fn sessions_beside_a_storm_carry_none(rt: HostRuntime) -> Result<(), Fail> {
    let alloc = rt.alloc();
    let gate = Lockstep::new(64);
    check_storm(&rt, alloc, &gate)?;
    assert!(rt; gate.was_kept());
    let meeting = Meeting::new(2);
    check_storm(&rt, alloc, &meeting)?;
    assert!(rt; meeting.was_kept());
    Ok(())
}

/// Two peers without frames, of which peer 0 would be reset after its end.
const FINISHED: &[u8] =
    b"ivshm 1\npeers 2\ntable 4096\ncommon 0\nout 16384\nmtu 256\nirq msix 2\npeer 0 honest\npeer 1 honest\nbegin\nauto 0 0\nauto 1 0\nturn 0 5\nturn 1 5\nreset 0\nturn 0 5\nend\n";

/// Whether the peer finished at once.
fn finished_at_once(part: &OwnTrace) -> bool {
    part.finished && part.turns == 0 && part.lines.items().is_empty()
}

/// A peer that finishes in a span ends there, and its later resets don't happen.
// claim peer_runner.drive
#[test]
fn a_finished_peer_is_reset_no_more(rt: HostRuntime) -> Result<(), Fail> {
    let Some(trace) = run(&rt, rt.alloc(), FINISHED, &OpenGate)? else {
        panic!(rt; "the scenario can be run");
    };
    let parts = trace.peers.items();
    assert!(rt; parts.len() == 2 && parts.iter().all(|part| finished_at_once(part)));
    Ok(())
}
