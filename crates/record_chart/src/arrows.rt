//! The lines at which frames were accepted.
ghost use Rattle.std.specs.Prelude.{◌≡◌, ℕ, ◌+◌, ◌-◌, ◌<◌, ◌≤◌, ◌^◌, ◌++◌, ◌∷◌, if◌then◌else◌, IfOk, OnOk, length, slice_get};
ghost use Rattle.record_chart.specs.Arrows.{begins_session, accepts, delivers, accepted_after, delivered_after, arrow_to, arrows_of};

use ivs_base::NoMemory;
use lawful_history::Line;
use std::alloc::Global;

/// An arrow of a picture: from the line where a frame was accepted to the line where it was
/// delivered. Lines count from 1.
#[derive(Clone, Copy, Debug, PartialEq, Eq)]
pub struct Arrow {
    pub from: u64,
    pub to: u64,
}

/// Whether the line is the peer's write of State 2.
fn begins_session(peer: u32, line: &Line) -> bool
    ensures { result ≡ begins_session peer line.now }
{
    matches!(line, Line::State { peer: writer, value } if *writer == peer && *value == 2)
}

/// Whether the line accepts a frame of the peer.
fn accepts(peer: u32, line: &Line) -> bool
    ensures { result ≡ accepts peer line.now }
{
    matches!(line, Line::Accept { peer: sender, .. } if *sender == peer)
}

/// Whether the line delivers a frame to the peer.
fn delivers(peer: u32, line: &Line) -> bool
    ensures { result ≡ delivers peer line.now }
{
    matches!(line, Line::Deliver { peer: receiver, .. } if *receiver == peer)
}

/// Updates the numbers of the lines at which a peer accepted a frame in its session.
fn put_acceptance(
    acceptances: &mut Vec<u64>,
    peer: u32,
    number: u64,
    line: &Line,
) -> Result<(), NoMemory>
    ensures { OnOk result (acceptances.new.items ≡ accepted_after peer number line.now acceptances.old.items) }
{
    if begins_session(peer, line) {
        acceptances.clear();
    } else if accepts(peer, line) {
        acceptances.push(number)?;
    }
    Ok(())
}

/// Returns the number of frames that a peer delivered in its session, after a line.
fn delivered_after(peer: u32, line: &Line, count: usize) -> usize
    requires { count < 2 ^ 64 - 1 }
    ensures { result ≡ delivered_after peer line.now count }
{
    if begins_session(peer, line) {
        0
    } else if delivers(peer, line) {
        count + 1
    } else {
        count
    }
}

/// Returns the number at an index, if there is one.
fn number_at(numbers: &[u64], place: usize) -> Option<u64>
    ensures { result ≡ slice_get numbers.now place }
{
    numbers.get(place).copied()
}

/// Appends the arrow to a line, if there is one.
fn put_arrow(
    arrows: &mut Vec<Arrow>,
    peer: u32,
    first: u64,
    number: u64,
    source: Option<u64>,
    line: &Line,
) -> Result<(), NoMemory>
    ensures { OnOk result (arrows.new.items ≡ arrows.old.items ++ arrow_to peer first number source line.now) }
{
    if delivers(peer, line)
        && first <= number
        && let Some(from) = source
    {
        arrows.push(Arrow { from, to: number })?;
    }
    Ok(())
}

/// Returns the arrows to the deliveries of a link peer, from line number `first` on. `lines` is a
/// prefix of a history.
// claim: An arrow leads to a delivery from the other's acceptance at the same place in its session.
pub fn arrows_of(
    alloc: Global,
    peer: u32,
    first: u64,
    lines: &[Line],
) -> Result<Vec<Arrow>, NoMemory>
    requires { peer < 2 }
    ensures { IfOk result (λ arrows. arrows.items ≡ arrows_of peer first lines.now) }
{
    let other = 1 - peer;
    let mut arrows = Vec::new(alloc);
    let mut acceptances = Vec::new(alloc);
    let mut delivered = 0;
    for at in 0..lines.len() {
        let line = &lines[at];
        let number = at as u64 + 1;
        let source = number_at(&acceptances, delivered);
        put_arrow(&mut arrows, peer, first, number, source, line)?;
        delivered = delivered_after(peer, line, delivered);
        put_acceptance(&mut acceptances, other, number, line)?;
    }
    Ok(arrows)
}
