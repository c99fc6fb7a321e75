//! The paths of running peers' doorbells, and what one turn does of a step.
ghost use Rattle.std.specs.Prelude.{◌≡◌};
ghost use Rattle.doorbell_irq.specs.Routes.{bit_for, bit_rung};
ghost use Rattle.shared_words.specs.PeerRoutes.{route_to};
ghost use Rattle.peer_runner.specs.DoorbellPaths.{doorbell_path_to};
ghost use Rattle.peer_runner.specs.Turns.{is_set};
ghost use Rattle.peer_runner.specs.Runners.{value_done, awaits_ring};

use doorbell_irq::Route;

/// The path of a doorbell.
#[derive(Clone, Copy, Debug, PartialEq, Eq)]
pub enum DoorbellPath {
    /// The doorbell touches no word: it causes no interrupt.
    Silent,
    /// The doorbell sets this bit of the target's interrupt word.
    Direct(u32),
    /// The target is in one-shot mode. The doorbell clears the target's Interrupt Control. If the
    /// clear found it set, the doorbell sets this bit of the target's interrupt word.
    Guarded(u32),
}

/// The part of a step that one turn makes.
#[derive(Clone, Copy, Debug, PartialEq, Eq)]
pub enum Done {
    /// The whole step. The value is what a read gave, else 0.
    Stepped(u32),
    /// The clear of a doorbell at a peer in one-shot mode. The clear found this word.
    Cleared(u64),
    /// The ring of such a doorbell.
    Rung,
}

impl Done {
    /// The value that a read gave, else 0.
    pub fn value(self) -> u32
        ensures { result ≡ value_done self }
    {
        match self {
            Done::Stepped(value) => value,
            Done::Cleared(_) | Done::Rung => 0,
        }
    }

    /// Whether this is a clear that found the bit set. Then only the ring is left, which ends the
    /// step.
    pub fn awaits_ring(self) -> bool
        ensures { result ≡ awaits_ring self }
    {
        match self {
            Done::Cleared(found) => is_set(found),
            Done::Stepped(_) | Done::Rung => false,
        }
    }
}

/// Whether bit 0 of an Interrupt Control is set.
fn is_set(found: u64) -> bool
    ensures { result ≡ is_set found }
{
    found % 2 == 1
}

/// The bit of the interrupt word for a vector.
fn bit_for(route: &Route, vector: u32) -> u32
    ensures { result ≡ bit_for route.now vector }
{
    if route.intx { 0 } else { vector }
}

/// The bit that a doorbell with this vector sets at the end of a route, if it causes an interrupt.
fn bit_rung(route: &Route, vector: u32) -> Option<u32>
    ensures { result ≡ bit_rung route.now vector }
{
    if !route.enabled {
        return None;
    }
    let bit = bit_for(route, vector);
    if bit >= 64 {
        return None;
    }
    if (route.vectors >> bit) & 1 == 0 {
        return None;
    }
    Some(bit)
}

/// The path of a doorbell at the target. A doorbell at a peer that doesn't exist causes no
/// interrupt.
pub fn doorbell_path_to(routes: &[Route], target: u32, vector: u32) -> DoorbellPath
    ensures { result ≡ doorbell_path_to routes.now target vector }
{
    let route = route_to(routes, target);
    match bit_rung(&route, vector) {
        None => DoorbellPath::Silent,
        Some(bit) if route.one_shot => DoorbellPath::Guarded(bit),
        Some(bit) => DoorbellPath::Direct(bit),
    }
}

/// The route to a peer. The route to a peer that doesn't exist is disabled.
pub fn route_to(routes: &[Route], peer: u32) -> Route
    ensures { result ≡ route_to routes.now peer }
{
    match routes.get(peer as usize) {
        Some(route) => *route,
        None => Route {
            vectors: 0,
            intx: false,
            one_shot: false,
            enabled: false,
        },
    }
}
