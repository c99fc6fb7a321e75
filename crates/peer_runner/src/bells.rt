//! The parts of a doorbell that one turn makes.
ghost use Rattle.std.specs.Prelude.{◌≡◌, true, None};
ghost use Rattle.split_ring.specs.declared.steps.Access.{Access};
ghost use Rattle.shared_words.specs.PeerRoutes.{AreRoutes};
ghost use Rattle.peer_runner.specs.DoorbellPaths.{doorbell_path_to, is_guarded};
ghost use Rattle.shared_words.specs.Rules.{front};
ghost use Rattle.shared_words.specs.Passes.{IsFilled};
ghost use Rattle.peer_runner.specs.Runners.{MayRingBy, IsDone, value_done, awaits_ring, done_of, made};

use crate::doorbell_paths::{Done, DoorbellPath, doorbell_path_to};
use doorbell_irq::Route;
use shared_words::{Pass, Words, clear, ring};

/// Makes the part of a doorbell that one turn makes, and returns it. `ringing` says whether its
/// clear is done and found the bit.
pub fn ring_turn(
    words: &Words,
    pass: &mut Pass,
    routes: &[Route],
    target: u32,
    vector: u32,
    ringing: bool,
) -> Done
    requires of { IsFilled words.now.shared.table_id words.now.shared.key pass.old }
    requires routes { AreRoutes words.now.shared.key routes.now }
    requires may { ringing ≡ true → MayRingBy routes.now (Access.Ring target vector) (front pass.old.lists) }
    ensures done { IsDone ringing (is_guarded (doorbell_path_to routes.now target vector)) result }
    ensures pass { pass.new ≡ made pass.old (done_of routes.now None (Access.Ring target vector) result) }
    ensures value { value_done result ≡ 0 }
    ensures may { awaits_ring result ≡ true → MayRingBy routes.now (Access.Ring target vector) (front pass.new.lists) }
{
    let peers = routes.len() as u32;
    match doorbell_path_to(routes, target, vector) {
        DoorbellPath::Silent => Done::Stepped(0),
        DoorbellPath::Direct(bit) => {
            ring(words, pass, peers, target, bit);
            Done::Stepped(0)
        }
        DoorbellPath::Guarded(bit) => {
            if ringing {
                ring(words, pass, peers, target, bit);
                Done::Rung
            } else {
                Done::Cleared(clear(words, pass, peers, target))
            }
        }
    }
}
