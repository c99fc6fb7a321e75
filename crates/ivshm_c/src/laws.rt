//! Laws of the counts. Each law is the contract of a function without effect.
ghost use Rattle.ivshm_c.specs.Sessions.{SessionsFollowState};

use call_grammar::phase_follows_state;

/// Law: a session that is counted was opened by a write of State 2.
pub fn sessions_follow_state()
    ensures { SessionsFollowState }
{
    phase_follows_state();
}
