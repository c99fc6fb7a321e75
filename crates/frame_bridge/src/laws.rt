//! Laws of every bridge. The function does nothing: its contract is the law.
ghost use Rattle.frame_bridge.specs.Laws.{Forwards};

/// Law: no frame goes back to the port at which it arrived. The frames that go to a port grow with
/// the arrivals, in their order.
// claim: No frame goes back to the port from which it came, and what goes to a port grows at its
//    end alone.
pub fn frames_are_forwarded()
    ensures { Forwards }
{}
