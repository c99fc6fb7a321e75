//! Laws of devices in several processes. Each law is the contract of a function without effect.
ghost use Rattle.std.specs.Prelude.{◌≡◌, ℕ, List, true, None};
ghost use Rattle.doorbell_irq.specs.Events.{Devices, Event};
ghost use Rattle.doorbell_irq.specs.DeviceRules.{state_in, delivery_of, is_connected, bytes_after};
ghost use Rattle.ivshm_device.specs.Apart.{may_leave_out, Applies};

/// Processes that each have a handle of one world, one for each guest, are together the device of
/// all peers. This function is that law.
///
/// The process of a peer applies each event of its own peer. Of the other peers it applies at least
/// the writes of State, the Doorbell writes to its peer, the resets, the disconnections and the
/// connections. Then its peer's bytes are those of the device of all peers, and so is each
/// interrupt that reaches its peer. Every read, route and message of the peer follows from these.
///
/// The list of all events has the order in which the process applies them. An event that reaches
/// the process late comes later in that list, and the law speaks of that order. A guest can observe
/// this: the State Table may have a State before its interrupt comes. A doorbell is dropped if its
/// target masked the vector before the doorbell reached the process. No clause compares the orders
/// of two processes.
// claim bytes, deliveries, none_missed, states, connected: A guest's process that gets the States,
//    resets and connections of the other guests, and the doorbells to its own, has the device of
//    all peers, for the events in its order.
pub fn processes_apart_are_the_device()
    ensures bytes { (w : Devices) (peer : ℕ) (applied all : List Event) → Applies w peer applied all →
        bytes_after w applied peer ≡ bytes_after w all peer }
    ensures deliveries { (w : Devices) (peer : ℕ) (applied all : List Event) (event : Event) →
        Applies w peer applied all →
        delivery_of w.wiring (is_connected applied) (bytes_after w applied) event peer ≡ delivery_of w.wiring (is_connected all) (bytes_after w all) event peer }
    ensures none_missed { (w : Devices) (peer : ℕ) (all : List Event) (event : Event) →
        may_leave_out peer event ≡ true →
        delivery_of w.wiring (is_connected all) (bytes_after w all) event peer ≡ None }
    ensures states { (w : Devices) (peer : ℕ) (applied all : List Event) → Applies w peer applied all →
        (other : ℕ) → state_in (bytes_after w applied other) ≡ state_in (bytes_after w all other) }
    ensures connected { (w : Devices) (peer : ℕ) (applied all : List Event) → Applies w peer applied all →
        (other : ℕ) → is_connected applied other ≡ is_connected all other }
{}
