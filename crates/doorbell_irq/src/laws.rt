//! The rules in plain words, as laws of the definitions.
ghost use Rattle.std.specs.Prelude.{◌≡◌, ◌≢◌, ◌<◌, ◌^◌, ℕ, Bool, true, false, List, ◌∷◌, Some, is_some};
ghost use Rattle.pci_space.specs.Wiring.{IsWiring};
ghost use Rattle.doorbell_irq.specs.declared.route.Route.{Route};
ghost use Rattle.doorbell_irq.specs.Events.{Devices, Event, RegisterWritten, WasReset, doorbell_register, state_register, doorbell_word, doorbell_target, doorbell_vector};
ghost use Rattle.doorbell_irq.specs.DeviceRules.{state_in, is_enabled, is_one_shot, delivery_of, is_connected, bytes_after, register_vector};
ghost use Rattle.doorbell_irq.specs.Peer.{Registers};
ghost use Rattle.doorbell_irq.specs.Registers.{IsPeer, Takes, register_bytes, delivery_at};
ghost use Rattle.doorbell_irq.specs.Routes.{IsRoute, bit_rung};

/// A State that is written reads back, and a reset makes it 0. This function is that law.
// claim written, reset: A State that was written reads back, and a reset makes it 0.
pub fn state_is_what_was_written()
    ensures written { (w : Devices) (events : List Event) (peer value : ℕ) → value < 2 ^ 32 →
        state_in (bytes_after w (RegisterWritten peer state_register value ∷ events) peer) ≡ value }
    ensures reset { (w : Devices) (events : List Event) (peer : ℕ) →
        state_in (bytes_after w (WasReset peer ∷ events) peer) ≡ 0 }
{}

/// A delivery to a peer in one-shot mode disables its interrupts. This function is that law.
// claim: An interrupt that reaches a peer in one-shot mode turns its interrupts off.
pub fn one_shot_turns_interrupts_off()
    ensures { (w : Devices) (events : List Event) (event : Event) (peer : ℕ) →
        is_some (delivery_of w.wiring (is_connected events) (bytes_after w events) event peer) ≡ true →
        is_one_shot (bytes_after w events peer) ≡ true →
        is_enabled (bytes_after w (event ∷ events) peer) ≡ false }
{}

/// The target and the vector of a doorbell word determine the word, and the word determines them.
/// This function is that law.
pub fn doorbell_words_have_two_halves()
    ensures target { (target vector : ℕ) → vector < 2 ^ 16 → doorbell_target (doorbell_word target vector) ≡ target }
    ensures vector { (target vector : ℕ) → vector < 2 ^ 16 → doorbell_vector (doorbell_word target vector) ≡ vector }
    ensures word { (word : ℕ) → doorbell_word (doorbell_target word) (doorbell_vector word) ≡ word }
{}

/// A peer's route determines what a doorbell delivers to the peer. This function is that law.
///
/// The delivery is the route's bit for the vector, if interrupts are enabled and that bit is set.
/// Otherwise there is no delivery.
// claim: A peer's route determines what each doorbell delivers to it: the bit of its vector,
//    exactly if interrupts are enabled and that bit of the route is set.
pub fn routes_decide_deliveries()
    ensures { (w : Devices) (events : List Event) (source peer vector : ℕ) (route : Route) → IsWiring w.wiring →
        vector < 2 ^ 16 →
        IsRoute w events peer route →
        delivery_of w.wiring (is_connected events) (bytes_after w events) (RegisterWritten source doorbell_register (doorbell_word peer vector)) peer
        ≡ bit_rung route vector }
{}

/// Devices of single peers, one in each process, are together the device of all peers, for register
/// writes. This function is that law.
///
/// The registers of the source determine which peers its write triggers. A peer that processes this
/// trigger before any other event is in the state after the event. Its delivery is that of the
/// device's rules.
// claim: Peers' devices in processes of their own, each of which takes exactly what a register
//    write of the source triggers, are after the write as the device of all peers is.
pub fn peers_apart_are_the_device()
    ensures { (w : Devices) (events : List Event) (source peer offset value : ℕ) (own before after : Registers) →
        peer ≢ source →
        IsPeer w events source own → IsPeer w events peer before →
        Takes w.wiring (register_vector (state_in (register_bytes own)) source offset value peer) before after →
        IsPeer w (RegisterWritten source offset value ∷ events) peer after
        × (delivery_at w.wiring before (register_vector (state_in (register_bytes own)) source offset value peer)
        ≡ delivery_of w.wiring (is_connected events) (bytes_after w events) (RegisterWritten source offset value) peer) }
{}
