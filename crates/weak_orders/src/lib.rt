//! Two ends of the link over memory that is weaker than sequentially consistent, with the order of
//! each access as `link_endpoint` reports it. The crate has no code: each law is the contract of a
//! function with an empty body.
//!
//! # Design
//!
//! - The memory (`specs/Memory`) has single writers, so an end's past is a list of moments, one
//!   after each of its actions. The order of an access is `order_at` of its place (`specs/Orders`),
//!   the definition that the contract of `Endpoint::order` cites.
//! - The proof keeps the invariant of `link_invariant` at each consistent cut. A cut is a moment
//!   of each end, so that neither end's view goes past the other's moment. The last two moments are
//!   such a cut. A step goes from cut to cut by `link_invariant`'s own step. A load that acquires
//!   holds at its own cut and at each later one; a relaxed load gives one result at each cut.
//! - A proof that needs a row of the table cites the row's lemma (`proofs/Rows`). An edit for each
//!   row takes the row away, and the prover refuses it at that lemma.
//! - Stronger memories are instances: the sequentially consistent one of the other theorems, and
//!   x86-TSO. So the laws hold there too, and the weak runs aren't an empty set. A worked run
//!   (`specs/Worked`) is no sequentially consistent one.
#![tactic(auto)]

ghost use Rattle.weak_orders.specs.Runs.{WeakRunsAgree};
ghost use Rattle.weak_orders.specs.Sessions.{WeakSessionsRise};
ghost use Rattle.weak_orders.specs.Wake.{WeakDoorbellsRing};
ghost use Rattle.weak_orders.specs.Bell.{DoorbellsFollowIndexes};
ghost use Rattle.weak_orders.specs.OneEnd.{EndsAreSafe};
ghost use Rattle.weak_orders.specs.Worked.{BothLooksMayBeStale};
ghost use Rattle.weak_orders.specs.Stronger.{SequentialRunsAreWeak, StoreBufferRunsAreWeak, LoadsMayBeStale};

/// Two honest ends over weak memory never refuse. The frames that an attached end delivered are a
/// prefix of those that the other accepted.
// claim: No two honest ends are at a refusal, at any moment. While one is in RUN or about to set
//    it, the other opens no session, and what the one delivered begins what the other accepted.
pub fn weak_runs_agree()
    ensures { WeakRunsAgree }
{}

/// While an end is attached, the other's session stays the same, and its frames are delivered in
/// order. A later session of the end is attached to a later session of the other.
// claim: While an end is attached, the other's session is the same at each moment that is
//    consistent with the end's view. In a later session of its own the end is attached to a later
//    one.
pub fn weak_sessions_rise()
    ensures { WeakSessionsRise }
{}

/// In a link of version 2 or 3 no doorbell is lost. If a poll finds no frame after its store of the
/// event, then the other's offer of that frame comes to its doorbell.
// claim: If an end wrote its event for a frame and then found none, the other's offer of this frame
//    rings, unless the end has moved on: its deliveries are not those before the frame, or it is
//    not in RUN.
pub fn weak_doorbells_ring()
    ensures { WeakDoorbellsRing }
{}

/// A doorbell doesn't overtake its index. A poll that follows the doorbell of an offer finds each
/// frame accepted before the doorbell. An offer that follows the doorbell of a poll finds each
/// frame returned before the doorbell.
// claim: An end that gets the doorbell of an offer, and then looks, finds all frames accepted
//    before it. After the doorbell of a poll its offer finds all frames returned before it.
pub fn doorbells_follow_indexes()
    ensures { DoorbellsFollowIndexes }
{}

/// For all values that its loads give, one honest end keeps its own invariant and stores to its own
/// words alone. It stays refused until a reset.
// claim: An honest end, whatever its loads return, keeps its own invariant, makes permitted
//    accesses, stores to its own words alone, and keeps a refusal until a reset.
pub fn ends_are_safe()
    ensures { EndsAreSafe }
{}

/// Two honest ends reach by a weak run all states that they reach over sequentially consistent
/// memory.
// claim: Every state that two honest ends reach over sequentially consistent memory is reached over
//    the weak memory.
pub fn sequential_runs_are_weak()
    ensures { SequentialRunsAreWeak }
{}

/// Each run of two honest ends over x86-TSO, with a store buffer for each end, is a weak run.
// claim: Each run of two honest ends over x86-TSO is a run over the weak memory.
pub fn store_buffer_runs_are_weak()
    ensures { StoreBufferRunsAreWeak }
{}

/// A weak run may continue by a load of the word as it was at any moment of the other from the
/// end's view on.
// claim: A run over the weak memory may continue by a load of the word as it was at any moment of
//    the other from the end's view on.
pub fn loads_may_be_stale()
    ensures { LoadsMayBeStale }
{}

/// A worked weak run: each of two ends offers a frame, and neither poll finds the other's frame. No
/// order of their actions is sequentially consistent.
// claim: There is a run over the weak memory in which both ends publish a frame and then load the
//    other's available index as it was before. No order of its actions is sequentially consistent.
pub fn both_looks_may_be_stale()
    ensures { BothLooksMayBeStale }
{}
