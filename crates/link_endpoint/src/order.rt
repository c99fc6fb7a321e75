//! The memory order that an access needs.
ghost use Rattle.std.specs.Prelude.{◌≡◌, false};
ghost use Rattle.link_endpoint.specs.Orders.{order_of};

use split_ring::steps::WordKind;

/// The order of an access relative to the accesses before and after it.
#[derive(Clone, Copy, Debug, PartialEq, Eq)]
pub enum Order {
    /// No order: the access may reach memory earlier or later than its neighbours.
    Relaxed,
    /// A read that is ordered before all later accesses.
    Acquire,
    /// A write that is ordered after all earlier accesses.
    Release,
}

/// The order of an access, and whether a full fence is directly before or after it.
#[derive(Clone, Copy, Debug, PartialEq, Eq)]
pub struct Ordering {
    /// The order of the access itself.
    pub order: Order,
    /// Whether a full fence is directly before the access.
    pub fence_before: bool,
    /// Whether a full fence is directly after the access.
    pub fence_after: bool,
}

/// Returns `order` without a fence.
pub(crate) fn plain(order: Order) -> Ordering
    ensures { result ≡ record { order = order; fence_before = false; fence_after = false } }
{
    Ordering {
        order,
        fence_before: false,
        fence_after: false,
    }
}

/// Returns the memory order of an access of an offer or a poll: a doorbell has its own, and any
/// other access has the order of its kind of word.
pub(crate) fn order_of(rings: bool, kind: WordKind) -> Ordering
    ensures { result ≡ order_of rings kind }
{
    if rings {
        return plain(Order::Release);
    }
    match kind {
        WordKind::Plain => plain(Order::Relaxed),
        WordKind::IndexRead => plain(Order::Acquire),
        WordKind::IndexWrite => plain(Order::Release),
        WordKind::EventRead => Ordering {
            order: Order::Relaxed,
            fence_before: true,
            fence_after: false,
        },
        WordKind::EventWrite => Ordering {
            order: Order::Relaxed,
            fence_before: false,
            fence_after: true,
        },
    }
}
