//! The view of the holder of a range of peers.
ghost use Rattle.std.specs.Prelude.{List, ℕ};
ghost use Rattle.std.specs.Borrow.{ftrue};
ghost use Rattle.shared_words.specs.Actions.{Action};
ghost use Rattle.shared_words.specs.DerivedStates.{CallAccess, MemoryOp};

use std::marker::Model;

/// The actions of each peer of a range that begins with `from`. No value of it is made.
pub struct View {
    pub ghost from: { ℕ },
    pub ghost lists: { List (List (Action (MemoryOp CallAccess))) },
}

impl Model for View {
    ghost also_owns = { λ _. ftrue };
}
