//! Single accesses to the words of the region.
ghost use Rattle.std.specs.Prelude.{◌≡◌, ◌<◌};
ghost use Rattle.split_ring.specs.declared.steps.Access.{Access};
ghost use Rattle.section_map.specs.Geometry.{word_count};
ghost use Rattle.section_map.specs.MayWrite.{MayWrite};
ghost use Rattle.shared_words.specs.DerivedStates.{call_access, called};
ghost use Rattle.shared_words.specs.Actions.{accessed};
ghost use Rattle.shared_words.specs.Passes.{IsFilled, IsFirstIn, MayAccess, added};

use crate::rule::{Begins, Reads, Sets, Writes};
use crate::words::{Pass, Words};

/// Loads a word. For an honest peer the load begins the call, or is the next access of the open
/// one.
// claim list with store, set_state, store_session, load_session, reset, ring, look, clear.list: A
//    single action adds exactly one entry to the list of the pass's first peer, with what it found.
//    An access of an honest peer is the next one of its calls.
pub fn load<B: Begins>(words: &Words, pass: &mut Pass, word: u32) -> u32
    requires next { MayAccess words.now.shared.key pass.old B.call (Access.Read word) }
    requires of { IsFilled words.now.shared.table_id words.now.shared.key pass.old }
    requires word { word < word_count words.now.shared.key.geometry }
    ensures list { pass.new ≡ added pass.old (accessed (called (call_access B.call (Access.Read word) result))) }
{
    words.shared.load::<Reads<B>>(&mut pass.seat, word as usize) as u32
}

/// Stores in a word that the pass's first peer may write.
pub fn store<B: Begins>(words: &Words, pass: &mut Pass, word: u32, value: u32)
    requires next { MayAccess words.now.shared.key pass.old B.call (Access.Write word value) }
    requires of { IsFilled words.now.shared.table_id words.now.shared.key pass.old }
    requires own { MayWrite words.now.shared.key.geometry pass.old.from word }
    ensures { pass.new ≡ added pass.old (accessed (called (call_access B.call (Access.Write word value) 0))) }
{
    words
        .shared
        .store::<Writes<B>>(&mut pass.seat, word as usize, value as u64);
}

/// Stores in the state word of the pass's first peer.
pub fn set_state<B: Begins>(words: &Words, pass: &mut Pass, peer: u32, state: u32)
    requires next { MayAccess words.now.shared.key pass.old B.call (Access.State state) }
    requires of { IsFirstIn words.now.shared.table_id words.now.shared.key peer pass.old }
    ensures { pass.new ≡ added pass.old (accessed (called (call_access B.call (Access.State state) 0))) }
{
    words
        .shared
        .store::<Sets<B>>(&mut pass.seat, peer as usize, state as u64);
}
