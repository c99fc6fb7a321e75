//! Session words, and the reset of a running peer.
ghost use Rattle.std.specs.Prelude.{◌≡◌, ◌<◌, ◌≤◌, ◌+◌, true};
ghost use Rattle.call_grammar.specs.Places.{WritingState};
ghost use Rattle.shared_words.specs.RunSetups.{honest_of};
ghost use Rattle.shared_words.specs.Actions.{accessed};
ghost use Rattle.shared_words.specs.DerivedStates.{numbered, carried, restarted};
ghost use Rattle.shared_words.specs.Passes.{IsFirstIn, state_in, added};

use crate::rule::{LoadsNumber, Resets, StoresNumber};
use crate::words::{Pass, Words};

/// A session word that a link peer stores or loads.
#[derive(Clone, Copy, Debug, PartialEq, Eq)]
pub enum SessionWord {
    /// Its own, before its State step with 2.
    Own,
    /// The other's, before its State step with 3.
    Others,
}

/// The index of a link peer's session word. The session words are the last two of all words.
fn session_word(words: &Words, peer: u32) -> usize
    requires { (peer < 2) × (2 ≤ words.now.shared.table_id.words) }
    ensures { result + 2 ≡ words.now.shared.table_id.words + peer }
{
    words.word_count() - 2 + peer as usize
}

/// Stores in the session word of an honest peer the number of the session that it opens next, right
/// before its State step with 2.
pub fn store_session(words: &Words, pass: &mut Pass, me: u32, number: u32)
    requires honest { honest_of words.now.shared.key me ≡ true }
    requires place { (state_in words.now.shared.key me pass.old).place ≡ WritingState 2 }
    requires number { number ≡ (state_in words.now.shared.key me pass.old).numbers.log.opened + 1 }
    requires of { IsFirstIn words.now.shared.table_id words.now.shared.key me pass.old }
    ensures { pass.new ≡ added pass.old (accessed (numbered number)) }
{
    let word = session_word(words, me);
    words
        .shared
        .store::<StoresNumber>(&mut pass.seat, word, u64::from(number));
}

/// Loads the other's session word, right before the State step with 3 of an honest peer.
pub fn load_session(words: &Words, pass: &mut Pass, me: u32) -> u32
    requires honest { honest_of words.now.shared.key me ≡ true }
    requires place { (state_in words.now.shared.key me pass.old).place ≡ WritingState 3 }
    requires of { IsFirstIn words.now.shared.table_id words.now.shared.key me pass.old }
    ensures { pass.new ≡ added pass.old (accessed (carried result)) }
{
    let word = session_word(words, 1 - me);
    words.shared.load::<LoadsNumber>(&mut pass.seat, word) as u32
}

/// Resets the device of the pass's first peer by a store of 0 in its state word. After that no call
/// is open.
pub fn reset(words: &Words, pass: &mut Pass, me: u32)
    requires of { IsFirstIn words.now.shared.table_id words.now.shared.key me pass.old }
    ensures { pass.new ≡ added pass.old (accessed restarted) }
{
    words.shared.store::<Resets>(&mut pass.seat, me as usize, 0);
}
