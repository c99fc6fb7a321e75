//! Single actions on the words after those of the region: rings, looks and clears. `peers` is the
//! number of all peers.
ghost use Rattle.std.specs.Prelude.{◌≡◌, ◌<◌, ◌≤◌, ◌+◌, ◌*◌};
ghost use Rattle.std.specs.Int.{bit_at};
ghost use Rattle.shared_words.specs.Actions.{rang, looked, cleared};
ghost use Rattle.shared_words.specs.Interrupts.{IsOneShot, MayRing};
ghost use Rattle.shared_words.specs.Rules.{LearnsExactly, rings_at, clears, front};
ghost use Rattle.shared_words.specs.Passes.{IsFilled, added};

use crate::rule::Looks;
use crate::view::View;
use crate::words::{Pass, Words};
use atomic_table::Play;
use std::marker::Brand;

/// The index of a peer's interrupt word. The interrupt words follow those of the region. The next
/// word is the peer's Interrupt Control, and the two session words are the last of all.
fn interrupt_word(words: &Words, peers: u32, peer: u32) -> usize
    requires { (peer < peers) × (2 * peers + 2 ≤ words.now.shared.table_id.words) }
    ensures { result + 2 * peers + 2 ≡ words.now.shared.table_id.words + 2 * peer }
{
    words.word_count() - 2 - 2 * (peers as usize) + 2 * (peer as usize)
}

/// `ring`, by a play that the caller picks.
fn ring_by<M: Play<u8, View>>(words: &Words, pass: &mut Pass, peers: u32, target: u32, bit: u32)
    requires reports { LearnsExactly M.then (rings_at target bit) }
    requires of { IsFilled words.now.shared.table_id words.now.shared.key pass.old }
    requires peers { peers ≡ words.now.shared.key.geometry.peers }
    requires target { (target < peers) × (bit < 64) }
    requires may { IsOneShot words.now.shared.key target → MayRing target (front pass.old.lists) }
    ensures { pass.new ≡ added pass.old (rang target bit) }
{
    let word = interrupt_word(words, peers, target);
    words
        .shared
        .fetch_or::<M>(&mut pass.seat, word, 1u64 << bit);
}

/// Sets a bit of the target's interrupt word. A ring of a target in one-shot mode follows a clear
/// that found its bit set.
pub fn ring(words: &Words, pass: &mut Pass, peers: u32, target: u32, bit: u32)
    requires of { IsFilled words.now.shared.table_id words.now.shared.key pass.old }
    requires peers { peers ≡ words.now.shared.key.geometry.peers }
    requires target { (target < peers) × (bit < 64) }
    requires may { IsOneShot words.now.shared.key target → MayRing target (front pass.old.lists) }
    ensures { pass.new ≡ added pass.old (rang target bit) }
{
    ring_by::<Brand>(words, pass, peers, target, bit);
}

/// Swaps the interrupt word of the pass's first peer with 0, and returns its bits.
pub fn look(words: &Words, pass: &mut Pass, peers: u32, me: u32) -> u64
    requires of { IsFilled words.now.shared.table_id words.now.shared.key pass.old }
    requires peers { peers ≡ words.now.shared.key.geometry.peers }
    requires own { pass.old.from ≡ me }
    ensures { pass.new ≡ added pass.old (looked result) }
{
    let word = interrupt_word(words, peers, me);
    words.shared.swap::<Looks>(&mut pass.seat, word, 0)
}

/// `clear`, by a play that the caller picks.
fn clear_by<M: Play<u8, View>>(words: &Words, pass: &mut Pass, peers: u32, target: u32) -> u64
    requires reports { LearnsExactly M.then (clears words.now.shared.key target) }
    requires of { IsFilled words.now.shared.table_id words.now.shared.key pass.old }
    requires peers { peers ≡ words.now.shared.key.geometry.peers }
    requires target { target < peers }
    ensures list { pass.new ≡ added pass.old (cleared target result) }
    ensures may { IsOneShot words.now.shared.key target → bit_at result 0 ≡ 1 → MayRing target (front pass.new.lists) }
{
    let word = interrupt_word(words, peers, target) + 1;
    words
        .shared
        .fetch_and::<M>(&mut pass.seat, word, u64::MAX - 1)
}

/// Clears bit 0 of the target's Interrupt Control, and returns the word as it was.
// claim may: A clear that finds the bit of a one-shot target allows one ring of it.
pub fn clear(words: &Words, pass: &mut Pass, peers: u32, target: u32) -> u64
    requires of { IsFilled words.now.shared.table_id words.now.shared.key pass.old }
    requires peers { peers ≡ words.now.shared.key.geometry.peers }
    requires target { target < peers }
    ensures list { pass.new ≡ added pass.old (cleared target result) }
    ensures may { IsOneShot words.now.shared.key target → bit_at result 0 ≡ 1 → MayRing target (front pass.new.lists) }
{
    clear_by::<Brand>(words, pass, peers, target)
}
