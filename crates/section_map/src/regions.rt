//! A region as words. Every peer may read every word, and may write the words that the map allows.
ghost use Rattle.std.specs.Prelude.{◌≡◌, ◌<◌, ◌≤◌, ◌↔◌, IfOk, IfErr, OnOk, IsTrue, Some, replicate, slice_get, slice_set, slice_index};
ghost use Rattle.section_map.specs.Geometry.{Words, IsRegion, word_count};
ghost use Rattle.section_map.specs.MayWrite.{MayWrite};

use super::sizes::Geometry;
use ivs_base::NoMemory;
use std::alloc::Global;
use std::marker::Model;
use thiserror::Error;

/// The error of a read of a word past the region.
#[derive(Clone, Copy, Debug, PartialEq, Eq, Error)]
#[error("word {word} is past the region")]
pub struct Outside {
    /// The word that was to be read.
    pub word: u32,
}

/// The error of a write of a word that the peer may not write.
#[derive(Clone, Copy, Debug, PartialEq, Eq, Error)]
#[error("peer {peer} may not write word {word}")]
pub struct Denied {
    /// The peer that was to write.
    pub peer: u32,
    /// The word that was to be written.
    pub word: u32,
}

/// The words of a shared region, numbered from 0 at its base.
#[derive(Debug, Drop)]
pub struct Region {
    words: Vec<u32>,
    geometry: Geometry,
}

impl Model for Region {
    ghost use Rattle.section_map.specs.Geometry.{Words, IsRegion};

    ghost Value = { Words };

    ghost view = { λ r. record { words = r.words.items; shape = r.geometry } };

    ghost invariant = { λ r. IsRegion (record { words = r.words.items; shape = r.geometry }) };
}

impl Region {
    /// Returns a region of this geometry with all words 0. Returns `Err(NoMemory)` if the
    /// allocation fails.
    // claim each region: Every region has as many words as its geometry.
    pub fn new(alloc: Global, geometry: &Geometry) -> Result<Region, NoMemory>
        ensures zero { IfOk result
            (λ r. r ≡ record { words = replicate (word_count geometry.now) 0; shape = geometry.now }) }
        ensures region { IfOk result IsRegion }
    {
        let words = vec![in alloc; 0; geometry.words() as usize]?;
        Ok(Region {
            words,
            geometry: *geometry,
        })
    }

    /// Returns the word as `peer` reads it. Returns `Err(Outside)` exactly if the word is past the
    /// region.
    // claim inside, outside with Region::new.zero: `Outside` is returned exactly for a word past
    //    the region; a new region has all words 0.
    pub fn read(&self, peer: u32, word: u32) -> Result<u32, Outside>
        requires { peer < self.now.shape.peers }
        ensures inside { IfOk result (λ value. slice_get self.now.words word ≡ Some value) }
        ensures outside { IfErr result (λ e. (word_count self.now.shape ≤ word) × (e ≡ record { word = word })) }
        ensures region { IsRegion self.now }
    {
        let _ = peer;
        match self.words.get(word as usize) {
            Some(value) => Ok(*value),
            None => Err(Outside { word }),
        }
    }

    /// Writes one word for `peer`. Returns `Err(Denied)` exactly if `may_write` is false, and then
    /// changes nothing.
    // claim allowed, written, denied, unchanged: A write changes one word, exactly if the peer may
    //    write it; otherwise nothing changes.
    pub fn write(&mut self, peer: u32, word: u32, value: u32) -> Result<(), Denied>
        requires { peer < self.old.shape.peers }
        ensures allowed { OnOk result (MayWrite self.old.shape peer word) }
        ensures written { OnOk result (self.new ≡ record self.old { words = slice_set self.old.words word value }) }
        ensures denied { IfErr result (λ e. (¬ MayWrite self.old.shape peer word) ×
            (e ≡ record { peer = peer; word = word })) }
        ensures unchanged { IfErr result (λ _. self.new ≡ self.old) }
        ensures region { IsRegion self.new }
    {
        if self.geometry.may_write(peer, word) {
            self.words[word as usize] = value;
            Ok(())
        } else {
            Err(Denied { peer, word })
        }
    }

    /// Sets the peer's word of the State Table, and returns whether the value changed. Only the
    /// device calls this.
    // claim written, changed: The device writes a peer's State word, and the answer is whether the
    //    value changed.
    pub fn set_state(&mut self, peer: u32, value: u32) -> bool
        requires { peer < self.old.shape.peers }
        ensures written { self.new ≡ record self.old { words = slice_set self.old.words peer value } }
        ensures changed { IsTrue result ↔ ¬ (slice_index self.old.words peer ≡ value) }
        ensures region { IsRegion self.new }
    {
        let state = &mut self.words[peer as usize];
        let changed = *state != value;
        *state = value;
        changed
    }
}
