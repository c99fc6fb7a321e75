//! The sizes of a region, and the section of each word.
ghost use Rattle.std.specs.Prelude.{◌≡◌, ◌+◌, ◌<◌, ◌≤◌, ◌↔◌, IfOk, IfErr, IsTrue};
ghost use Rattle.section_map.specs.Geometry.{Shape, IsShape, section_start, word_count};
ghost use Rattle.section_map.specs.MayWrite.{MayWrite, IsSectionOf};
ghost use Rattle.section_map.specs.Faults.{IsFirstFault, IsPages, IsSomePages, shape_of};

use crate::limits::{LARGEST_REGION, LEAST_PEERS, MOST_PEERS, PAGE};
use std::marker::Model;
use thiserror::Error;

/// A part of a region whose size is an argument of `new`.
#[derive(Clone, Copy, Debug, PartialEq, Eq)]
pub enum Part {
    /// The State Table.
    Table,
    /// The section that every peer may write.
    Common,
    /// Each peer's output section.
    Out,
}

/// The section of a region in which a word is.
#[derive(Clone, Copy, Debug, PartialEq, Eq)]
pub enum Section {
    /// The State Table, which no peer may write.
    Table,
    /// The common section, which every peer may write.
    Common,
    /// The output section of this peer, which it alone may write.
    Output(u32),
}

/// The reason for which sizes make no region. All sizes are in bytes.
#[derive(Clone, Copy, Debug, PartialEq, Eq, Error)]
pub enum GeometryFault {
    /// The number of peers isn't 2 to 65,536.
    #[error("{0} peers: a region serves 2 to 65536")]
    BadPeers(u32),
    /// The size isn't a whole number of pages of 4,096 bytes, or it is 0 and must not be.
    #[error("the {part:?} size {size} isn't whole pages of 4096 bytes")]
    BadPage { part: Part, size: u64 },
    /// The State Table is too short for a word of each peer.
    #[error("the table needs {need} bytes and has {found}")]
    TableTooSmall { need: u64, found: u32 },
    /// The region has more than 16,777,216 bytes.
    #[error("{bytes} bytes are more than a region has")]
    TooLarge { bytes: u128 },
}

/// The number of peers of a region, and the sizes of its parts. From the base upwards these are the
/// State Table, the common section, and the output sections of peer 0, peer 1 and so on.
#[derive(Clone, Copy, Debug, PartialEq, Eq)]
pub struct Geometry {
    peers: u32,
    table: u32,
    common: u32,
    out: u32,
}

impl Model for Geometry {
    ghost use Rattle.section_map.specs.Geometry.{Shape, IsShape};

    ghost Value = { Shape };

    ghost view = { λ g. record { peers = g.peers; table = g.table; common = g.common; out = g.out } };

    ghost invariant = { λ g. IsShape (record { peers = g.peers; table = g.table; common = g.common; out = g.out }) };

    ghost inverse = { λ g. record { peers = g.peers; table = g.table; common = g.common; out = g.out } };
}

/// Whether the size is a whole number of pages.
fn is_pages(size: u64) -> bool
    ensures { IsTrue result ↔ IsPages size }
{
    size % u64::from(PAGE) == 0
}

/// Whether the size is a whole number of pages, and at least one.
fn is_some_pages(size: u64) -> bool
    ensures { IsTrue result ↔ IsSomePages size }
{
    size > 0 && is_pages(size)
}

impl Geometry {
    /// Returns the geometry of these sizes, all in bytes except the number of peers. The error is
    /// the first test that fails, with the number that is wrong.
    // claim made, shape, pages, fault: A geometry is made exactly if its sizes are right; otherwise
    //    the first fault is returned, with its number.
    pub fn new(peers: u32, table: u32, common: u64, out: u64) -> Result<Geometry, GeometryFault>
        ensures made { IfOk result (λ g. g ≡ shape_of peers table common out) }
        ensures shape { IfOk result (λ g. IsShape g) }
        ensures pages { IfOk result (λ _. IsSomePages table × IsPages common × IsSomePages out) }
        ensures fault { IfErr result (IsFirstFault peers table common out) }
    {
        if !(LEAST_PEERS..=MOST_PEERS).contains(&peers) {
            return Err(GeometryFault::BadPeers(peers));
        }
        if !is_some_pages(u64::from(table)) {
            return Err(GeometryFault::BadPage {
                part: Part::Table,
                size: u64::from(table),
            });
        }
        if !is_pages(common) {
            return Err(GeometryFault::BadPage {
                part: Part::Common,
                size: common,
            });
        }
        if !is_some_pages(out) {
            return Err(GeometryFault::BadPage {
                part: Part::Out,
                size: out,
            });
        }
        let need = 4 * u64::from(peers);
        if u64::from(table) < need {
            return Err(GeometryFault::TableTooSmall { need, found: table });
        }
        let bytes = u128::from(table) + u128::from(common) + u128::from(peers) * u128::from(out);
        if bytes > u128::from(LARGEST_REGION) {
            return Err(GeometryFault::TooLarge { bytes });
        }
        Ok(Geometry {
            peers,
            table: table / 4,
            common: (common / 4) as u32,
            out: (out / 4) as u32,
        })
    }

    /// Returns the number of peers that the region serves.
    // claim value with Geometry::table_words.value, Geometry::common_words.value,
    //    Geometry::out_words.value, Geometry::words.value, Geometry::section_start.value,
    //    Geometry::section_start.within: Each size, and the first word of each output section, is
    //    that of the geometry.
    pub fn peers(&self) -> u32
        ensures value { result ≡ self.now.peers }
        ensures shape { IsShape self.now }
    {
        self.peers
    }

    /// Returns the number of words of the State Table.
    pub fn table_words(&self) -> u32
        ensures value { result ≡ self.now.table }
        ensures shape { IsShape self.now }
    {
        self.table
    }

    /// Returns the number of words of the common section, 0 if there is none.
    pub fn common_words(&self) -> u32
        ensures value { result ≡ self.now.common }
        ensures shape { IsShape self.now }
    {
        self.common
    }

    /// Returns the number of words of each output section.
    pub fn out_words(&self) -> u32
        ensures value { result ≡ self.now.out }
        ensures shape { IsShape self.now }
    {
        self.out
    }

    /// Returns the number of words of the region.
    // claim each shape: Every geometry that a call sees is one of the definition.
    pub fn words(&self) -> u32
        ensures value { result ≡ word_count self.now }
        ensures shape { IsShape self.now }
    {
        self.table + self.common + self.peers * self.out
    }

    /// Returns the first word of the output section of `peer`.
    pub fn section_start(&self, peer: u32) -> u32
        requires { peer < self.now.peers }
        ensures value { result ≡ section_start self.now peer }
        ensures within { result + self.now.out ≤ word_count self.now }
        ensures shape { IsShape self.now }
    {
        self.table + self.common + peer * self.out
    }

    /// Returns the section that holds `word`.
    // claim with sections_are_apart.one: Each word lies in the section that is returned, and in
    //    no other.
    pub fn section_of(&self, word: u32) -> Section
        requires { word < word_count self.now }
        ensures { IsSectionOf self.now word result }
    {
        let outputs = self.table + self.common;
        if word < self.table {
            Section::Table
        } else if word < outputs {
            Section::Common
        } else {
            Section::Output((word - outputs) / self.out)
        }
    }

    /// Whether `peer` may write `word`: a word of its own output section or of the common section.
    // claim: A peer may write exactly its own output section and the common section.
    pub fn may_write(&self, peer: u32, word: u32) -> bool
        requires { peer < self.now.peers }
        ensures { IsTrue result ↔ MayWrite self.now peer word }
    {
        let start = self.section_start(peer);
        (start <= word && word - start < self.out)
            || (self.table <= word && word - self.table < self.common)
    }
}
