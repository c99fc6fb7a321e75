//! The forms of lines as docs/FORMATS.md writes them, and the ranges of their numbers.

use frame_bridge::MOST_ROUNDS;
use frame_capture::MOST_ACTS;
use pci_space::{MOST_VECTORS, SPACE_LEN};
use section_map::PAGE;

/// The lines of a text, for a reader of its faults.
#[derive(Clone, Copy, Debug, PartialEq, Eq)]
pub enum Grammar {
    Scenario,
    History,
    Ports,
    Bridge,
}

/// The forms of the lines of a scenario: words as they are there, and a name in capitals for each
/// other field.
fn scenario_shapes() -> &'static [&'static str] {
    &[
        "ivshm V",
        "peers N",
        "table B",
        "common B",
        "out B",
        "mtu M",
        "irq msix V",
        "irq intx",
        "peer P honest",
        "peer P hostile",
        "begin",
        "tick P",
        "offer P HEX",
        "poll P",
        "stop P",
        "auto P EXPECT",
        "storm P SEED",
        "turn P K",
        "reset P",
        "poke P WORD VALUE",
        "peek P WORD",
        "set P VALUE",
        "ring P TARGET VECTOR",
        "cfg P r OFFSET WIDTH",
        "cfg P w OFFSET WIDTH VALUE",
        "mmio P r OFFSET",
        "mmio P w OFFSET VALUE",
        "msix P r OFFSET",
        "msix P w OFFSET VALUE",
        "lose P",
        "again P VECTOR",
        "end",
    ]
}

/// The forms of the lines of a history: words as they are there, and a name in capitals for each
/// other field.
fn history_shapes() -> &'static [&'static str] {
    &[
        "r P W V",
        "w P W V",
        "denied P W",
        "s P V",
        "d P T N",
        "i P N",
        "lost P N",
        "x P",
        "idle P",
        "cr P OFFSET WIDTH V",
        "cw P OFFSET WIDTH V",
        "mr P OFFSET V",
        "mw P OFFSET V",
        "tr P OFFSET V",
        "tw P OFFSET V",
        "saw P V",
        "reclaim P M",
        "look P M",
        "full P",
        "done P",
        "over P",
        "down P",
        "accept P HEX",
        "deliver P HEX",
        "return P",
        "refuse P AvailIndex V",
        "refuse P AvailEntry V",
        "refuse P DescAddress V",
        "refuse P DescLength V",
        "refuse P DescFlags V",
        "refuse P UsedIndex V",
        "refuse P UsedId V",
        "session P A B",
        "end COUNT",
    ]
}

/// The forms of the lines of a schedule of sampling ports: words as they are there, and a name in
/// capitals for each other field.
fn ports_shapes() -> &'static [&'static str] {
    &[
        "ports V",
        "peers N",
        "out B",
        "message M",
        "peer P honest",
        "peer P hostile",
        "begin",
        "publish P HEX",
        "sample P FROM",
        "turn P K",
        "poke P WORD VALUE",
        "end",
    ]
}

/// The forms of the lines of a run of a bridge: words as they are there, and a name in capitals for
/// each other field.
fn bridge_shapes() -> &'static [&'static str] {
    &[
        "bridge V",
        "ports K",
        "rounds R",
        "begin",
        "frame PORT HEX",
        "end",
    ]
}

/// The forms of the lines of a text.
pub fn shapes(grammar: Grammar) -> &'static [&'static str] {
    match grammar {
        Grammar::Scenario => scenario_shapes(),
        Grammar::History => history_shapes(),
        Grammar::Ports => ports_shapes(),
        Grammar::Bridge => bridge_shapes(),
    }
}

/// The last number of a 32-bit field.
const U32: u64 = u32::MAX as u64;

/// The first and the last number of a field of a history line.
fn history_range(word: &[u8], name: &[u8]) -> (u64, u64) {
    match (word, name) {
        (b"end", _) | (b"refuse", b"V") => (0, u64::MAX),
        _ => (0, U32),
    }
}

/// The first and the last number that a line of a head or of a bridge's text has.
fn head_range(word: &[u8], name: &[u8]) -> Option<(u64, u64)> {
    match word {
        b"ivshm" => Some((1, 3)),
        b"peers" => Some((2, 8)),
        b"ports" if name == b"K".as_slice() => Some((2, 8)),
        b"ports" | b"bridge" => Some((1, 1)),
        b"rounds" => Some((0, MOST_ROUNDS)),
        b"irq" => Some((1, u64::from(MOST_VECTORS))),
        b"table" | b"mtu" | b"message" => Some((0, U32)),
        _ => None,
    }
}

/// The first and the last number of a field of an act.
fn act_range(word: &[u8], name: &[u8]) -> (u64, u64) {
    match name {
        b"K" => (0, MOST_ACTS),
        b"OFFSET" if word == b"cfg".as_slice() => (0, SPACE_LEN as u64 - 1),
        b"OFFSET" => (0, u64::from(PAGE) - 1),
        b"WIDTH" => (1, 4),
        b"VECTOR" if word == b"again".as_slice() => (0, u64::from(MOST_VECTORS) - 1),
        b"TARGET" | b"VECTOR" => (0, u64::from(u16::MAX)),
        b"WORD" | b"VALUE" => (0, U32),
        _ => (0, u64::MAX),
    }
}

/// The first and the last number of a field, by the first word of its line and its name in the
/// form.
pub fn range_of(grammar: Grammar, word: &[u8], name: &[u8]) -> (u64, u64) {
    if grammar == Grammar::History {
        return history_range(word, name);
    }
    match head_range(word, name) {
        Some(range) => range,
        None => act_range(word, name),
    }
}

/// The lines of the head before those of the peers, in their order.
pub fn head(grammar: Grammar) -> &'static [&'static str] {
    match grammar {
        Grammar::Scenario => &[
            "`ivshm V`",
            "`peers N`",
            "`table B`",
            "`common B`",
            "`out B`",
            "`mtu M`",
            "`irq msix V` or `irq intx`",
        ],
        Grammar::Ports => &["`ports 1`", "`peers N`", "`out B`", "`message M`"],
        Grammar::Bridge => &["`bridge 1`", "`ports K`", "`rounds R`"],
        Grammar::History => &[],
    }
}
