//! The names of the region's words, and the texts of their values.

use scenario_text::Scenario;
use section_map::Section;
use split_ring::Queue;
use std::alloc::{AllocError, Global};

/// The contents of a word: one number, a number in the high half next to flags, two numbers, or
/// four bytes of the data area.
#[derive(Clone, Copy, Debug, PartialEq, Eq)]
enum Halves {
    Whole,
    Index,
    Two,
    Bytes,
}

/// Returns the contents of the word of a section.
fn halves_of(queue: &Queue, word: u32) -> Halves {
    let index = queue.avail_word();
    if word == index || word == queue.used_word() {
        Halves::Index
    } else if index < word && word < queue.used_event_word() {
        Halves::Two
    } else if word >= queue.payload() / 4 {
        Halves::Bytes
    } else {
        Halves::Whole
    }
}

/// Returns the text of the value of a word of a section. An index is shown without its flags if
/// they are 0. Bytes are shown in hexadecimal, in their order.
fn halves_text(alloc: Global, halves: Halves, value: u32) -> Result<String, AllocError> {
    let low = value % 65_536;
    let high = value / 65_536;
    match halves {
        Halves::Index if low == 0 => format!(in alloc; "{high}"),
        Halves::Index => format!(in alloc; "{high}, flags {low}"),
        Halves::Two => format!(in alloc; "{low}, {high}"),
        Halves::Bytes => hex::encode(alloc, &value.to_le_bytes()),
        Halves::Whole => format!(in alloc; "{value}"),
    }
}

/// Returns the name of a word of a descriptor.
fn descriptor_name(alloc: Global, word: u32) -> Result<String, AllocError> {
    let descriptor = word / 4;
    let field = match word % 4 {
        0 => "address low",
        1 => "address high",
        2 => "length",
        _ => "flags",
    };
    format!(in alloc; "descriptor {descriptor} {field}")
}

/// Returns the name of a word of a used element. `word` counts from the first element.
fn element_name(alloc: Global, word: u32) -> Result<String, AllocError> {
    let element = word / 2;
    let field = if word % 2 == 0 { "id" } else { "length" };
    format!(in alloc; "used element {element} {field}")
}

/// Returns the name of a word of the data area. `word` counts from its first word.
fn data_name(alloc: Global, queue: &Queue, word: u32) -> Result<String, AllocError> {
    let words = (queue.slot() / 4).max(1);
    let slot = word / words;
    if slot < queue.limit() {
        let place = word % words;
        format!(in alloc; "frame {slot} word {place}")
    } else {
        format!(in alloc; "data word {word}")
    }
}

/// Returns the name of a word of an available entry, or of another word of the rings.
fn ring_name(alloc: Global, queue: &Queue, word: u32) -> Result<String, AllocError> {
    let index = queue.avail_word();
    let used = queue.used_word();
    if word == index {
        format!(in alloc; "available index")
    } else if index < word && word < queue.used_event_word() {
        let entry = 2 * u64::from(word - index - 1);
        let next = entry + 1;
        format!(in alloc; "entry {entry}, {next}")
    } else if word == queue.used_event_word() {
        format!(in alloc; "used event")
    } else if word == used {
        format!(in alloc; "used index")
    } else if used < word && word < queue.avail_event_word() {
        element_name(alloc, word - used - 1)
    } else if word == queue.avail_event_word() {
        format!(in alloc; "available event")
    } else {
        format!(in alloc; "free word {word}")
    }
}

/// Returns the name of a word of an output section, counted from its start.
fn field_name(alloc: Global, queue: &Queue, word: u32) -> Result<String, AllocError> {
    let payload = queue.payload() / 4;
    if word < queue.avail_word() {
        descriptor_name(alloc, word)
    } else if word < payload {
        ring_name(alloc, queue, word)
    } else {
        data_name(alloc, queue, word - payload)
    }
}

/// Returns the offset of a word in its output section, in words, and the section's peer. Returns
/// `None` if the word is in no output section.
fn place_in_section(scenario: &Scenario, word: u32) -> Option<(u32, u32)> {
    let geometry = &scenario.geometry;
    if word >= geometry.words() {
        return None;
    }
    let Section::Output(owner) = geometry.section_of(word) else {
        return None;
    };
    if owner >= geometry.peers() {
        return None;
    }
    Some((owner, word.saturating_sub(geometry.section_start(owner))))
}

/// Returns the name of a word outside of the output sections.
fn common_name(alloc: Global, scenario: &Scenario, word: u32) -> Result<String, AllocError> {
    let geometry = &scenario.geometry;
    let table = geometry.table_words();
    if word < geometry.peers() {
        format!(in alloc; "state of {word}")
    } else if word < table {
        format!(in alloc; "table word {word}")
    } else if word - table < geometry.common_words() {
        let place = word - table;
        format!(in alloc; "common word {place}")
    } else {
        format!(in alloc; "word {word}")
    }
}

/// Returns the name of a word of the region for a peer. The name of a word of the peer's own
/// section has no peer number.
pub fn word_name(
    alloc: Global,
    scenario: &Scenario,
    peer: u32,
    word: u32,
) -> Result<String, AllocError> {
    let Some((owner, place)) = place_in_section(scenario, word) else {
        return common_name(alloc, scenario, word);
    };
    let name = field_name(alloc, &scenario.queue, place)?;
    if owner == peer {
        return Ok(name);
    }
    format!(in alloc; "{name} of {owner}")
}

/// Returns the text of the value of a word of the region.
pub fn value_text(
    alloc: Global,
    scenario: &Scenario,
    word: u32,
    value: u32,
) -> Result<String, AllocError> {
    let halves = match place_in_section(scenario, word) {
        Some((_, place)) => halves_of(&scenario.queue, place),
        None => Halves::Whole,
    };
    halves_text(alloc, halves, value)
}
