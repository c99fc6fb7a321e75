//! Why a line is wrong at its place, or names a peer that can't do this, in words.

use crate::shapes::{Grammar, head};
use crate::texts::{FaultyText, fields_of, first_word, text_of};
use line_format::number;
use std::alloc::{AllocError, Global};

/// The line that is due at a place of the head, from 1; nothing after the head.
fn due_words(alloc: Global, text: &FaultyText, place: u64) -> Result<Option<String>, AllocError> {
    let mut left = place;
    for due in head(text.grammar) {
        if left <= 1 {
            return Ok(Some(format!(in alloc; "{due}")?));
        }
        left -= 1;
    }
    let peers = text.peers();
    if left <= peers {
        let peer = left.saturating_sub(1);
        let due = format!(in alloc; "`peer {peer} honest` or `peer {peer} hostile`")?;
        return Ok(Some(due));
    }
    if left <= peers.saturating_add(1) {
        return Ok(Some(format!(in alloc; "`begin`")?));
    }
    Ok(None)
}

/// Why a call line or `auto` comes too late after the lines before it.
fn call_words(
    alloc: Global,
    text: &FaultyText,
    number: u64,
    word: &[u8],
    peer: &[u8],
) -> Result<String, AllocError> {
    let name = text_of(word);
    let whose = text_of(peer);
    if let Some(line) = text.earlier(number, b"auto", peer) {
        if word == b"auto".as_slice() {
            return format!(in alloc;
                "line {line} is `auto {whose}` already, and it comes once at most: take this one out\n"
            );
        }
        return format!(in alloc;
            "peer {whose} chooses its calls since `auto {whose}` on line {line}: take `{name} {whose}` out\n"
        );
    }
    for call in ["tick", "offer", "poll", "stop"] {
        if let Some(line) = text.earlier(number, call.as_bytes(), peer) {
            return format!(in alloc;
                "`auto {whose}` comes before every call line of peer {whose}, and line {line} is `{call} {whose}`\n"
            );
        }
    }
    format!(in alloc; "`{name}` comes too late here\n")
}

/// Why an act, or a line of the head after `begin`, is wrong there.
fn act_words(alloc: Global, text: &FaultyText, number: u64) -> Result<String, AllocError> {
    let line = text.line(number);
    let fields = fields_of(line);
    let word = first_word(line);
    let peer: &[u8] = match fields.get(1) {
        Some(peer) => *peer,
        None => b"",
    };
    match word {
        b"auto" | b"tick" | b"poll" | b"stop" => call_words(alloc, text, number, word, peer),
        b"storm" => {
            let whose = text_of(peer);
            let line = text.earlier(number, word, peer).unwrap_or(0);
            format!(in alloc;
                "line {line} is `storm {whose}` already, and it comes once at most: take this one out\n"
            )
        }
        _ => {
            let name = text_of(word);
            format!(in alloc;
                "`{name}` belongs to the head: after `begin` come acts, and last `end`\n"
            )
        }
    }
}

/// Why the line with this number is wrong at its place.
pub fn bad_order_words(
    alloc: Global,
    text: &FaultyText,
    number: u64,
) -> Result<String, AllocError> {
    let Some(due) = due_words(alloc, text, text.place_in_head(number))? else {
        return act_words(alloc, text, number);
    };
    let name = text_of(first_word(text.line(number)));
    format!(in alloc; "`{name}` can't come here: the line {due} is due\n")
}

/// The peers for which an act is allowed, by their kind.
fn peers_of(grammar: Grammar, word: &[u8]) -> &'static str {
    match (grammar, word) {
        (Grammar::Ports, b"poke") => "a hostile peer",
        (Grammar::Ports, _) => "an honest peer",
        (_, b"tick" | b"offer" | b"poll" | b"stop" | b"auto") => {
            "an honest link peer, which is peer 0 or peer 1"
        }
        (_, b"mmio") => "a hostile peer where OFFSET is 16, the State",
        _ => "a hostile peer",
    }
}

/// Why the peer of the line with this number can't do what the line requires.
pub fn bad_peer_words(alloc: Global, text: &FaultyText, number: u64) -> Result<String, AllocError> {
    let line = text.line(number);
    let fields = fields_of(line);
    let name = text_of(first_word(line));
    let field: &[u8] = match fields.get(1) {
        Some(field) => *field,
        None => b"",
    };
    let peer = line_format::number(field).unwrap_or(0);
    let last = text.peers().saturating_sub(1);
    if peer > last {
        return format!(in alloc; "P is {peer}: a peer from 0 to {last} is due\n");
    }
    let kind = text_of(text.kind_of(peer));
    let due = peers_of(text.grammar, first_word(line));
    format!(in alloc; "`{name}` is for {due}; peer {peer} is {kind}\n")
}

/// Whether a line is a turn or a reset, or the text's end.
fn is_last_act(line: &[u8]) -> bool {
    let word = first_word(line);
    matches!(word, b"turn" | b"reset" | b"end")
}

/// The number of the first line after this one that is neither a turn nor a reset.
fn later_other(text: &FaultyText, number: u64) -> Option<u64> {
    for at in number.saturating_add(1)..=number.saturating_add(1000) {
        let line = text.line(at);
        if line.is_empty() {
            return None;
        }
        if !is_last_act(line) {
            return Some(at);
        }
    }
    None
}

/// Why a turn or a reset breaks the running form.
fn turn_words(
    alloc: Global,
    text: &FaultyText,
    at: u64,
    name: &str,
    peer: &[u8],
) -> Result<String, AllocError> {
    let whose = text_of(peer);
    if let Some(line) = later_other(text, at) {
        return format!(in alloc;
            "`turn` and `reset` lines come last, and line {line} is neither\n"
        );
    }
    if text.earlier(at, b"auto", peer).is_none() && text.earlier(at, b"storm", peer).is_none() {
        return format!(in alloc;
            "neither `auto {whose}` nor `storm {whose}` comes before `{name} {whose}`\n"
        );
    }
    format!(in alloc;
        "the `turn {whose}` and `reset {whose}` lines take turns, a turn first and last, and a peer that is reset has no line that sets its device\n"
    )
}

/// Why the act on the line with this number can't be run by peers in threads of their own.
pub fn not_running_words(
    alloc: Global,
    text: &FaultyText,
    number: u64,
) -> Result<String, AllocError> {
    let line = text.line(number);
    let fields = fields_of(line);
    let name = text_of(first_word(line));
    let peer: &[u8] = match fields.get(1) {
        Some(peer) => *peer,
        None => b"",
    };
    match first_word(line) {
        b"turn" | b"reset" => turn_words(alloc, text, number, name, peer),
        b"offer" => {
            let whose = text_of(peer);
            format!(in alloc; "no `auto {whose}` comes before this offer\n")
        }
        _ => {
            format!(in alloc;
                "`{name}` isn't in running form, whose acts are `auto`, `storm`, `offer`, `turn`, `reset`, and writes that set a peer's device\n"
            )
        }
    }
}
