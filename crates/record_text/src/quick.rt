//! Lines in their common spelling: a word and numbers of 32 bits, each read once from left to
//! right, without the table of forms. A line that isn't found here is read by the table.
ghost use Rattle.std.specs.Prelude.{◌≡◌, ◌<◌, ◌^◌, ◌∷◌, ◌++◌, [], IfSome, decimal};
ghost use Rattle.line_format.specs.Forms.{line_of};
ghost use Rattle.record_text.specs.Quick.{IsLineOf};

use lawful_history::Line;

/// The number of 32 bits in front of these bytes, and the bytes after its digits. There is none if
/// it isn't in its one spelling.
fn number_in_front(bytes: &[u8]) -> Option<(u32, &[u8])>
    ensures { IfSome result (λ p. bytes.now ≡ decimal p.0 ++ p.1.now) }
{
    let mut number: u64 = 0;
    let mut at = 0;
    while at < bytes.len() && bytes[at].is_ascii_digit() {
        number = number * 10 + u64::from(bytes[at] - b'0');
        if number > u64::from(u32::MAX) {
            return None;
        }
        at += 1;
    }
    if at == 0 {
        return None;
    }
    if bytes[0] == b'0' && at > 1 {
        return None;
    }
    let (_, rest) = bytes.split_at(at);
    Some((number as u32, rest))
}

/// The bytes after a space.
#[inline(always)]
fn after_space(bytes: &[u8]) -> Option<&[u8]>
    ensures { IfSome result (λ rest. bytes.now ≡ 32 ∷ rest.now) }
{
    let [space, rest @ ..] = bytes else {
        return None;
    };
    if *space != b' ' {
        return None;
    }
    Some(rest)
}

/// The number in front of a space, and the bytes after that.
fn number_before_space(bytes: &[u8]) -> Option<(u32, &[u8])>
    ensures { IfSome result (λ p. bytes.now ≡ decimal p.0 ++ 32 ∷ p.1.now) }
{
    let (number, rest) = number_in_front(bytes)?;
    let rest = after_space(rest)?;
    Some((number, rest))
}

/// The number that these bytes are.
fn whole_number(bytes: &[u8]) -> Option<u32>
    ensures { IfSome result (λ number. bytes.now ≡ decimal number) }
{
    let (number, rest) = number_in_front(bytes)?;
    if !rest.is_empty() {
        return None;
    }
    Some(number)
}

/// The bytes after a word and a space, if the line begins with them.
#[inline(always)]
fn after_word<'a>(word: &[u8], line: &'a [u8]) -> Option<&'a [u8]>
    ensures { IfSome result (λ rest. line.now ≡ word.now ++ 32 ∷ rest.now) }
{
    if line.len() < word.len() {
        return None;
    }
    let (front, rest) = line.split_at(word.len());
    if front != word {
        return None;
    }
    after_space(rest)
}

/// The number of a line of this word and a number.
#[inline(always)]
fn one(word: &[u8], line: &[u8]) -> Option<u32>
    ensures { IfSome result (λ number. line.now ≡ line_of (word.now ∷ decimal number ∷ [])) }
{
    whole_number(after_word(word, line)?)
}

/// The numbers of a line of this word and two numbers.
#[inline(always)]
fn two(word: &[u8], line: &[u8]) -> Option<(u32, u32)>
    ensures { IfSome result (λ p. line.now ≡ line_of (word.now ∷ decimal p.0 ∷ decimal p.1 ∷ [])) }
{
    let (first, rest) = number_before_space(after_word(word, line)?)?;
    let second = whole_number(rest)?;
    Some((first, second))
}

/// The numbers of a line of this word and three numbers.
#[inline(always)]
fn three(word: &[u8], line: &[u8]) -> Option<(u32, u32, u32)>
    ensures { IfSome result (λ p. line.now ≡ line_of (word.now ∷ decimal p.0 ∷ decimal p.1 ∷ decimal p.2 ∷ [])) }
{
    let (first, rest) = number_before_space(after_word(word, line)?)?;
    let (second, rest) = number_before_space(rest)?;
    let third = whole_number(rest)?;
    Some((first, second, third))
}

/// A read, a reclaim or a return.
fn line_of_r(line: &[u8]) -> Option<Line>
    ensures { IfSome result (λ found. IsLineOf found line.now) }
{
    if let Some((peer, word, value)) = three(b"r", line) {
        return Some(Line::Read { peer, word, value });
    }
    if let Some((peer, count)) = two(b"reclaim", line) {
        return Some(Line::Reclaim { peer, count });
    }
    let peer = one(b"return", line)?;
    Some(Line::Return { peer })
}

/// A state, what was seen of one, or the mark of a session.
fn line_of_s(line: &[u8]) -> Option<Line>
    ensures { IfSome result (λ found. IsLineOf found line.now) }
{
    if let Some((peer, value)) = two(b"s", line) {
        return Some(Line::State { peer, value });
    }
    if let Some((peer, value)) = two(b"saw", line) {
        return Some(Line::Saw { peer, value });
    }
    let (peer, opened, other) = three(b"session", line)?;
    Some(Line::Session {
        peer,
        opened,
        other,
    })
}

/// A doorbell, a denied write, or the end of a poll.
fn line_of_d(line: &[u8]) -> Option<Line>
    ensures { IfSome result (λ found. IsLineOf found line.now) }
{
    if let Some((peer, target, vector)) = three(b"d", line) {
        return Some(Line::Doorbell {
            peer,
            target,
            vector,
        });
    }
    if let Some((peer, word)) = two(b"denied", line) {
        return Some(Line::Denied { peer, word });
    }
    let peer = one(b"done", line)?;
    Some(Line::Done { peer })
}

/// An interrupt, or a turn without a step.
fn line_of_i(line: &[u8]) -> Option<Line>
    ensures { IfSome result (λ found. IsLineOf found line.now) }
{
    if let Some((peer, vector)) = two(b"i", line) {
        return Some(Line::Interrupt { peer, vector });
    }
    let peer = one(b"idle", line)?;
    Some(Line::Idle { peer })
}

/// A look, or an interrupt that was lost.
fn line_of_l(line: &[u8]) -> Option<Line>
    ensures { IfSome result (λ found. IsLineOf found line.now) }
{
    if let Some((peer, count)) = two(b"look", line) {
        return Some(Line::Look { peer, count });
    }
    let (peer, vector) = two(b"lost", line)?;
    Some(Line::Lost { peer, vector })
}

/// A write.
fn line_of_w(line: &[u8]) -> Option<Line>
    ensures { IfSome result (λ found. IsLineOf found line.now) }
{
    let (peer, word, value) = three(b"w", line)?;
    Some(Line::Write { peer, word, value })
}

/// The end of a call.
fn line_of_o(line: &[u8]) -> Option<Line>
    ensures { IfSome result (λ found. IsLineOf found line.now) }
{
    let peer = one(b"over", line)?;
    Some(Line::Over { peer })
}

/// The history line of a common word and its numbers.
pub fn quick_line(line: &[u8]) -> Option<Line>
    ensures { IfSome result (λ found. IsLineOf found line.now) }
{
    let [first, ..] = line else {
        return None;
    };
    match *first {
        b'r' => line_of_r(line),
        b'w' => line_of_w(line),
        b'i' => line_of_i(line),
        b's' => line_of_s(line),
        b'd' => line_of_d(line),
        b'o' => line_of_o(line),
        b'l' => line_of_l(line),
        _ => None,
    }
}
