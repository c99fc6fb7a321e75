//! The values of an end that cross to C.
ghost use Rattle.std.specs.Prelude.{◌≡◌, ◌≤◌, length};
ghost use Rattle.ivshm_c.specs.Crossing.{call_numbered, state_of, field_number, outcome_number, order_number, access_crossed, burst_crossed, bursts_crossed, publication_crossed, frame_return_crossed, refusal_crossed, note_crossed, notes_crossed, field_of, value_of, view_of, CrossingsHaveContracts};

use crate::end_state::{EndState, Outcome};
use link_endpoint::{Call, Order, Ordering};
use link_handshake::Phase;
use split_ring::{FieldName, Refused, steps};

/// An access.
///
/// - `kind` 0 is none, 1 a read of `word`, 2 a write of `value` to `word`. Kind 3 is a write of
///   `value` to the own State, and 4 a doorbell to the peer `word` by the vector `value`.
/// - `count` is the number of words of the burst of reads or writes that begins with this access,
///   or 0.
/// - `order` 0 is relaxed, 1 acquire and 2 release. A full fence is directly before or after the
///   access if that field is 1.
#[repr(C)]
#[derive(Clone, Copy)]
pub struct Access {
    pub kind: u32,
    pub word: u32,
    pub value: u32,
    pub count: u32,
    pub order: u32,
    pub fence_before: u32,
    pub fence_after: u32,
}

/// A burst of consecutive words of the region: the number of the first word, and the number of
/// words.
#[repr(C)]
#[derive(Clone, Copy)]
pub struct Burst {
    pub word: u32,
    pub count: u32,
}

/// The bursts that an offer writes before its index: the words of its frame, of the descriptor and
/// of the available entry.
#[repr(C)]
#[derive(Clone, Copy)]
pub struct Bursts {
    pub frame: Burst,
    pub descriptor: Burst,
    pub entry: Burst,
}

/// The writes that publish a frame: the bursts before its index, and the index. That is the value
/// `accepted` of the word `index`.
#[repr(C)]
#[derive(Clone, Copy)]
pub struct Publication {
    pub bursts: Bursts,
    pub index: u32,
    pub accepted: u32,
}

/// The writes that return a frame which was read as a whole. `length` is the frame's length in
/// bytes. The used element is at the word `element`: its words are `id` and 1. The used index is
/// at the word `index`, and its value is `returned`.
#[repr(C)]
#[derive(Clone, Copy)]
pub struct FrameReturn {
    pub length: u32,
    pub element: u32,
    pub id: u32,
    pub index: u32,
    pub returned: u32,
}

/// A note of a step.
///
/// - `kind` 0 is Over, 1 Saw, 2 Reclaim, 3 Full, 4 Accept, 5 Look, 6 Deliver, 7 Return, 8 Done, 9
///   Down and 10 Refuse.
/// - `field` is the field of a refusal, from 1, else 0.
/// - `value` is the value of a refusal, the State read, or the count.
#[repr(C)]
#[derive(Clone, Copy)]
pub struct Note {
    pub kind: u32,
    pub field: u32,
    pub value: u64,
}

/// The notes of a step: their number, and the notes.
#[repr(C)]
#[derive(Clone, Copy)]
pub struct Notes {
    pub count: u32,
    pub first: Note,
    pub second: Note,
}

/// The state of an end. It has the value and the field that the end refused since its reset, with
/// field 0 for none. It has the State, whether a call is open, and the outcome of the last offer.
/// The lengths, in bytes, are those of the frame delivered last and of the longest frame that may
/// be offered.
#[repr(C)]
#[derive(Clone, Copy)]
pub struct View {
    pub refused_value: u64,
    pub delivered: u64,
    pub refused_field: u32,
    pub state: u32,
    pub busy: u32,
    pub outcome: u32,
    pub longest: u32,
}

pub(crate) fn call_numbered(number: u32) -> Option<Call>
    ensures { result ≡ call_numbered number }
{
    match number {
        0 => Some(Call::Tick),
        1 => Some(Call::Poll),
        2 => Some(Call::Stop),
        _ => None,
    }
}

pub(crate) fn state_of(phase: Phase) -> u32
    ensures { result ≡ state_of phase }
{
    match phase {
        Phase::Reset => 0,
        Phase::Init => 1,
        Phase::Ready => 2,
        Phase::Run => 3,
    }
}

pub(crate) fn field_number(field: FieldName) -> u32
    ensures { result ≡ field_number field }
{
    match field {
        FieldName::AvailIndex => 1,
        FieldName::AvailEntry => 2,
        FieldName::DescAddress => 3,
        FieldName::DescLength => 4,
        FieldName::DescFlags => 5,
        FieldName::UsedIndex => 6,
        FieldName::UsedId => 7,
    }
}

fn order_number(order: Order) -> u32
    ensures { result ≡ order_number order }
{
    match order {
        Order::Relaxed => 0,
        Order::Acquire => 1,
        Order::Release => 2,
    }
}

/// Returns an access with its order and the number of words of the burst that it begins.
pub(crate) fn access_crossed(
    access: steps::Access,
    reads: u32,
    writes: u32,
    ordering: Ordering,
) -> Access
    ensures { result ≡ access_crossed access reads writes ordering }
{
    let (kind, word, value, count) = match access {
        steps::Access::Nothing => (0, 0, 0, 0),
        steps::Access::Read(word) => (1, word, 0, reads),
        steps::Access::Write(word, value) => (2, word, value, writes),
        steps::Access::State(value) => (3, 0, value, 0),
        steps::Access::Ring { target, vector } => (4, target, vector, 0),
    };
    Access {
        kind,
        word,
        value,
        count,
        order: order_number(ordering.order),
        fence_before: u32::from(ordering.fence_before),
        fence_after: u32::from(ordering.fence_after),
    }
}

fn burst_crossed(burst: link_endpoint::Burst) -> Burst
    ensures { result ≡ burst_crossed burst }
{
    Burst {
        word: burst.word,
        count: burst.count,
    }
}

pub(crate) fn bursts_crossed(bursts: link_endpoint::Bursts) -> Bursts
    ensures { result ≡ bursts_crossed bursts }
{
    Bursts {
        frame: burst_crossed(bursts.frame),
        descriptor: burst_crossed(bursts.descriptor),
        entry: burst_crossed(bursts.entry),
    }
}

pub(crate) fn publication_crossed(made: link_endpoint::Publication) -> Publication
    ensures { result ≡ publication_crossed made }
{
    Publication {
        bursts: bursts_crossed(made.bursts),
        index: made.index,
        accepted: made.accepted,
    }
}

pub(crate) fn frame_return_crossed(made: link_endpoint::FrameReturn) -> FrameReturn
    ensures { result ≡ frame_return_crossed made }
{
    FrameReturn {
        length: made.length,
        element: made.element,
        id: made.id,
        index: made.index,
        returned: made.returned,
    }
}

pub(crate) fn refusal_crossed(refused: Refused) -> Note
    ensures { result ≡ refusal_crossed refused }
{
    Note {
        kind: 10,
        field: field_number(refused.field),
        value: refused.value,
    }
}

/// Returns a note of this kind with this number.
fn plain(kind: u32, value: u32) -> Note
    ensures { result ≡ record { kind = kind; field = 0; value = value } }
{
    Note {
        kind,
        field: 0,
        value: u64::from(value),
    }
}

pub(crate) fn note_crossed(note: steps::Note) -> Note
    ensures { result ≡ note_crossed note }
{
    match note {
        steps::Note::Over => plain(0, 0),
        steps::Note::Saw(state) => plain(1, state),
        steps::Note::Reclaim(count) => plain(2, count),
        steps::Note::Full => plain(3, 0),
        steps::Note::Accept => plain(4, 0),
        steps::Note::Look(count) => plain(5, count),
        steps::Note::Deliver => plain(6, 0),
        steps::Note::Return => plain(7, 0),
        steps::Note::Done => plain(8, 0),
        steps::Note::Down => plain(9, 0),
        steps::Note::Refuse(refused) => refusal_crossed(refused),
    }
}

#[inline(always)]
pub(crate) fn notes_crossed(notes: &[steps::Note]) -> Notes
    ensures { result ≡ notes_crossed notes.now }
{
    match notes {
        [] => Notes {
            count: 0,
            first: plain(0, 0),
            second: plain(0, 0),
        },
        [one] => Notes {
            count: 1,
            first: note_crossed(*one),
            second: plain(0, 0),
        },
        [one, other, ..] => Notes {
            count: 2,
            first: note_crossed(*one),
            second: note_crossed(*other),
        },
    }
}

pub(crate) fn outcome_number(outcome: Outcome) -> u32
    ensures { result ≡ outcome_number outcome }
{
    match outcome {
        Outcome::Never => 0,
        Outcome::Open => 1,
        Outcome::Accepted => 2,
        Outcome::Full => 3,
        Outcome::Refused => 4,
        Outcome::Down => 5,
        Outcome::Cut => 6,
    }
}

fn field_of(refused: Option<Refused>) -> u32
    ensures { result ≡ field_of refused }
{
    match refused {
        Some(refused) => field_number(refused.field),
        None => 0,
    }
}

fn value_of(refused: Option<Refused>) -> u64
    ensures { result ≡ value_of refused }
{
    match refused {
        Some(refused) => refused.value,
        None => 0,
    }
}

pub(crate) fn view_of(port: &EndState) -> View
    ensures { result ≡ view_of port.now }
{
    let endpoint = &port.endpoint;
    let refused = endpoint.refused();
    View {
        refused_value: value_of(refused),
        delivered: endpoint.delivered().len() as u64,
        refused_field: field_of(refused),
        state: state_of(endpoint.phase()),
        busy: u32::from(endpoint.busy()),
        outcome: outcome_number(port.outcome),
        longest: endpoint.longest(),
    }
}

/// Law: the numbers of an access, and those of a note, determine it. The numbers of an access also
/// determine its order.
// claim: The numbers of an access, and those of a note, distinguish it from every other; those of
//    an access include its order.
#[tactic(auto, using(crate::proofs::NumbersDetermineValues::crossings_hold))]
pub fn crossings_have_contracts()
    ensures { CrossingsHaveContracts }
{}
