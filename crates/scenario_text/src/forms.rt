//! The forms of a scenario's lines, as a table.
ghost use Rattle.std.specs.Prelude.{◌≡◌, ◌≤◌, length};
ghost use Rattle.line_format.specs.Forms.{pieces};
ghost use Rattle.scenario_text.specs.Table.{pieces_of};

use crate::limits::MOST_ACTS;
use line_format::{ANY, FieldKind, U32};
use pci_space::MOST_VECTORS;

/// A form of a scenario's lines. Two words at one position make two forms.
#[derive(Clone, Copy, Debug, PartialEq, Eq)]
pub enum Form {
    /// `ivshm 1`
    Version,
    /// `peers N`
    Peers,
    /// `table B`
    Table,
    /// `common B`
    Common,
    /// `out B`
    Out,
    /// `mtu M`
    Mtu,
    /// `irq msix V`
    Msix,
    /// `irq intx`
    Intx,
    /// `peer P honest`
    Honest,
    /// `peer P hostile`
    Hostile,
    /// `begin`
    Begin,
    /// `tick P`
    Tick,
    /// `offer P HEX`
    Offer,
    /// `poll P`
    Poll,
    /// `stop P`
    Stop,
    /// `auto P EXPECT`
    Auto,
    /// `storm P SEED`
    Storm,
    /// `turn P K`
    Turn,
    /// `reset P`
    Reset,
    /// `poke P WORD VALUE`
    Poke,
    /// `peek P WORD`
    Peek,
    /// `set P VALUE`
    Set,
    /// `ring P TARGET VECTOR`
    Ring,
    /// `cfg P r OFFSET WIDTH`
    CfgRead,
    /// `cfg P w OFFSET WIDTH VALUE`
    CfgWrite,
    /// `mmio P r OFFSET`
    MmioRead,
    /// `mmio P w OFFSET VALUE`
    MmioWrite,
    /// `msix P r OFFSET`
    MsixRead,
    /// `msix P w OFFSET VALUE`
    MsixWrite,
    /// `lose P`
    Lose,
    /// `again P VECTOR`
    Again,
    /// `end`
    End,
}

pub const FORMS: [Form; 32] = [
    Form::Version,
    Form::Peers,
    Form::Table,
    Form::Common,
    Form::Out,
    Form::Mtu,
    Form::Msix,
    Form::Intx,
    Form::Honest,
    Form::Hostile,
    Form::Begin,
    Form::Tick,
    Form::Offer,
    Form::Poll,
    Form::Stop,
    Form::Auto,
    Form::Storm,
    Form::Turn,
    Form::Reset,
    Form::Poke,
    Form::Peek,
    Form::Set,
    Form::Ring,
    Form::CfgRead,
    Form::CfgWrite,
    Form::MmioRead,
    Form::MmioWrite,
    Form::MsixRead,
    Form::MsixWrite,
    Form::Lose,
    Form::Again,
    Form::End,
];

const U16: FieldKind = FieldKind::Number(0, u16::MAX as u64);

/// The offset of a byte of the configuration space.
const BYTE: FieldKind = FieldKind::Number(0, 255);

/// The offset of a byte of a one-page region.
const PAGE: FieldKind = FieldKind::Number(0, 4095);

impl Form {
    /// Returns the fields of the form.
    pub fn slots(self) -> &'static [FieldKind]
        ensures value { pieces result.now ≡ pieces_of self }
        ensures few { length result.now ≤ 6 }
    {
        match self {
            Form::Version => &[FieldKind::Word(b"ivshm"), FieldKind::Number(1, 3)],
            Form::Peers => &[FieldKind::Word(b"peers"), FieldKind::Number(2, 8)],
            Form::Table => &[FieldKind::Word(b"table"), U32],
            Form::Common => &[FieldKind::Word(b"common"), ANY],
            Form::Out => &[FieldKind::Word(b"out"), ANY],
            Form::Mtu => &[FieldKind::Word(b"mtu"), U32],
            Form::Msix => &[
                FieldKind::Word(b"irq"),
                FieldKind::Word(b"msix"),
                FieldKind::Number(1, MOST_VECTORS as u64),
            ],
            Form::Intx => &[FieldKind::Word(b"irq"), FieldKind::Word(b"intx")],
            Form::Honest => &[FieldKind::Word(b"peer"), ANY, FieldKind::Word(b"honest")],
            Form::Hostile => &[FieldKind::Word(b"peer"), ANY, FieldKind::Word(b"hostile")],
            Form::Begin => &[FieldKind::Word(b"begin")],
            Form::Tick => &[FieldKind::Word(b"tick"), ANY],
            Form::Offer => &[FieldKind::Word(b"offer"), ANY, FieldKind::Hex],
            Form::Poll => &[FieldKind::Word(b"poll"), ANY],
            Form::Stop => &[FieldKind::Word(b"stop"), ANY],
            Form::Auto => &[FieldKind::Word(b"auto"), ANY, ANY],
            Form::Storm => &[FieldKind::Word(b"storm"), ANY, ANY],
            Form::Turn => &[
                FieldKind::Word(b"turn"),
                ANY,
                FieldKind::Number(0, MOST_ACTS),
            ],
            Form::Reset => &[FieldKind::Word(b"reset"), ANY],
            Form::Poke => &[FieldKind::Word(b"poke"), ANY, U32, U32],
            Form::Peek => &[FieldKind::Word(b"peek"), ANY, U32],
            Form::Set => &[FieldKind::Word(b"set"), ANY, U32],
            Form::Ring => &[FieldKind::Word(b"ring"), ANY, U16, U16],
            Form::CfgRead => &[
                FieldKind::Word(b"cfg"),
                ANY,
                FieldKind::Word(b"r"),
                BYTE,
                FieldKind::Number(1, 4),
            ],
            Form::CfgWrite => &[
                FieldKind::Word(b"cfg"),
                ANY,
                FieldKind::Word(b"w"),
                BYTE,
                FieldKind::Number(1, 4),
                U32,
            ],
            Form::MmioRead => &[FieldKind::Word(b"mmio"), ANY, FieldKind::Word(b"r"), PAGE],
            Form::MmioWrite => &[
                FieldKind::Word(b"mmio"),
                ANY,
                FieldKind::Word(b"w"),
                PAGE,
                U32,
            ],
            Form::MsixRead => &[FieldKind::Word(b"msix"), ANY, FieldKind::Word(b"r"), PAGE],
            Form::MsixWrite => &[
                FieldKind::Word(b"msix"),
                ANY,
                FieldKind::Word(b"w"),
                PAGE,
                U32,
            ],
            Form::Lose => &[FieldKind::Word(b"lose"), ANY],
            Form::Again => &[FieldKind::Word(b"again"), ANY, FieldKind::Number(0, 63)],
            Form::End => &[FieldKind::Word(b"end")],
        }
    }
}
