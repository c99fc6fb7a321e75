//! Writing a scenario's text.
ghost use Rattle.std.specs.Prelude.{◌≡◌, ◌++◌, OnOk, IfOk};
ghost use Rattle.line_format.specs.Rows.{row, line_of_row, text_of};
ghost use Rattle.scenario_text.specs.Table.{pieces_of};
ghost use Rattle.scenario_text.specs.ActRows.{row_of_act};
ghost use Rattle.scenario_text.specs.Spelling.{world_of, row_of_wiring, sizes_rows, spelling};

use crate::acts::Act;
use crate::drafts::Draft;
use crate::forms::Form;
use crate::scenarios::Scenario;
use ivs_base::NoMemory;
use line_format::{HasRow, put_flags, put_line, put_numbers, put_rows};
use pci_space::Wiring;
use std::alloc::{AllocError, Global};

/// Appends the line of a form.
#[tactic(auto, unfolding(line_format::specs::Rows::line_of_row))]
fn put(out: &mut Vec<u8>, form: Form, numbers: &[u64], frame: &[u8]) -> Result<(), AllocError>
    ensures { OnOk result (out.new.items ≡ out.old.items ++ line_of_row pieces_of (row form numbers.now frame.now)) }
{
    put_line(out, form.slots(), numbers, frame)
}

fn put_wiring(out: &mut Vec<u8>, wiring: Wiring) -> Result<(), AllocError>
    ensures { OnOk result (out.new.items ≡ out.old.items ++ line_of_row pieces_of (row_of_wiring wiring)) }
{
    match wiring {
        Wiring::Msix(vectors) => put(out, Form::Msix, &[u64::from(vectors)], &[]),
        Wiring::Intx => put(out, Form::Intx, &[], &[]),
    }
}

impl HasRow for Act {
    type Form = Form;

    ghost pieces_of = { pieces_of };

    ghost row_of = { row_of_act };

    fn put_row(&self, out: &mut Vec<u8>) -> Result<(), AllocError> {
        put_numbers!((put, out, self) Act => Form {
            Tick(peer),
            Poll(peer),
            Stop(peer),
            Turn(peer, steps),
            Reset(peer),
            Poke(peer, word, value),
            Peek(peer, word),
            Set(peer, value),
            Ring(peer, target, vector),
            CfgRead(peer, offset, width),
            CfgWrite(peer, offset, width, value),
            MmioRead(peer, offset),
            MmioWrite(peer, offset, value),
            MsixRead(peer, offset),
            MsixWrite(peer, offset, value),
            Lose(peer),
            Again(peer, vector),
        } else {
            Act::Offer { peer, frame } => put(out, Form::Offer, &[u64::from(*peer)], frame.bytes()),
            Act::Auto { peer, expect } => put(out, Form::Auto, &[u64::from(*peer), *expect], &[]),
            Act::Storm { peer, seed } => put(out, Form::Storm, &[u64::from(*peer), *seed], &[]),
        })
    }
}

/// Appends the lines up to the sizes.
fn put_sizes(out: &mut Vec<u8>, scenario: &Scenario) -> Result<(), AllocError>
    ensures { OnOk result (out.new.items ≡ out.old.items ++ text_of pieces_of (sizes_rows (world_of scenario.now))) }
{
    let geometry = &scenario.geometry;
    put(out, Form::Version, &[u64::from(scenario.version)], &[])?;
    put(out, Form::Peers, &[u64::from(geometry.peers())], &[])?;
    put(
        out,
        Form::Table,
        &[4 * u64::from(geometry.table_words())],
        &[],
    )?;
    put(
        out,
        Form::Common,
        &[4 * u64::from(geometry.common_words())],
        &[],
    )?;
    put(out, Form::Out, &[4 * u64::from(geometry.out_words())], &[])?;
    put(out, Form::Mtu, &[u64::from(scenario.queue.mtu())], &[])
}

/// Appends the text of the scenario.
pub fn put_scenario(out: &mut Vec<u8>, scenario: &Scenario) -> Result<(), AllocError>
    ensures { OnOk result (out.new.items ≡ out.old.items ++ spelling (world_of scenario.now)) }
{
    put_sizes(out, scenario)?;
    put_wiring(out, scenario.wiring)?;
    put_flags::<Draft>(out, Form::Honest, Form::Hostile, scenario.honest.items())?;
    put(out, Form::Begin, &[], &[])?;
    put_rows(out, scenario.acts.items())?;
    put(out, Form::End, &[], &[])?;
    Ok(())
}

/// Returns the text of the scenario, which is its one spelling. Returns `NoMemory` if an allocation
/// fails.
// claim with put_scenario: `print` writes the one spelling.
pub fn print(alloc: Global, scenario: &Scenario) -> Result<Vec<u8>, NoMemory>
    ensures { IfOk result (λ text. text.items ≡ spelling (world_of scenario.now)) }
{
    let mut out = Vec::new(alloc);
    put_scenario(&mut out, scenario)?;
    Ok(out)
}
