//! Writing a text of ports.
ghost use Rattle.std.specs.Prelude.{◌≡◌, ◌++◌, OnOk};
ghost use Rattle.line_format.specs.Rows.{row, line_of_row, text_of};
ghost use Rattle.port_text.specs.Table.{pieces_of};
ghost use Rattle.port_text.specs.ActRows.{row_of_act};
ghost use Rattle.port_text.specs.Spelling.{world_of, sizes_rows, spelling};

use crate::acts::Act;
use crate::drafts::Draft;
use crate::forms::Form;
use crate::scenarios::Scenario;
use line_format::{HasRow, put_flags, put_line, put_numbers, put_rows};
use std::alloc::AllocError;

/// Appends the line of a form.
#[tactic(auto, unfolding(line_format::specs::Rows::line_of_row))]
fn put(out: &mut Vec<u8>, form: Form, numbers: &[u64], bytes: &[u8]) -> Result<(), AllocError>
    ensures { OnOk result (out.new.items ≡ out.old.items ++ line_of_row pieces_of (row form numbers.now bytes.now)) }
{
    put_line(out, form.slots(), numbers, bytes)
}

impl HasRow for Act {
    type Form = Form;

    ghost pieces_of = { pieces_of };

    ghost row_of = { row_of_act };

    fn put_row(&self, out: &mut Vec<u8>) -> Result<(), AllocError> {
        put_numbers!((put, out, self) Act => Form {
            Sample(peer, from),
            Turn(peer, steps),
            Poke(peer, word, value),
        } else {
            Act::Publish { peer, message } => {
                put(out, Form::Publish, &[u64::from(*peer)], message.bytes())
            }
        })
    }
}

/// Appends the lines up to the sizes.
fn put_sizes(out: &mut Vec<u8>, scenario: &Scenario) -> Result<(), AllocError>
    ensures { OnOk result (out.new.items ≡ out.old.items ++ text_of pieces_of (sizes_rows (world_of scenario.now))) }
{
    let geometry = &scenario.geometry;
    put(out, Form::Version, &[1], &[])?;
    put(out, Form::Peers, &[u64::from(geometry.peers())], &[])?;
    put(out, Form::Out, &[4 * u64::from(geometry.out_words())], &[])?;
    put(out, Form::Longest, &[u64::from(scenario.most)], &[])
}

/// Appends the text of the schedule, which is its one spelling.
// claim with printed_is_read_again: `put_scenario` writes the one spelling, which is read as the
//    same schedule.
pub fn put_scenario(out: &mut Vec<u8>, scenario: &Scenario) -> Result<(), AllocError>
    ensures { OnOk result (out.new.items ≡ out.old.items ++ spelling (world_of scenario.now)) }
{
    put_sizes(out, scenario)?;
    put_flags::<Draft>(out, Form::Honest, Form::Hostile, scenario.honest.items())?;
    put(out, Form::Begin, &[], &[])?;
    put_rows(out, scenario.acts.items())?;
    put(out, Form::End, &[], &[])?;
    Ok(())
}
