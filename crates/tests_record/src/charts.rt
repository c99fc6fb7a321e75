//! A picture of more lines than it has rows for.
use record_chart::{deliveries_have_their_arrows, draw, picture_of, rows_are_the_lines};
use record_text::{Trace, parse};
use std::alloc::Global;
use std::test::Fail;

/// A record up to its history, of an honest pair.
const PAIR: &[u8] =
    b"record 1\nivshm 1\npeers 2\ntable 4096\ncommon 0\nout 16384\nmtu 256\nirq msix 2\npeer 0 honest\npeer 1 honest\nbegin\nend\n";

/// Returns a record of 2,002 lines.
fn long_record(alloc: Global) -> Result<Vec<u8>, Fail> {
    let mut text = PAIR.to_vec(alloc)?;
    for _ in 0..1001 {
        text.extend_from_slice(b"idle 0\nidle 1\n")?;
    }
    text.extend_from_slice(b"end 2002\n")?;
    Ok(text)
}

/// Whether the file is a picture, at whose end two lines are left out.
fn is_whole(file: &[u8]) -> bool {
    file.starts_with(b"<svg xmlns='http://www.w3.org/2000/svg'")
        && file.ends_with(b"2 more lines are left out here</text>\n</svg>\n")
}

/// Whether a picture of these 2,002 lines has rows for 2,000 and leaves out two.
fn leaves_out_two(alloc: Global, trace: &Trace) -> Result<bool, Fail> {
    let picture = picture_of(alloc, trace, 1, 2002)?;
    let file = draw(alloc, trace, 2002, 1, &picture, None)?;
    Ok(picture.rows.len() == 2000 && picture.left_out == 2 && is_whole(&file))
}

#[test]
fn two_thousand_rows(rt: HostRuntime) -> Result<(), Fail> {
    let trace = parse(rt.alloc(), &long_record(rt.alloc())?)?;
    assert!(rt; leaves_out_two(rt.alloc(), &trace)?);
    Ok(())
}

// claim record_chart.rows_of.rows
// claim record_chart.deliveries_have_their_arrows
#[test]
fn laws_of_pictures() {
    rows_are_the_lines();
    deliveries_have_their_arrows();
}
