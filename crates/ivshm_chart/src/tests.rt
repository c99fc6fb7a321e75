//! The top call over sources and sinks in memory.
use crate::program::chart;
use ivs_base::{MemorySink, MemorySource};
use program_edge::Status;
use std::alloc::Global;
use std::test::Fail;

/// A record of two lines.
const RECORD: &[u8] =
    b"record 1\nivshm 1\npeers 2\ntable 4096\ncommon 0\nout 16384\nmtu 256\nirq msix 2\npeer 0 honest\npeer 1 honest\nbegin\nend\nidle 0\nidle 1\nend 2\n";

/// The text of its second line. The lawful history of its scenario has no line.
const TEXT: &[u8] =
    b"History lines 2 to 2 of 2; line 1 isn't that of the lawful history\n       line    peer 0, honest, RESET                     peer 1, honest, RESET\n          2                                              idle, 1 turn\n";

/// Returns the status of a call with these words and this input, and what it wrote.
fn answer(
    alloc: Global,
    words: &[&str],
    input: &[u8],
    fails: &[u64],
) -> Result<(Status, Vec<u8>), Fail> {
    let mut owned = Vec::new(alloc);
    for word in words {
        owned.push(String::from_str(alloc, word)?)?;
    }
    let mut source = MemorySource::new(alloc, input, 7, fails)?;
    let mut sink = MemorySink::new(alloc, 20_000, 100, &[])?;
    let mut drawn = None;
    let status = chart(alloc, owned.as_slice(), &mut source, &mut sink, &mut drawn);
    Ok((status, sink.bytes().to_vec(alloc)?))
}

// claim ivshm_chart.chart.cause
// claim ivshm_chart.chart.unread
#[test]
fn statuses(rt: HostRuntime) -> Result<(), Fail> {
    let usage = b"usage: ivshm_chart [--text] [FROM TO]\n".as_slice();
    let cases: [(&[&str], &[u8], Status, &[u8]); 11] = [
        (&["1"], RECORD, Status::Usage, usage),
        (&["0", "2"], RECORD, Status::Usage, usage),
        (&["2", "1"], RECORD, Status::Usage, usage),
        (&["1", "02"], RECORD, Status::Usage, usage),
        (&["1", "2", "3"], RECORD, Status::Usage, usage),
        (&["--text", "2", "1"], RECORD, Status::Usage, usage),
        (&["1", "2", "--text"], RECORD, Status::Usage, usage),
        (&[], b"", Status::Refused, b"refused 0 NoEnd\n"),
        (&[], b"record 3\n", Status::Refused, b"refused 1 BadLine\n"),
        (
            &["1", "1"],
            b"record 1\nivshm 4\n",
            Status::Refused,
            b"refused 2 BadNumber\n",
        ),
        (
            &[],
            b"record 1\nivshm 1\npeers 2\ntable 4096\ncommon 0\nout 16384\nmtu 256\nirq msix 2\npeer 0 honest\npeer 1 honest\nbegin\nend\nidle 0\nend 2\n",
            Status::Refused,
            b"refused 0 BadCount 2 1\n",
        ),
    ];
    for (words, input, status, text) in cases {
        let (found, written) = answer(rt.alloc(), words, input, &[])?;
        assert!(rt; found == status, "{found:?}");
        assert!(rt; written.as_slice() == text, "{found:?}");
    }
    let (found, written) = answer(rt.alloc(), &["1", "2"], RECORD, &[])?;
    assert!(rt; found == Status::Done, "{found:?}");
    assert!(rt; written.ends_with(b"</svg>\n"), "a whole file");
    let (found, written) = answer(rt.alloc(), &["--text", "2", "2"], RECORD, &[])?;
    assert!(rt; found == Status::Done, "{found:?}");
    assert!(rt; written.as_slice() == TEXT, "the text of one line");
    let (found, written) = answer(rt.alloc(), &[], RECORD, &[2])?;
    assert!(rt; found == Status::ReadFault, "{found:?}");
    assert!(rt; written.is_empty(), "nothing was written");
    Ok(())
}
