//! The layout's numbers by hand, and sources and sinks that fail, or that read and write few bytes.
use ivs_base::{
    Frame, InputSource, MemorySink, MemorySource, OutputSink, ReadEnd, WriteFault, distance, plus,
    read_all, up64, word_of, write_whole,
};
use std::alloc::Global;
use std::io;
use std::io::{ErrorKind, Read, Write};
use std::test::Fail;

/// Lengths and what they are rounded up to. After 64 entries come 1,158 bytes and the used ring. A
/// slot holds a frame of 274 bytes.
const ROUNDED: [(u64, u64); 6] = [
    (0, 0),
    (1, 64),
    (64, 64),
    (1158, 1216),
    (1734, 1792),
    (274, 320),
];

/// Two numbers of 16 bits and the distance from one to the other.
const DISTANCES: [(u16, u16, u16); 4] = [
    (7, 7, 0),
    (0, 65, 65),
    (65_535, 3, 4),
    (3, 65_535, 65_532),
];

// claim ivs_base.up64.value
// claim ivs_base.distance
#[test]
fn numbers_of_the_layout(rt: HostRuntime) {
    for (value, want) in ROUNDED {
        assert!(rt; up64(value) == want, "up64 of {value}");
    }
    for (from, to, want) in DISTANCES {
        assert!(rt; distance(from, to) == want, "from {from} to {to}");
        assert!(rt; plus(from, want) == to, "{want} after {from}");
    }
}

/// A frame, and its words with their values.
const FRAME: [u8; 14] = *b"\xff\xff\xff\xff\xff\xff\x02\x00\x00\x00\x00\x01\x08\x00";

const WORDS: [(usize, u32); 4] = [(0, 4_294_967_295), (4, 196_607), (8, 16_777_216), (12, 8)];

/// Whether the word at this place of the frame has this value.
fn is_word(place: usize, value: u32) -> bool {
    let rest = &FRAME[place.min(14)..];
    let bytes = &rest[..rest.len().min(4)];
    !bytes.is_empty() && word_of(bytes) == value
}

/// Whether a frame has its bytes, equals another of the same bytes, and differs from one of these.
fn is_frame(alloc: Global, others: &[u8]) -> Result<bool, Fail> {
    let frame = Frame::of(alloc, &FRAME)?;
    let is_equal = frame == Frame::of(alloc, &FRAME)?;
    let differs = frame != Frame::of(alloc, others)?;
    Ok(is_equal && differs && frame.bytes() == FRAME.as_slice())
}

// claim ivs_base.distance
// claim ivs_base.Frame.of
#[test]
fn words_of_a_frame(rt: HostRuntime) -> Result<(), Fail> {
    assert!(rt; is_frame(rt.alloc(), &FRAME[1..])?);
    for (place, value) in WORDS {
        assert!(rt; is_word(place, value), "word at {place}");
    }
    Ok(())
}

/// Eleven bytes to be read.
const ELEVEN: &[u8] = b"eleven byte";

/// A limit, the call that fails, and what a read of the eleven bytes returns. The fourth call would
/// find the end.
const READS: [(u64, u64, Result<usize, ReadEnd>); 5] = [
    (11, 0, Ok(11)),
    (10, 0, Err(ReadEnd::TooLong)),
    (11, 2, Err(ReadEnd::ReadFault)),
    (11, 4, Err(ReadEnd::ReadFault)),
    (11, 5, Ok(11)),
];

/// Returns the number of bytes that a read of these in pieces of four bytes returns.
fn read_of(
    alloc: Global,
    bytes: &[u8],
    limit: u64,
    fails: u64,
) -> Result<Result<usize, ReadEnd>, Fail> {
    let mut source = MemorySource::new(alloc, bytes, 4, &[fails])?;
    let got = read_all(alloc, &mut source, limit.min(1000));
    Ok(got.map(|read| read.len()))
}

// claim ivs_base.read_all.bytes
// claim ivs_base.read_all.fault
// claim ivs_base.read_all.quiet
// claim ivs_base.MemorySource.read.fails
#[test]
fn whole_reads(rt: HostRuntime) -> Result<(), Fail> {
    assert!(rt; read_of(rt.alloc(), b"", 0, 0)? == Ok(0), "no bytes");
    for (limit, fails, want) in READS {
        assert!(rt;
            read_of(rt.alloc(), ELEVEN, limit, fails)? == want,
            "call {fails} fails"
        );
    }
    Ok(())
}

/// Bytes to be written.
const RECORD: &[u8] = b"record 1\nivshm 1\n";

/// The capacity, the bytes that a call writes, the call that fails, and the bytes written.
const WRITES: [(usize, usize, u64, usize); 3] = [(100, 10, 2, 10), (12, 5, 0, 10), (17, 9, 3, 17)];

/// Whether these are the first `count` bytes of the record.
fn is_front(bytes: &[u8], count: usize) -> bool {
    RECORD.get(..count) == Some(bytes)
}

/// Whether a write of the record leaves its first `want` bytes, and fails unless these are all.
fn leaves(alloc: Global, room: usize, piece: usize, fails: u64, want: usize) -> Result<bool, Fail> {
    let mut sink = MemorySink::new(alloc, room, piece.max(1), &[fails])?;
    let is_whole = write_whole(&mut sink, RECORD).is_ok();
    let is_counted = sink.faults() == u64::from(!is_whole);
    Ok(is_counted && is_whole == (want == 17) && is_front(sink.bytes(), want))
}

// claim ivs_base.write_whole.front
// claim ivs_base.MemorySource.read.fails
#[test]
fn a_fault_leaves_a_front(rt: HostRuntime) -> Result<(), Fail> {
    for (room, piece, fails, want) in WRITES {
        assert!(rt;
            leaves(rt.alloc(), room, piece, fails, want)?,
            "room {room}"
        );
    }
    Ok(())
}

// A reader and a writer without a model of their bytes. The second read fails, and the second write
// writes nothing.
#[derive(Drop)]
struct Unmodelled(u8);

impl Read for Unmodelled {
    fn read(&mut self, buf: &mut [u8]) -> io::Result<usize> {
        self.0 = self.0.saturating_add(1);
        match self.0 {
            1 => Ok(buf.len().min(2)),
            2 => Err(io::Error::from(ErrorKind::ConnectionReset)),
            _ => Ok(0),
        }
    }
}

impl Write for Unmodelled {
    fn write(&mut self, buf: &[u8]) -> io::Result<usize> {
        self.0 = self.0.saturating_add(1);
        Ok(if self.0 == 2 { 0 } else { buf.len().min(3) })
    }

    fn flush(&mut self) -> io::Result<()> {
        Ok(())
    }
}

// claim ivs_base.InputSource.read.end
#[test]
fn faults_of_the_standard_ends(rt: HostRuntime) -> Result<(), Fail> {
    let mut source = InputSource::new(Unmodelled(0));
    let got = read_all(rt.alloc(), &mut source, 10);
    assert_eq!(rt; got.map(|read| read.len()), Err(ReadEnd::ReadFault));
    assert_eq!(rt; source.faults(), 1);
    let mut ended = InputSource::new(Unmodelled(2));
    assert_eq!(rt;
        read_all(rt.alloc(), &mut ended, 10).map(|read| read.len()),
        Ok(0)
    );

    let mut sink = OutputSink::new(Unmodelled(0));
    assert_eq!(rt; write_whole(&mut sink, b"bytes"), Err(WriteFault));
    assert_eq!(rt; sink.faults(), 1);
    let mut whole = OutputSink::new(io::writer(&rt));
    assert_eq!(rt; write_whole(&mut whole, b"written\n"), Ok(()));
    Ok(())
}

// A writer that takes one byte a call, and fails after `most` bytes.
#[derive(Drop)]
struct Trickle {
    held: Vec<u8>,
    most: usize,
}

impl Write for Trickle {
    fn write(&mut self, buf: &[u8]) -> io::Result<usize> {
        if buf.is_empty() {
            return Ok(0);
        }
        if self.held.len() >= self.most {
            return Err(io::Error::from(ErrorKind::StorageFull));
        }
        self.held.push(buf[0])?;
        Ok(1)
    }

    fn flush(&mut self) -> io::Result<()> {
        Ok(())
    }
}

/// Whether a writer that takes one byte a call, and fails after `most` bytes, has the first `want`
/// bytes of the record.
fn takes(alloc: Global, most: usize, want: usize) -> bool {
    let held = Vec::new(alloc);
    let mut writer = Trickle { held, most };
    let mut sink = OutputSink::new(&mut writer);
    let is_whole = write_whole(&mut sink, RECORD).is_ok();
    let is_counted = sink.faults() == u64::from(!is_whole);
    is_counted && is_whole == (want == 17) && is_front(writer.held.as_slice(), want)
}

// claim ivs_base.InputSource.read.end
#[test]
fn writers_that_take_little(rt: HostRuntime) -> Result<(), Fail> {
    for (most, want) in [(100usize, 17), (17, 17), (16, 16), (0, 0)] {
        assert!(rt; takes(rt.alloc(), most, want), "{most}");
    }
    Ok(())
}

// claim ivs_base.InputSource.read.end
#[test]
fn readers_give_their_bytes(rt: HostRuntime) -> Result<(), Fail> {
    let text = b"ivshm 1\npeers 2\n".as_slice();
    let mut source = InputSource::new(text);
    let read = read_all(rt.alloc(), &mut source, 100)?;
    assert!(rt; read.as_slice() == text);
    assert_eq!(rt; source.faults(), 0);
    Ok(())
}
