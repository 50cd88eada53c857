//! Reads, writes and failures, call by call.

use cha_outside::{
    Bytes, Got, KeptSink, Pieces, ReadEnd, ReadFrom, Repeat, Sink, Source, WriteTo, Wrote, read_all,
};
use std::alloc::Global;
use std::io::{self, Read, Write};
use std::process::Abort;

const TEXT: &[u8] = b"4k3/8/8/8/8/8/8/4K3 w - -\r\n";

/// What the calls of a source give, in room for four bytes.
type Calls = &'static [(Got, &'static [u8])];

/// Sizes of 1, 0, 3 and 9, where the second call and the fifth are to fail.
const CUT: Calls = &[
    (Got::Bytes(1), b"a___"),
    (Got::Failed, b"____"),
    (Got::Bytes(3), b"bcd_"),
    (Got::Bytes(4), b"efgh"),
    (Got::Failed, b"____"),
    (Got::Bytes(2), b"ij__"),
    (Got::End, b"____"),
    (Got::End, b"____"),
];

/// No sizes at all.
const UNCUT: Calls = &[
    (Got::Bytes(1), b"a___"),
    (Got::Bytes(1), b"b___"),
    (Got::End, b"____"),
];

fn gives(rt: &impl Abort, mut source: Pieces, calls: Calls) {
    for (want, bytes) in calls {
        gives_once(rt, &mut source, *want, bytes);
    }
}

fn gives_once(rt: &impl Abort, source: &mut Pieces, want: Got, bytes: &[u8]) {
    let mut room = *b"____";
    assert_eq!(rt; source.read(&mut room), want);
    assert_eq!(rt; room.as_slice(), bytes);
}

/// A source of these bytes, with the sizes of its pieces, that fails at the numbered calls.
fn pieces_of(rt: &impl Abort, alloc: Global, bytes: &[u8], sizes: &[u32], fails: &[u32]) -> Pieces {
    let bytes = bytes.to_vec(alloc).expect(rt, "memory");
    let sizes = sizes.to_vec(alloc).expect(rt, "memory");
    let fails = fails.to_vec(alloc).expect(rt, "memory");
    Pieces::new(bytes, sizes, fails)
}

#[test]
fn pieces_are_cut_and_fail_as_asked(rt: HostRuntime) {
    let cut = pieces_of(&rt, rt.alloc(), b"abcdefghij", &[1, 0, 3, 9], &[2, 5]);
    gives(&rt, cut, CUT);
    let uncut = pieces_of(&rt, rt.alloc(), b"ab", &[], &[]);
    gives(&rt, uncut, UNCUT);
}

/// How many bytes, the size of a piece, and the calls that they take, the end among them: each asks for 4,096.
const IN_PIECES: &[(usize, u32, u32)] = &[
    (27, 1, 28),
    (27, 3, 10),
    (27, 4096, 2),
    (8192, 5000, 3),
    (8193, 5000, 4),
];

/// How reading so many bytes in pieces ends early, where a call fails.
fn end_in_pieces(
    rt: &impl Abort,
    alloc: Global,
    count: usize,
    size: u32,
    failing: u32,
) -> Option<ReadEnd> {
    let bytes = vec![in alloc; b' '; count].expect(rt, "memory");
    let mut source = pieces_of(rt, alloc, bytes.as_slice(), &[size], &[failing]);
    read_all(alloc, &mut source, count).err()
}

/// How many bytes there are and may be, and how reading them ends early.
const LIMITS: &[(u64, usize, Option<ReadEnd>)] = &[
    (0, 0, None),
    (1, 0, Some(ReadEnd::TooLong)),
    (4096, 4096, None),
    (4097, 4096, Some(ReadEnd::TooLong)),
    (9000, 9000, None),
    (u64::MAX, 9000, Some(ReadEnd::TooLong)),
];

#[test]
fn a_whole_input_is_read_or_fails(rt: HostRuntime) {
    for (count, size, calls) in IN_PIECES {
        for failing in 1..calls.saturating_add(3) {
            let end = end_in_pieces(&rt, rt.alloc(), *count, *size, failing);
            assert_eq!(rt; end.is_some(), failing <= *calls);
            assert!(rt; end.is_none() || end == Some(ReadEnd::ReadFault));
        }
    }
    for (count, limit, want) in LIMITS {
        let found = read_all(rt.alloc(), &mut Repeat::new(b' ', *count), *limit);
        assert_eq!(rt; found.err(), *want);
    }
}

#[test]
fn readers_and_bytes_are_read_to_their_ends(rt: HostRuntime) {
    let found = read_all(rt.alloc(), &mut ReadFrom::new(TEXT), 100);
    assert_eq!(rt; found.err(), None);
    let bytes = TEXT.to_vec(rt.alloc()).expect(&rt, "memory");
    let found = read_all(rt.alloc(), &mut Bytes::new(bytes), 100);
    assert_eq!(rt; found.err(), None);
}

/// A reader whose first call fails.
#[derive(Drop)]
struct Late {
    failed: bool,
}

impl Read for Late {
    fn read(&mut self, buf: &mut [u8]) -> io::Result<usize> {
        if !self.failed {
            self.failed = true;
            return Err(io::Error::from(io::ErrorKind::WouldBlock));
        }
        let n = buf.len().min(2);
        buf[..n].copy_from_slice(&b"ab"[..n]);
        Ok(n)
    }
}

#[test]
fn a_reader_of_std_gives_bytes_after_an_error(rt: HostRuntime) {
    let mut source = ReadFrom::new(Late { failed: false });
    let mut room = *b"____";
    assert_eq!(rt; source.read(&mut room), Got::Failed);
    assert_eq!(rt; room, *b"____");
    assert_eq!(rt; source.read(&mut room), Got::Bytes(2));
    assert_eq!(rt; room, *b"ab__");
}

/// What a sink answers to `ab`, `cde` and `f`.
type Answers = [Wrote; 3];

/// Sinks by their room, the call that is to fail, the answers to `ab`, `cde` and `f`, and what they keep.
const SINKS: &[(u32, u32, Answers, &[u8])] = &[
    (
        0,
        0,
        [Wrote::Failed(0), Wrote::Failed(0), Wrote::Failed(0)],
        b"",
    ),
    (
        1,
        0,
        [Wrote::Failed(1), Wrote::Failed(0), Wrote::Failed(0)],
        b"a",
    ),
    (
        2,
        0,
        [Wrote::All, Wrote::Failed(0), Wrote::Failed(0)],
        b"ab",
    ),
    (
        3,
        0,
        [Wrote::All, Wrote::Failed(1), Wrote::Failed(0)],
        b"abc",
    ),
    (
        4,
        0,
        [Wrote::All, Wrote::Failed(2), Wrote::Failed(0)],
        b"abcd",
    ),
    (5, 0, [Wrote::All, Wrote::All, Wrote::Failed(0)], b"abcde"),
    (6, 0, [Wrote::All, Wrote::All, Wrote::All], b"abcdef"),
    (100, 2, [Wrote::All, Wrote::Failed(0), Wrote::All], b"abf"),
];

fn keeps(rt: &impl Abort, alloc: Global, room: u32, failing: u32, want: &Answers, bytes: &[u8]) {
    let fails = [failing].to_vec(alloc).expect(rt, "memory");
    let mut sink = KeptSink::new(alloc, room, fails).expect(rt, "memory");
    let answers = [sink.write(b"ab"), sink.write(b"cde"), sink.write(b"f")];
    assert_eq!(rt; answers, *want, "room {room}");
    assert_eq!(rt; sink.bytes(), bytes, "room {room}");
}

#[test]
fn a_sink_keeps_what_fits_and_fails_as_asked(rt: HostRuntime) {
    for (room, failing, want, bytes) in SINKS {
        keeps(&rt, rt.alloc(), *room, *failing, want, bytes);
    }
}

/// A writer that takes so many bytes at each call, and that fails at the call that is to fail, or at its flush where it
/// is to.
#[derive(Drop)]
struct Slow<'a> {
    out: &'a mut Vec<u8>,
    most: usize,
    calls: u32,
    failing: u32,
    flushes: bool,
}

impl Write for Slow<'_> {
    fn write(&mut self, buf: &[u8]) -> io::Result<usize> {
        self.calls = self.calls.saturating_add(1);
        if self.calls == self.failing {
            return Err(io::Error::from(io::ErrorKind::BrokenPipe));
        }
        let n = self.most.min(buf.len());
        self.out.extend_from_slice(&buf[..n])?;
        Ok(n)
    }

    fn flush(&mut self) -> io::Result<()> {
        if self.flushes {
            Ok(())
        } else {
            Err(io::Error::from(io::ErrorKind::BrokenPipe))
        }
    }
}

/// How many bytes the writer takes at each call, the call that is to fail, whether it flushes, the answer to `abcde`,
/// and what it took.
const WRITERS: &[(usize, u32, bool, Wrote, &[u8])] = &[
    (2, 0, true, Wrote::All, b"abcde"),
    (2, 1, true, Wrote::Failed(0), b""),
    (2, 2, true, Wrote::Failed(2), b"ab"),
    (2, 3, true, Wrote::Failed(4), b"abcd"),
    (9, 0, true, Wrote::All, b"abcde"),
    (9, 0, false, Wrote::Failed(0), b"abcde"),
    (0, 0, true, Wrote::Failed(0), b""),
];

#[test]
fn a_writer_of_std_takes_all_or_fails(rt: HostRuntime) {
    for (most, failing, flushes, want, bytes) in WRITERS {
        let mut out = Vec::new(rt.alloc());
        let mut sink = WriteTo::new(Slow {
            out: &mut out,
            most: *most,
            calls: 0,
            failing: *failing,
            flushes: *flushes,
        });
        assert_eq!(rt; sink.write(b"abcde"), *want);
        assert_eq!(rt; out.as_slice(), *bytes);
    }
}
