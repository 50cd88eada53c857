//! Games that threads judge side by side, where a read or a write fails: the blocks before it are those of one worker, whole and in order.

use crate::running::{Asked, run_into, sink_of};
use adjudicate::Status;
use cha_outside::KeptSink;
use std::alloc::Global;
use std::process::Abort;
use std::sync::Wait;
use std::thread::Threads;

/// A dead position, a mate, and a game that cannot be read, in 113 bytes.
const THREE: &str =
    "[FEN \"8/8/4k3/8/8/4K3/8/8 w - -\"]\n[Termination \"time forfeit\"]\n\n1-0\n\n1. f3 e5 2. g4 Qh4# 1-0\n\n1. e4 e5 2. Ke3 *\n\n";

const ONE: &str = "adjudicate --budget 300 --depth 2 --workers 1";

const FOUR: &str = "adjudicate --budget 300 --depth 2 --workers 4";

/// The three games forty times.
fn games(rt: &impl Abort, alloc: Global) -> String {
    let mut text = String::new(alloc);
    for _ in 0..40 {
        text.push_str(THREE).expect(rt, "memory");
    }
    text
}

/// What is written by a run that ends so.
fn written<R: Threads + Wait + Abort + Sync>(
    rt: &R,
    alloc: Global,
    asked: &Asked,
    status: Status,
) -> KeptSink {
    let mut sink = sink_of(rt, alloc, 100_000, asked.write);
    let mut notes = sink_of(rt, alloc, 1000, 0);
    assert_eq!(rt; run_into(rt, alloc, asked, &mut sink, &mut notes), status);
    sink
}

/// A run that gets nine games by each read.
fn asked<'a>(line: &'a str, input: &'a str, read: u32, write: u32) -> Asked<'a> {
    Asked {
        line,
        input,
        size: 339,
        read,
        write,
        room: 100_000,
    }
}

/// How many blocks of games a report has, which is ASCII.
fn blocks(rt: &impl Abort, report: &[u8]) -> usize {
    let report = str::from_utf8(report).expect(rt, "ASCII");
    let judged = report.matches("\nstatus: ").count();
    judged.wrapping_add(report.matches("\nunreadable: ").count())
}

/// Asserts that a report begins as another one does, has so many blocks, and ends with a line.
fn begins_with(rt: &impl Abort, whole: &[u8], report: &[u8], count: usize) {
    assert!(rt; whole.starts_with(report));
    assert_eq!(rt; blocks(rt, report), count);
    assert!(rt; report.is_empty() || report.ends_with(b"\n"));
}

#[test]
fn a_failing_read_leaves_the_blocks_of_whole_games(rt: HostRuntime) {
    let input = games(&rt, rt.alloc());
    let whole = asked(ONE, input.as_str(), 0, 0);
    let whole = written(&rt, rt.alloc(), &whole, Status::Done);
    assert_eq!(rt; blocks(&rt, whole.bytes()), 120);
    for (read, count) in [(2u32, 9usize), (3, 18), (4, 27), (5, 36)] {
        for line in [ONE, FOUR] {
            let failing = asked(line, input.as_str(), read, 0);
            let front = written(&rt, rt.alloc(), &failing, Status::ReadFault);
            begins_with(&rt, whole.bytes(), front.bytes(), count);
        }
    }
}

#[test]
fn a_failing_write_leaves_the_blocks_before_it(rt: HostRuntime) {
    let input = games(&rt, rt.alloc());
    let whole = asked(ONE, input.as_str(), 0, 0);
    let whole = written(&rt, rt.alloc(), &whole, Status::Done);
    for (write, count) in [(1u32, 0usize), (2, 1), (20, 19), (21, 20), (80, 79)] {
        let failing = asked(FOUR, input.as_str(), 0, write);
        let front = written(&rt, rt.alloc(), &failing, Status::WriteFault);
        begins_with(&rt, whole.bytes(), front.bytes(), count);
    }
}
