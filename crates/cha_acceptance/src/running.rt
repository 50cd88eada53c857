//! One run over an input in pieces, of which a read or a write may fail.

use adjudicate::{Status, run};
use cha_outside::{KeptSink, Pieces};
use std::alloc::Global;
use std::process::Abort;
use std::sync::Wait;
use std::thread::Threads;

/// A run.
#[derive(Clone, Copy)]
pub struct Asked<'a> {
    /// The words, between single spaces.
    pub line: &'a str,
    pub input: &'a str,
    /// How many bytes a read gives at most.
    pub size: u32,
    /// The number of the read that fails. No call has the number 0.
    pub read: u32,
    /// The number of the write that fails.
    pub write: u32,
    /// How many bytes the sink takes at most.
    pub room: u32,
}

fn words_of(rt: &impl Abort, alloc: Global, line: &str) -> Vec<String> {
    let mut words = Vec::new(alloc);
    for word in line.split(' ') {
        let word = String::from_str(alloc, word).expect(rt, "memory");
        words.push(word).expect(rt, "memory");
    }
    words
}

fn source_of(rt: &impl Abort, alloc: Global, asked: &Asked) -> Pieces {
    let bytes = asked.input.as_bytes().to_vec(alloc).expect(rt, "memory");
    let sizes = [asked.size].to_vec(alloc).expect(rt, "memory");
    let fails = [asked.read].to_vec(alloc).expect(rt, "memory");
    Pieces::new(bytes, sizes, fails)
}

/// A sink with this room that fails at a numbered write.
pub fn sink_of(rt: &impl Abort, alloc: Global, room: u32, write: u32) -> KeptSink {
    let fails = [write].to_vec(alloc).expect(rt, "memory");
    KeptSink::new(alloc, room, fails).expect(rt, "memory")
}

/// How a run ends that writes to these sinks.
pub fn run_into<R: Threads + Wait + Abort + Sync>(
    rt: &R,
    alloc: Global,
    asked: &Asked,
    sink: &mut KeptSink,
    notes: &mut KeptSink,
) -> Status {
    let words = words_of(rt, alloc, asked.line);
    let mut source = source_of(rt, alloc, asked);
    run(rt, alloc, words.as_slice(), &mut source, sink, notes)
}

/// Asserts how a run ends, what it has written, and that it has said nothing of the whole.
pub fn ends<R: Threads + Wait + Abort + Sync>(
    rt: &R,
    alloc: Global,
    asked: &Asked,
    status: Status,
    written: &str,
) {
    let mut sink = sink_of(rt, alloc, asked.room, asked.write);
    let mut notes = sink_of(rt, alloc, 1000, 0);
    assert_eq!(rt; run_into(rt, alloc, asked, &mut sink, &mut notes), status);
    assert_eq!(rt; sink.bytes(), written.as_bytes());
    assert!(rt; notes.bytes().is_empty());
}
