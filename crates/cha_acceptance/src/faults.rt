//! Runs in which a read or a write fails: what is written is whole blocks, or whole games, and the status says what failed.

use crate::running::{Asked, ends};
use adjudicate::Status;
use std::alloc::Global;
use std::process::Abort;
use std::sync::Wait;
use std::thread::Threads;

const LINES: &str = "4k3/8/8/8/8/8/8/4K3 w - -\r\nhello\r\n";

/// The blocks of the first line, and of both.
const FIRST_LINE: &str =
    "position 1\nfen: 4k3/8/8/8/8/8/8/4K3 w - -\nwhite: unwinnable\nblack: unwinnable\nstatus: dead\n";

const BOTH_LINES: &str =
    "position 1\nfen: 4k3/8/8/8/8/8/8/4K3 w - -\nwhite: unwinnable\nblack: unwinnable\nstatus: dead\nposition 2\nrefused: shape\n";

const GAME: &str = "1. f3 e5 2. g4 Qh4# 0-1\n";

const BLOCK: &str =
    "game 1\nfen: rnb1kbnr/pppp1ppp/8/4p3/6Pq/5P2/PPPPP2P/RNBQKBNR w KQkq -\nwhite: skipped\nblack: winnable in 0\nstatus: checkmate\nresult: 0-1 -> 0-1 by 5.1.1\n";

/// Two games that change, with something before, between and behind them, and what is written up to the end of each.
const GAMES: &str = " 1. f3 e5 2. g4 Qh4 1-0\n; between\n1. f3 e5 2. g4 Qh4 * \n";

const FIRST_GAME: &str = " 1. f3 e5 2. g4 Qh4 0-1";

const BOTH_GAMES: &str = " 1. f3 e5 2. g4 Qh4 0-1\n; between\n1. f3 e5 2. g4 Qh4 0-1";

/// The queen on b7 can only be taken, and then both kings are bare.
const CERTIFICATE: &str =
    "cha-cert 1\nwinner w\nnodes 2\ninner k7/1Q6/8/8/8/8/8/4K3 b - -\nleaf 8/1k6/8/8/8/8/8/4K3 w - -\nloose 0002000000000010\nreach e1 K ffffffffffffffff\nreach b7 K ffffffffffffffff\nend\n";

/// Words and an input that comes byte by byte; how many reads there are, the end among them; how many of them may go well before the first
/// block or game is written, and before both are; and what is written then.
type Row = (&'static str, &'static str, u32, [u32; 2], [&'static str; 2]);

const READS: &[Row] = &[
    // The first line feed is the 27th byte, and the second one the 34th: each block is out with it.
    ("position", LINES, 35, [27, 34], [FIRST_LINE, BOTH_LINES]),
    // The game is settled with the byte behind its last token.
    ("adjudicate", GAME, 25, [24, 25], [BLOCK, BLOCK]),
    // The byte behind the last token of the first game is the 24th, and that of the second the 55th.
    ("correct", GAMES, 57, [24, 55], [FIRST_GAME, BOTH_GAMES]),
];

/// What is written where a read fails.
fn before(read: u32, settled: [u32; 2], written: [&'static str; 2]) -> &'static str {
    if read <= settled[0] {
        ""
    } else if read <= settled[1] {
        written[0]
    } else {
        written[1]
    }
}

/// Asserts what a run leaves at each read that fails.
fn each_read_ends<R: Threads + Wait + Abort + Sync>(rt: &R, alloc: Global, row: &Row) {
    let (line, input, reads, settled, written) = *row;
    for read in 1..=reads {
        let asked = Asked {
            line,
            input,
            size: 1,
            read,
            write: 0,
            room: 4096,
        };
        let written = before(read, settled, written);
        ends(rt, alloc, &asked, Status::ReadFault, written);
    }
}

#[test]
fn any_failing_read_ends_the_run(rt: HostRuntime) {
    for row in READS {
        each_read_ends(&rt, rt.alloc(), row);
    }
}

/// Words and an input that comes in pieces of 64 bytes, the numbers of the read and of the write that fail, the room of the sink, and what
/// is left: a status, and what was written.
const FAULTS: &[(&str, &str, u32, u32, u32, Status, &str)] = &[
    ("check", CERTIFICATE, 3, 0, 4096, Status::ReadFault, ""),
    (
        "check",
        CERTIFICATE,
        0,
        0,
        8,
        Status::WriteFault,
        "accepted",
    ),
    // The block and the summary go out in one write each.
    ("adjudicate", GAME, 0, 1, 4096, Status::WriteFault, ""),
    ("adjudicate", GAME, 0, 2, 4096, Status::WriteFault, BLOCK),
    // So do the games, and what stands behind the last.
    ("correct", GAMES, 0, 1, 4096, Status::WriteFault, ""),
    ("correct", GAMES, 0, 2, 4096, Status::WriteFault, FIRST_GAME),
    ("correct", GAMES, 0, 3, 4096, Status::WriteFault, BOTH_GAMES),
];

#[test]
fn a_fault_ends_the_run(rt: HostRuntime) {
    for (line, input, read, write, room, status, written) in FAULTS {
        let asked = Asked {
            line: *line,
            input: *input,
            size: 64,
            read: *read,
            write: *write,
            room: *room,
        };
        ends(&rt, rt.alloc(), &asked, *status, written);
    }
}
