//! Closed sets, worked by hand from the rules.

use crate::written_sets::{enter, loosen, sets_of};
use cha_board::{Color, Position, Square};
use cha_fen::read;
use mob_check::{closed, proves_unwinnable};
use mob_sets::Sets;
use std::alloc::Global;
use std::process::Abort;

/// Positions and their least closed sets, which have no mate for either side.
const LEAST: &[(&str, &str)] = &[
    // Two kings.
    (
        "4k3/8/8/8/8/8/8/4K3 w - -",
        "1000000000000010 e1Kffffffffffffffff e8Kffffffffffffffff",
    ),
    // A wall of pawns that guard each free square of it.
    (
        "4k3/8/8/p1p1p1p1/P1P1P1P1/8/8/4K3 w - -",
        "1000000000000010 e1K0000000000ffffff e8Kffffff0000000000 a4P0000000001000000 a5P0000000100000000 \
         c4P0000000004000000 c5P0000000400000000 e4P0000000010000000 e5P0000001000000000 g4P0000000040000000 \
         g5P0000004000000000",
    ),
    // The wall with a bishop beyond it.
    (
        "4k3/7B/8/p1p1p1p1/P1P1P1P1/8/8/4K3 w - -",
        "1080000000000010 e1K0000000000ffffff e8Kffffff0000000000 a4P0000000001000000 a5P0000000100000000 \
         c4P0000000004000000 c5P0000000400000000 e4P0000000010000000 e5P0000001000000000 g4P0000000040000000 \
         g5P0000004000000000 h7B55aa55aa00000000",
    ),
    // The wall with a second pair of pawns.
    (
        "4k3/8/5p2/p1p1pPp1/P1P1P1P1/8/8/4K3 w - -",
        "1000000000000010 a4P0000000001000000 c4P0000000004000000 e4P0000000010000000 g4P0000000040000000 \
         f5P0000002000000000 a5P0000000100000000 c5P0000000400000000 e5P0000001000000000 g5P0000004000000000 \
         f6P0000200000000000 e1K0000000000ffffff e8Kffff8f0000000000",
    ),
    // Pawns blocked on their second ranks.
    (
        "4k3/8/8/8/8/p1p1p1p1/P1P1P1P1/4K3 w - -",
        "1000000000000010 e1K00000000000000ff e8Kffffffffff000000 a2P0000000000000100 a3P0000000000010000 \
         c2P0000000000000400 c3P0000000000040000 e2P0000000000001000 e3P0000000000100000 g2P0000000000004000 \
         g3P0000000000400000",
    ),
];

/// Positions and other closed sets.
const CLOSED: &[(&str, &str)] = &[
    // A pawn on its file.
    (
        "4k3/8/8/8/8/8/P7/4K3 w - -",
        "1000000000000110 e1Kffffffffffffffff e8Kffffffffffffffff a2P0001010101010100 a2Nffffffffffffffff \
         a2Bffffffffffffffff a2Rffffffffffffffff a2Qffffffffffffffff",
    ),
    // A pawn that may capture a knight anywhere.
    (
        "1n2k3/8/8/8/8/8/P7/4K3 w - -",
        "1200000000000110 e1Kffffffffffffffff e8Kffffffffffffffff a2P00ffffffffffff00 b8Nffffffffffffffff \
         a2Nffffffffffffffff a2Bffffffffffffffff a2Rffffffffffffffff a2Qffffffffffffffff",
    ),
    // A castling on each side.
    (
        "4k3/8/8/8/8/8/8/4K2R w K -",
        "1000000000000090 e1Kffffffffffffffff e8Kffffffffffffffff h1Rffffffffffffffff",
    ),
    (
        "r3k3/8/8/8/8/8/8/4K3 w q -",
        "1100000000000010 e1Kffffffffffffffff e8Kffffffffffffffff a8Rffffffffffffffff",
    ),
];

/// Positions and sets that one rule refuses, which is named.
const OPEN: &[(&str, &str)] = &[
    // E1 is left.
    (
        "4k3/8/8/8/8/8/8/4K3 w - -",
        "1000000000000000 e1Kffffffffffffffff e8Kffffffffffffffff",
    ),
    // A4 has a man of its own.
    (
        "4k3/8/8/p1p1p1p1/P1P1P1P1/8/8/4K3 w - -",
        "1000000000000010 e1K0000000000ffffff e8Kffffff0000000000 a5P0000000100000000 c4P0000000004000000 \
         c5P0000000400000000 e4P0000000010000000 e5P0000001000000000 g4P0000000040000000 g5P0000004000000000",
    ),
    // The king steps onto h3.
    (
        "4k3/8/8/p1p1p1p1/P1P1P1P1/8/8/4K3 w - -",
        "1000000000000010 e1K00000000007fffff e8Kffffff0000000000 a4P0000000001000000 a5P0000000100000000 \
         c4P0000000004000000 c5P0000000400000000 e4P0000000010000000 e5P0000001000000000 g4P0000000040000000 \
         g5P0000004000000000",
    ),
    // A king captures the knight on h1.
    (
        "4k3/8/8/8/8/8/8/4K2n w - -",
        "1000000000000010 e1Kffffffffffffffff e8Kffffffffffffffff h1N0000000000000080",
    ),
    // A2 steps to a3.
    (
        "4k3/8/8/8/8/8/P7/4K3 w - -",
        "1000000000000110 e1Kffffffffffffffff e8Kffffffffffffffff a2P0000000000000100",
    ),
    // A2 captures on b3.
    (
        "1n2k3/8/8/8/8/8/P7/4K3 w - -",
        "1200000000000110 e1Kffffffffffffffff e8Kffffffffffffffff a2P0001010101010100 b8Nffffffffffffffff \
         a2Nffffffffffffffff a2Bffffffffffffffff a2Rffffffffffffffff a2Qffffffffffffffff",
    ),
    // A4 captures on b5.
    (
        "4k3/8/8/ppp1p1p1/PPP1P1P1/8/8/4K3 w - -",
        "1000000000000010 e1K0000000000ffffff e8Kffffff0000000000 a4P0000000001000000 a5P0000000100000000 \
         b4P0000000002000000 b5P0000000200000000 c4P0000000004000000 c5P0000000400000000 e4P0000000010000000 \
         e5P0000001000000000 g4P0000000040000000 g5P0000004000000000",
    ),
    // F5 captures en passant on g6.
    (
        "4k3/8/5p2/p1p1pPp1/P1P1P1P1/8/8/4K3 w - g6",
        "1000000000000010 a4P0000000001000000 c4P0000000004000000 e4P0000000010000000 g4P0000000040000000 \
         f5P0000002000000000 a5P0000000100000000 c5P0000000400000000 e5P0000001000000000 g5P0000004000000000 \
         f6P0000200000000000 e1K0000000000ffffff e8Kffff8f0000000000",
    ),
    // A7 becomes a rook.
    (
        "4k3/8/8/8/8/8/P7/4K3 w - -",
        "1000000000000110 e1Kffffffffffffffff e8Kffffffffffffffff a2P0001010101010100 a2Nffffffffffffffff \
         a2Bffffffffffffffff a2Qffffffffffffffff",
    ),
    // Castling leaves e1, as the king's steps do: the rules for castling alone refuse nothing (`mob_law::castling_follows`).
    (
        "4k3/8/8/8/8/8/8/4K2R w K -",
        "1000000000000080 e1Kffffffffffffffff e8Kffffffffffffffff h1Rffffffffffffffff",
    ),
];

/// Asserts whether the sets of each row are closed.
fn are_closed(rt: &impl Abort, alloc: Global, rows: &[(&str, &str)], want: bool) {
    for (fen, text) in rows {
        let position = read(fen.as_bytes()).expect(rt, "a position");
        let sets = sets_of(rt, alloc, text);
        assert!(rt; closed(&position, &sets) == want, "{fen}");
    }
}

#[test]
fn sets_are_closed_where_each_rule_holds(rt: HostRuntime) {
    are_closed(&rt, rt.alloc(), LEAST, true);
    are_closed(&rt, rt.alloc(), CLOSED, true);
    are_closed(&rt, rt.alloc(), OPEN, false);
}

/// Puts the rows of sets into others that are empty, but for one square of the numbered row.
fn put_fewer(rt: &impl Abort, sets: &Sets, without: usize, at: u8, fewer: &mut Sets) {
    for (number, row) in sets.rows().iter().enumerate() {
        let bits = row.squares.bits();
        let left_out = if number == without { 1 << (at % 64) } else { 0 };
        enter(rt, fewer, row.origin, row.kind, bits & !left_out);
    }
}

/// Asserts that sets are not closed with these loose origins, and without a square of the numbered row.
fn is_open(
    rt: &impl Abort,
    alloc: Global,
    position: &Position,
    sets: &Sets,
    loose: u64,
    without: usize,
    at: u8,
) {
    let mut fewer = Sets::new(alloc);
    loosen(&mut fewer, loose);
    put_fewer(rt, sets, without, at, &mut fewer);
    assert!(rt; !closed(position, &fewer), "{without} {at}");
}

/// Asserts that sets are open without any one of their loose origins and squares. There are at most 384 rows.
fn need_each(rt: &impl Abort, alloc: Global, position: &Position, sets: &Sets) {
    let loose = sets.loose().bits();
    for index in 0..64 {
        let at = Square::at(index);
        if sets.is_loose(at) {
            let tied = loose & !(1 << (index % 64));
            is_open(rt, alloc, position, sets, tied, 384, 0);
        }
        for (number, row) in sets.rows().iter().enumerate() {
            if row.has(at) {
                is_open(rt, alloc, position, sets, loose, number, index);
            }
        }
    }
}

/// Asserts that sets have no mate for either side, and that none can be left out of them.
fn are_least(rt: &impl Abort, alloc: Global, fen: &str, text: &str) {
    let position = read(fen.as_bytes()).expect(rt, "a position");
    let sets = sets_of(rt, alloc, text);
    assert!(rt; proves_unwinnable(&position, Color::White, &sets), "{fen}");
    assert!(rt; proves_unwinnable(&position, Color::Black, &sets), "{fen}");
    need_each(rt, alloc, &position, &sets);
}

#[test]
fn least_sets_have_no_mate_and_are_open_with_less(rt: HostRuntime) {
    for (fen, text) in LEAST {
        are_least(&rt, rt.alloc(), fen, text);
    }
}
