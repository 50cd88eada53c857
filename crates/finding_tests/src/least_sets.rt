//! The least sets of worked positions, set by set: the loose origins, then each row with the number of its origin, its kind
//! and its squares.

use crate::from_fen::place;
use cha_board::Kind;
use mob_sets::{SetRow, Sets};
use mob_solve::least_closed_sets;

/// Positions and their least sets, by the rules in which each man is followed by hand.
const SETS: &[(&str, u64, &[(u8, Kind, u64)])] = &[
    // Two kings go everywhere.
    (
        "4k3/8/8/8/8/8/8/4K3 w - -",
        0x1000000000000010,
        &[
            (4, Kind::King, 0xffffffffffffffff),
            (60, Kind::King, 0xffffffffffffffff),
        ],
    ),
    // A wall of blocked pawns that guard each square between them.
    (
        "4k3/8/8/p1p1p1p1/P1P1P1P1/8/8/4K3 w - -",
        0x1000000000000010,
        &[
            (4, Kind::King, 0x0000000000ffffff),
            (24, Kind::Pawn, 0x0000000001000000),
            (26, Kind::Pawn, 0x0000000004000000),
            (28, Kind::Pawn, 0x0000000010000000),
            (30, Kind::Pawn, 0x0000000040000000),
            (32, Kind::Pawn, 0x0000000100000000),
            (34, Kind::Pawn, 0x0000000400000000),
            (36, Kind::Pawn, 0x0000001000000000),
            (38, Kind::Pawn, 0x0000004000000000),
            (60, Kind::King, 0xffffff0000000000),
        ],
    ),
    // A bishop beyond the wall stays on the light squares there.
    (
        "4k3/7B/8/p1p1p1p1/P1P1P1P1/8/8/4K3 w - -",
        0x1080000000000010,
        &[
            (4, Kind::King, 0x0000000000ffffff),
            (24, Kind::Pawn, 0x0000000001000000),
            (26, Kind::Pawn, 0x0000000004000000),
            (28, Kind::Pawn, 0x0000000010000000),
            (30, Kind::Pawn, 0x0000000040000000),
            (32, Kind::Pawn, 0x0000000100000000),
            (34, Kind::Pawn, 0x0000000400000000),
            (36, Kind::Pawn, 0x0000001000000000),
            (38, Kind::Pawn, 0x0000004000000000),
            (55, Kind::Bishop, 0x55aa55aa00000000),
            (60, Kind::King, 0xffffff0000000000),
        ],
    ),
    // A wall with one more ram, which keeps the king from three squares.
    (
        "4k3/8/5p2/p1p1pPp1/P1P1P1P1/8/8/4K3 w - -",
        0x1000000000000010,
        &[
            (4, Kind::King, 0x0000000000ffffff),
            (24, Kind::Pawn, 0x0000000001000000),
            (26, Kind::Pawn, 0x0000000004000000),
            (28, Kind::Pawn, 0x0000000010000000),
            (30, Kind::Pawn, 0x0000000040000000),
            (32, Kind::Pawn, 0x0000000100000000),
            (34, Kind::Pawn, 0x0000000400000000),
            (36, Kind::Pawn, 0x0000001000000000),
            (37, Kind::Pawn, 0x0000002000000000),
            (38, Kind::Pawn, 0x0000004000000000),
            (45, Kind::Pawn, 0x0000200000000000),
            (60, Kind::King, 0xffff8f0000000000),
        ],
    ),
];

/// Whether a row has this number of its origin, this kind and these squares.
fn is_row(row: &SetRow, (origin, kind, squares): (u8, Kind, u64)) -> bool {
    row.origin.index() == origin && row.kind == kind && row.squares.bits() == squares
}

/// Whether sets have these loose origins and these rows.
fn are_sets(sets: &Sets, loose: u64, rows: &[(u8, Kind, u64)]) -> bool {
    let mut same = sets.loose().bits() == loose && sets.rows().len() == rows.len();
    for (row, wanted) in sets.rows().iter().zip(rows.iter()) {
        same = same && is_row(row, *wanted);
    }
    same
}

#[test]
fn least_sets_are_the_worked_ones(rt: HostRuntime) {
    for (fen, loose, rows) in SETS {
        let sets = least_closed_sets(rt.alloc(), &place(&rt, fen)).expect(&rt, "memory");
        assert!(rt; are_sets(&sets, *loose, rows), "{fen}");
    }
}
