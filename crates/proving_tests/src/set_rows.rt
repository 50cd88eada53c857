//! Two kings' sets, entered out of order.

use cha_board::{Kind, Square, SquareSet};
use mob_sets::{SetRow, Sets};
use std::process::Abort;

/// An origin, a kind, a square that is entered, and whether it is new.
const ENTERED: &[(u8, Kind, u8, bool)] = &[
    (60, Kind::King, 52, true),
    (4, Kind::King, 4, true),
    (4, Kind::King, 5, true),
    (4, Kind::King, 4, false),
    (4, Kind::Pawn, 12, true),
];

/// Enters these squares, each of which is new where it says so.
fn enter_all(rt: &impl Abort, sets: &mut Sets) {
    for (origin, kind, at, new) in ENTERED {
        let grew = sets.add(Square::at(*origin % 64), *kind, Square::at(*at % 64));
        assert!(rt; grew.expect(rt, "memory") == *new);
    }
}

/// Joins no squares and two more sets of squares to those of e1.
const JOINED: &[(Kind, u64)] = &[(Kind::Knight, 0), (Kind::King, 0x30), (Kind::Rook, 0x81)];

fn join_all(rt: &impl Abort, sets: &mut Sets) {
    for (kind, bits) in JOINED {
        let joined = sets.join(Square::at(4), *kind, SquareSet::from_bits(*bits));
        joined.expect(rt, "memory");
    }
}

/// The rows, by the number of the origin, the kind and the squares.
const ROWS: &[(u8, Kind, u64)] = &[
    (4, Kind::Pawn, 0x1000),
    (4, Kind::Rook, 0x81),
    (4, Kind::King, 0x30),
    (60, Kind::King, 0x10_0000_0000_0000),
];

/// Whether these are the rows.
fn are_rows(rows: &[SetRow], wanted: &[(u8, Kind, u64)]) -> bool {
    let mut same = rows.len() == wanted.len();
    for (row, (origin, kind, bits)) in rows.iter().zip(wanted.iter()) {
        same = same
            && row.origin.index() == *origin
            && row.kind == *kind
            && row.squares.bits() == *bits;
    }
    same
}

/// Asserts that e1 is made loose once.
fn loosen_e1(rt: &impl Abort, sets: &mut Sets) {
    assert!(rt; sets.loosen(Square::at(4)));
    assert!(rt; !sets.loosen(Square::at(4)));
}

/// Asserts that a copy has the loose origin and the rows.
fn has_all(rt: &impl Abort, copy: &Sets) {
    assert!(rt; copy.is_loose(Square::at(4)));
    assert!(rt; !copy.is_loose(Square::at(60)));
    assert!(rt; are_rows(copy.rows(), ROWS));
}

#[test]
fn squares_go_into_the_rows_of_their_origins(rt: HostRuntime) {
    let mut sets = Sets::new(rt.alloc());
    enter_all(&rt, &mut sets);
    join_all(&rt, &mut sets);
    loosen_e1(&rt, &mut sets);
    let copy = sets.copy(rt.alloc()).expect(&rt, "memory");
    has_all(&rt, &copy);
}
