//! Threats, worked by hand: for each part of a threat sets that this part alone decides. The sets need not be closed.

use crate::written_sets::sets_of;
use cha_board::Color;
use cha_fen::read;
use mob_check::no_mate;
use std::alloc::Global;
use std::process::Abort;

/// Positions, sets, and whether they have no mate for White.
const SETS: &[(&str, &str, bool)] = &[
    // No man of White can give check.
    (
        "4k3/8/8/p1p1p1p1/P1P1P1P1/8/8/4K3 w - -",
        "1000000000000010 e1K0000000000ffffff e8Kffffff0000000000 a4P0000000001000000 a5P0000000100000000 \
         c4P0000000004000000 c5P0000000400000000 e4P0000000010000000 e5P0000001000000000 g4P0000000040000000 \
         g5P0000004000000000",
        true,
    ),
    // The bishop gives check, and the king always has a dark square.
    (
        "4k3/7B/8/p1p1p1p1/P1P1P1P1/8/8/4K3 w - -",
        "1080000000000010 e1K0000000000ffffff e8Kffffff0000000000 a4P0000000001000000 a5P0000000100000000 \
         c4P0000000004000000 c5P0000000400000000 e4P0000000010000000 e5P0000001000000000 g4P0000000040000000 \
         g5P0000004000000000 h7B55aa55aa00000000",
        true,
    ),
    // A bishop of both colours would mate.
    (
        "4k3/7B/8/p1p1p1p1/P1P1P1P1/8/8/4K3 w - -",
        "1080000000000010 e1K0000000000ffffff e8Kffffff0000000000 a4P0000000001000000 a5P0000000100000000 \
         c4P0000000004000000 c5P0000000400000000 e4P0000000010000000 e5P0000001000000000 g4P0000000040000000 \
         g5P0000004000000000 h7Bffffffff00000000",
        false,
    ),
    // A bishop alone, and one against a bishop that stands in its king's way.
    (
        "4k3/8/8/8/8/8/8/4KB2 w - -",
        "1000000000000030 e1Kffffffffffffffff e8Kffffffffffffffff f1B55aa55aa55aa55aa",
        true,
    ),
    (
        "4kb2/8/8/8/8/8/8/4KB2 w - -",
        "3000000000000030 e1Kffffffffffffffff e8Kffffffffffffffff f1B55aa55aa55aa55aa f8Baa55aa55aa55aa55",
        false,
    ),
    // A rook with its king far from h8, and near to it.
    (
        "4k3/8/8/8/8/8/8/R3K3 w - -",
        "1000000000000011 e1K0000000000000010 e8K8000000000000000 a1Rffffffffffffffff",
        true,
    ),
    (
        "4k3/8/8/8/8/8/8/R3K3 w - -",
        "1000000000000011 e1K0000800000000000 e8K8000000000000000 a1Rffffffffffffffff",
        false,
    ),
    // Two rooks need no king.
    (
        "4k3/8/8/8/8/8/8/RR2K3 w - -",
        "1000000000000013 e1K0000000000000010 e8K8000000000000000 a1Rffffffffffffffff b1Rffffffffffffffff",
        false,
    ),
    // A lone knight gives check from one square and covers from that square; two knights do both.
    (
        "4k3/8/8/8/8/8/1p6/4K2N w - -",
        "1000000000000290 e1Kffffffffffffffff e8Kffffffffffffffff h1Nffffffffffffffff b2P0000000000000200",
        true,
    ),
    (
        "4k3/8/8/8/8/8/1p6/4K1NN w - -",
        "10000000000002d0 e1Kffffffffffffffff e8Kffffffffffffffff h1Nffffffffffffffff g1Nffffffffffffffff \
         b2P0000000000000200",
        false,
    ),
    // A pawn on a2 shuts in its king on a1.
    (
        "4k3/8/8/8/8/8/p7/4K2N w - -",
        "1000000000000190 e1Kffffffffffffffff e8Kffffffffffffffff h1Nffffffffffffffff a2P0000000000000100",
        false,
    ),
    // A rook on a8 attacks f8 through a king on e8.
    (
        "4k3/8/8/8/8/8/8/R3K3 w - -",
        "1000000000000011 e1K0000100000000000 e8K1000000000000000 a1R0100000000000000",
        false,
    ),
    // Either king is nowhere in reach.
    (
        "4k3/8/8/8/8/8/8/RR2K3 w - -",
        "1000000000000013 e1K0000000000000010 a1Rffffffffffffffff b1Rffffffffffffffff",
        true,
    ),
    (
        "4k3/8/8/8/8/8/8/RR2K3 w - -",
        "1000000000000013 e8K8000000000000000 a1Rffffffffffffffff b1Rffffffffffffffff",
        true,
    ),
    // The kings are in reach on one square, or on two squares next to each other.
    (
        "4k3/8/8/8/8/8/8/R3K3 w - -",
        "1000000000000011 e1K8000000000000000 e8K8000000000000000 a1Rffffffffffffffff",
        true,
    ),
    (
        "4k3/8/8/8/8/8/8/RR2K3 w - -",
        "1000000000000013 e1K0040000000000000 e8K8000000000000000 a1Rffffffffffffffff b1Rffffffffffffffff",
        true,
    ),
    // A queen on f7 shuts in a king on h8 without a check; on g7, next to its king, it mates.
    (
        "4k3/8/8/8/8/8/8/Q3K3 w - -",
        "1000000000000011 e1K0000000000000010 e8K8000000000000000 a1Q0020000000000000",
        true,
    ),
    (
        "4k3/8/8/8/8/8/8/Q3K3 w - -",
        "1000000000000011 e1K0000200000000000 e8K8000000000000000 a1Q0040000000000000",
        false,
    ),
    // A rook on h1 gives check to a king on h8 past a loose man on h4, and not past a fixed one. A knight on g8 would step between.
    (
        "1r2k3/8/8/8/7p/8/8/R3K3 w - -",
        "1200000000000011 e1K0000400000000000 e8K8000000000000000 a1R0000000000000080 b8R4000000000000000",
        true,
    ),
    (
        "1r2k3/8/8/8/7p/8/8/R3K3 w - -",
        "1200000080000011 e1K0000400000000000 e8K8000000000000000 a1R0000000000000080 b8R4000000000000000",
        false,
    ),
    (
        "1n2k3/8/8/8/7p/8/8/R3K3 w - -",
        "1200000080000011 e1K0000400000000000 e8K8000000000000000 a1R0000000000000080 b8N4000000000000000",
        true,
    ),
    // Knights on f7 and e6 leave g8 and h7 to a king on h8: one knight does not fill both, and two do.
    (
        "1n2k3/8/8/8/8/8/8/NN2K3 w - -",
        "1200000000000013 e1K0000000000000010 e8K8000000000000000 a1N0020100000000000 b1N0020100000000000 \
         b8N4080000000000000",
        true,
    ),
    (
        "1n1nk3/8/8/8/8/8/8/NN2K3 w - -",
        "1a00000000000013 e1K0000000000000010 e8K8000000000000000 a1N0020100000000000 b1N0020100000000000 \
         b8N4080000000000000 d8N4080000000000000",
        false,
    ),
    // Another rook on a8 attacks g8 past a loose man on d8, and not past a fixed one.
    (
        "3nk3/8/8/8/8/8/8/RR2K3 w - -",
        "1000000000000013 e1K0000200000000000 e8K8000000000000000 a1R0000000000000080 b1R0100000000000000",
        true,
    ),
    (
        "3nk3/8/8/8/8/8/8/RR2K3 w - -",
        "1800000000000013 e1K0000200000000000 e8K8000000000000000 a1R0000000000000080 b1R0100000000000000",
        false,
    ),
    // A queen attacks no square from where the king stands; from g6 it does.
    (
        "4k3/8/8/8/8/8/8/RQ2K3 w - -",
        "1000000000000013 e1K0000000000000010 e8K8000000000000000 a1R0000000000000080 b1Q8000000000000000",
        true,
    ),
    (
        "4k3/8/8/8/8/8/8/RQ2K3 w - -",
        "1000000000000013 e1K0000000000000010 e8K8000000000000000 a1R0000000000000080 b1Q0000400000000000",
        false,
    ),
    // The man on g7 gives check to a king on h8 as a pawn, and not as a knight.
    (
        "4k3/7p/8/8/8/8/P7/4K3 w - -",
        "1080000000000110 e1K0020000000000000 e8K8000000000000000 a2P0040000000000000 h7P0080000000000000",
        false,
    ),
    (
        "4k3/7p/8/8/8/8/P7/4K3 w - -",
        "1080000000000110 e1K0020000000000000 e8K8000000000000000 a2N0040000000000000 h7P0080000000000000",
        true,
    ),
];

/// Asserts whether sets have no mate for White.
fn have_no_mate(rt: &impl Abort, alloc: Global, fen: &str, text: &str, none: bool) {
    let position = read(fen.as_bytes()).expect(rt, "a position");
    let sets = sets_of(rt, alloc, text);
    assert!(rt; no_mate(&position, Color::White, &sets) == none, "{fen}");
}

#[test]
fn mates_are_in_reach_where_each_part_of_a_threat_is(rt: HostRuntime) {
    for (fen, text, none) in SETS {
        have_no_mate(&rt, rt.alloc(), fen, text, *none);
    }
}
