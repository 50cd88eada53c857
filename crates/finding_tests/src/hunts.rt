//! Hunts in positions of which it is known whether and how they can be mated.

use crate::from_fen::place;
use cha_board::Color;
use cha_moves::replays;
use mate_hunt::{Width, hunt};
use search_guide::Guide;
use std::alloc::Global;
use std::process::Abort;

/// Positions, the side that mates by its next move, and how.
const NEXT: &[(&str, Color)] = &[
    // the rook on the back rank
    ("6k1/5ppp/8/8/8/8/8/R3K3 w - -", Color::White),
    // the fool's mate
    (
        "rnbqkbnr/pppp1ppp/8/4p3/6P1/5P2/PPPPP2P/RNBQKBNR b KQkq g3",
        Color::Black,
    ),
    // the scholar's mate
    (
        "r1bqkb1r/pppp1ppp/2n2n2/4p2Q/2B1P3/8/PPPP1PPP/RNB1K1NR w KQkq -",
        Color::White,
    ),
    // a smothered king
    ("6rk/6pp/8/4N3/8/8/8/6K1 w - -", Color::White),
    // a pawn becomes a queen
    ("7k/P7/6K1/8/8/8/8/8 w - -", Color::White),
    // castling
    ("8/8/8/8/8/8/7R/1k2K2R w K -", Color::White),
];

/// Positions and the side that a longer way leads to a mate for.
const FAR: &[(&str, Color)] = &[
    ("8/8/8/4k3/8/8/8/4KR2 w - -", Color::White),
    ("8/8/8/4k3/8/8/4P3/4K3 b - -", Color::White),
    ("4k3/8/8/8/3bn3/8/8/4K3 w - -", Color::Black),
    // a bare king beside two knights, in whose corner it can be mated
    ("8/8/8/4k3/8/8/8/NN2K3 w - -", Color::White),
];

/// The same, where the guide that takes squares away leads nowhere.
const TO_A_CORNER: &[(&str, Color)] = &[
    // a lone bishop, which mates where a pawn of the loser stands beside its king
    ("8/8/8/4k3/7p/8/8/4KB2 w - -", Color::White),
    (
        "rnbqkbnr/pppppppp/8/8/8/8/PPPPPPPP/RNBQKBNR w KQkq -",
        Color::Black,
    ),
];

/// The same, where of the guides the one that weighs all leads to a mate, and the others to none among so many positions.
const BY_ALL: &[(&str, Color)] = &[
    // bishops of one colour and a knight beside a bare king, and beside a bishop
    ("5k2/8/1n6/4b1K1/8/2b5/8/2b5 w - -", Color::Black),
    ("4k3/3b4/8/1n5b/4K3/7b/8/8 w - -", Color::Black),
    ("K7/2p5/k7/8/3B1b2/3NB3/1B6/8 b - -", Color::White),
    // bishops of one colour, which need a pawn that is promoted on the other wing
    ("8/kB5B/6B1/1K6/7p/8/8/8 w - -", Color::White),
    ("2B5/8/1k2B1p1/8/8/K2B4/8/8 b - -", Color::White),
];

/// Positions and a side that no series of legal moves mates for.
const NOWHERE: &[(&str, Color)] = &[
    // stalemate
    ("7k/5Q2/6K1/8/8/8/8/8 b - -", Color::White),
    // mate for the other side
    ("7k/6Q1/6K1/8/8/8/8/8 b - -", Color::Black),
    // a bare king
    ("8/8/8/4k3/3q4/8/8/4K3 w - -", Color::White),
    // a lone knight against a bare king
    ("8/8/8/4k3/8/8/8/4KN2 w - -", Color::White),
    // the queen has to be taken
    ("k7/1Q6/8/8/8/8/8/4K3 b - -", Color::White),
];

/// How many moves the line of a hunt has that replays, if there is one.
fn found(
    rt: &impl Abort,
    alloc: Global,
    fen: &str,
    winner: Color,
    most: u32,
    by: Guide,
) -> Option<usize> {
    let position = place(rt, fen);
    let found = hunt(alloc, &position, winner, most, by, Width::All);
    match found.expect(rt, "memory") {
        None => None,
        Some(line) => {
            assert!(rt; replays(&position, winner, line.items()));
            Some(line.items().len())
        }
    }
}

/// Asserts that a hunt by a guide finds a mate by the next move, and none before it or for the other side.
fn mates_next(rt: &impl Abort, alloc: Global, fen: &str, winner: Color, by: Guide) {
    assert_eq!(rt; found(rt, alloc, fen, winner, 0, by), None, "{fen}");
    assert_eq!(rt; found(rt, alloc, fen, winner, 1, by), Some(1), "{fen}");
    assert_eq!(rt; found(rt, alloc, fen, winner.other(), 1, by), None, "{fen}");
}

#[test]
fn the_next_move_mates(rt: HostRuntime) {
    for (fen, winner) in NEXT {
        mates_next(&rt, rt.alloc(), fen, *winner, Guide::Corner);
        mates_next(&rt, rt.alloc(), fen, *winner, Guide::Flights);
        mates_next(&rt, rt.alloc(), fen, *winner, Guide::Balance);
    }
}

#[test]
fn a_mate_on_the_board_is_found_at_once(rt: HostRuntime) {
    let mate = "7k/6Q1/6K1/8/8/8/8/8 b - -";
    let none = found(&rt, rt.alloc(), mate, Color::White, 0, Guide::Corner);
    assert_eq!(rt; none, Some(0));
}

/// Asserts whether a hunt by a guide finds a mate.
fn finds(
    rt: &impl Abort,
    alloc: Global,
    fen: &str,
    winner: Color,
    most: u32,
    by: Guide,
    want: bool,
) {
    let line = found(rt, alloc, fen, winner, most, by);
    assert!(rt; line.is_some() == want, "{fen} {by:?}");
}

#[test]
fn a_mate_further_away_is_found(rt: HostRuntime) {
    for (fen, winner) in FAR {
        finds(&rt, rt.alloc(), fen, *winner, 20_000, Guide::Corner, true);
        finds(&rt, rt.alloc(), fen, *winner, 20_000, Guide::Flights, true);
        finds(&rt, rt.alloc(), fen, *winner, 20_000, Guide::Balance, true);
        finds(&rt, rt.alloc(), fen, *winner, 1, Guide::Corner, false);
    }
    for (fen, winner) in TO_A_CORNER {
        finds(&rt, rt.alloc(), fen, *winner, 1_000, Guide::Corner, true);
    }
    for (fen, winner) in BY_ALL {
        finds(&rt, rt.alloc(), fen, *winner, 20_000, Guide::Corner, false);
        finds(&rt, rt.alloc(), fen, *winner, 20_000, Guide::Flights, false);
        finds(&rt, rt.alloc(), fen, *winner, 20_000, Guide::Balance, true);
    }
}

#[test]
fn where_no_mate_is_none_is_found(rt: HostRuntime) {
    for (fen, winner) in NOWHERE {
        finds(&rt, rt.alloc(), fen, *winner, 300, Guide::Corner, false);
        finds(&rt, rt.alloc(), fen, *winner, 300, Guide::Flights, false);
        finds(&rt, rt.alloc(), fen, *winner, 300, Guide::Balance, false);
    }
}

/// Positions in which White mates, and in which the hunts by the guide that weighs all find that among so many positions only where
/// they leave out most moves.
const BROAD: &[&str] = &[
    "8/3K4/B7/3B4/2p5/8/1p1k2B1/5B2 w - -",
    "4B3/1B2KB2/B2pp3/3k4/8/8/8/8 b - -",
];

#[test]
fn moves_are_left_out_to_look_further(rt: HostRuntime) {
    let alloc = rt.alloc();
    for fen in BROAD {
        let position = place(&rt, fen);
        for (width, want) in [(Width::All, false), (Width::Broad, true)] {
            let found = hunt(
                alloc,
                &position,
                Color::White,
                20_000,
                Guide::Balance,
                width,
            );
            let line = found.expect(&rt, "memory");
            assert!(rt; line.is_some() == want, "{fen} {width:?}");
        }
    }
}
