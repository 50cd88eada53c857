//! Mates of known lengths, a line that is full, and keys.

use crate::from_fen::place;
use cha_board::{Color, Square, same_position};
use cha_fact::{Fact, Key, Line, Proved};
use cha_moves::{Move, after, is_legal, replays};
use std::alloc::Global;
use std::process::Abort;

const OPENING: &str = "rnbqkbnr/pppppppp/8/8/8/8/PPPPPPPP/RNBQKBNR w KQkq -";

/// After 1. f3.
const ONE_MOVE: &str = "rnbqkbnr/pppppppp/8/8/8/5P2/PPPPP1PP/RNBQKBNR b KQkq -";

/// After 1. f3 e5, 2. g4 and 2. .. Qh4 mate.
const FOOLS_MATE: [&str; 3] = [
    "rnbqkbnr/pppp1ppp/8/4p3/8/5P2/PPPPP1PP/RNBQKBNR w KQkq e6",
    "rnbqkbnr/pppp1ppp/8/4p3/6P1/5P2/PPPPP2P/RNBQKBNR b KQkq g3",
    "rnb1kbnr/pppp1ppp/8/4p3/6Pq/5P2/PPPPP2P/RNBQKBNR w KQkq -",
];

/// The knights go out and back again.
const KNIGHTS: [(u8, u8); 4] = [(6, 21), (62, 45), (21, 6), (45, 62)];

/// From the opening position to the fool's mate.
const TO_MATE: [(u8, u8); 4] = [(13, 21), (52, 36), (14, 30), (59, 31)];

/// The move from one square to another.
fn to_move(rt: &impl Abort, (from, to): (u8, u8)) -> Move {
    Move {
        from: Square::new(from).expect(rt, "a square"),
        to: Square::new(to).expect(rt, "a square"),
        promotion: None,
    }
}

/// Appends moves, and whether there was room for all.
fn add(rt: &impl Abort, line: &mut Line, steps: &[(u8, u8)]) -> bool {
    for step in steps {
        if !line.push(to_move(rt, *step)) {
            return false;
        }
    }
    true
}

fn mate(rt: &impl Abort, alloc: Global, fen: &str, winner: Color, line: &Line) -> Proved {
    let position = place(rt, fen);
    assert!(rt; replays(&position, winner, line.moves()));
    Proved::mate(alloc, &position, winner, line).expect(rt, "memory")
}

/// How much a mating line says.
fn rank_of(rt: &impl Abort, alloc: Global, fen: &str, winner: Color, steps: &[(u8, u8)]) -> u32 {
    let mut line = Line::new();
    assert!(rt; add(rt, &mut line, steps));
    mate(rt, alloc, fen, winner, &line).rank()
}

/// The mate one move before, if it has room.
fn led_back(
    rt: &impl Abort,
    alloc: Global,
    fen: &str,
    step: (u8, u8),
    rest: &Proved,
) -> Option<Proved> {
    let before = place(rt, fen);
    let first = to_move(rt, step);
    assert!(rt; is_legal(&before, first));
    assert!(rt; same_position(&after(&before, first), &rest.position()));
    match rest.fact() {
        Fact::Mate(_) => Proved::step(alloc, &before, first, rest).expect(rt, "memory"),
        Fact::NoneWithin(_) => panic!(rt; "no mate"),
    }
}

#[test]
fn known_mates_rank_by_their_length(rt: HostRuntime) {
    let queen = "7k/6Q1/6K1/8/8/8/8/8 b - -";
    let mated = rank_of(&rt, rt.alloc(), queen, Color::White, &[]);
    assert_eq!(rt; mated, 1000);
    let back_rank = "6k1/5ppp/8/8/8/8/8/R3K3 w - -";
    let one = rank_of(&rt, rt.alloc(), back_rank, Color::White, &[(0, 56)]);
    assert_eq!(rt; one, 999);
    let two = rank_of(&rt, rt.alloc(), FOOLS_MATE[0], Color::Black, &TO_MATE[2..]);
    assert_eq!(rt; two, 998);
    let three = rank_of(&rt, rt.alloc(), ONE_MOVE, Color::Black, &TO_MATE[1..]);
    assert_eq!(rt; three, 997);
}

/// Whether a fact is a mate by these moves.
fn is_mate_by(rt: &impl Abort, fact: &Proved, steps: &[(u8, u8)]) -> bool {
    let mut wanted = Line::new();
    assert!(rt; add(rt, &mut wanted, steps));
    match fact.fact() {
        Fact::Mate(line) => line.moves() == wanted.moves(),
        Fact::NoneWithin(_) => false,
    }
}

#[test]
fn a_mate_is_led_back_move_by_move(rt: HostRuntime) {
    let alloc = rt.alloc();
    let mated = mate(&rt, alloc, FOOLS_MATE[2], Color::Black, &Line::new());
    let one = led_back(&rt, alloc, FOOLS_MATE[1], (59, 31), &mated).expect(&rt, "room");
    let two = led_back(&rt, alloc, FOOLS_MATE[0], (14, 30), &one).expect(&rt, "room");
    assert_eq!(rt; two.rank(), 998);
    assert!(rt; is_mate_by(&rt, &two, &TO_MATE[2..]));
    let copy = two.copy(alloc).expect(&rt, "memory");
    assert!(rt; is_mate_by(&rt, &copy, &TO_MATE[2..]));
}

/// Asserts that a line of 60 moves has room for four, and for none behind them.
fn fill(rt: &impl Abort, line: &mut Line) {
    for _ in 0..15 {
        assert!(rt; add(rt, line, &KNIGHTS));
    }
    assert!(rt; add(rt, line, &TO_MATE));
    assert!(rt; !add(rt, line, &TO_MATE));
    assert_eq!(rt; line.moves().len(), 64);
}

#[test]
fn a_line_of_64_moves_is_full(rt: HostRuntime) {
    let mut line = Line::new();
    fill(&rt, &mut line);
    let full = mate(&rt, rt.alloc(), OPENING, Color::Black, &line);
    assert_eq!(rt; full.rank(), 936);
    let before = "rnbqkb1r/pppppppp/5n2/8/8/8/PPPPPPPP/RNBQKBNR b KQkq -";
    assert!(rt; led_back(&rt, rt.alloc(), before, (45, 62), &full).is_none());
}

/// Two positions, and whether their keys for White are the same.
const KEYS: &[(&str, &str, bool)] = &[
    (
        "4k2r/8/8/8/8/8/8/4K2R w Kk -",
        "4k2r/8/8/8/8/8/8/4K2R w Kk -",
        true,
    ),
    (
        "4k2r/8/8/8/8/8/8/4K2R w Kk -",
        "4k2r/8/8/8/8/8/8/4K2R w K -",
        false,
    ),
    (
        "4k3/8/8/3pP3/8/8/8/4K3 w - d6",
        "4k3/8/8/3pP3/8/8/8/4K3 w - -",
        false,
    ),
    (
        "4k3/8/8/8/8/8/8/4K3 w - -",
        "4k3/8/8/8/8/8/8/4K3 b - -",
        false,
    ),
    (
        "4k3/8/8/8/8/8/8/R3K3 w - -",
        "4k3/8/8/8/8/8/8/Q3K3 w - -",
        false,
    ),
];

#[test]
fn keys_differ_where_positions_or_sides_do(rt: HostRuntime) {
    for (one, other, same) in KEYS {
        let key = Key::of(&place(&rt, one), Color::White);
        let other = place(&rt, other);
        assert!(rt; (key == Key::of(&other, Color::White)) == *same);
        assert!(rt; key != Key::of(&other, Color::Black));
    }
}
