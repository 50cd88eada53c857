//! A shard of one row, through each reply but the one for want of memory.

use crate::from_fen::place;
use cha_board::{Color, Square};
use cha_fact::{FactCall, FactReply, Facts, Key, Line, Probe, Proved, Stored};
use cha_moves::{Move, replays};
use shard_table::Shard;
use std::alloc::Global;
use std::process::Abort;
use turn_cell::Object;

/// Black mates in two moves: 2. g4 Qh4.
const OPEN: &str = "rnbqkbnr/pppp1ppp/8/4p3/8/5P2/PPPPP1PP/RNBQKBNR w KQkq -";

const TWO_MOVES: &[(u8, u8)] = &[(14, 30), (59, 31)];

/// The knights go out and back again.
const KNIGHTS: &[(u8, u8)] = &[(6, 23), (62, 45), (23, 6), (45, 62)];

const MATED: &str = "7k/6Q1/6K1/8/8/8/8/8 b - -";

/// Appends moves.
fn add(rt: &impl Abort, line: &mut Line, steps: &[(u8, u8)]) {
    for (from, to) in steps {
        let step = Move {
            from: Square::new(*from).expect(rt, "a square"),
            to: Square::new(*to).expect(rt, "a square"),
            promotion: None,
        };
        assert!(rt; line.push(step));
    }
}

/// A mate.
fn mate(rt: &impl Abort, alloc: Global, fen: &str, winner: Color, line: &Line) -> Proved {
    let position = place(rt, fen);
    assert!(rt; replays(&position, winner, line.moves()));
    Proved::mate(alloc, &position, winner, line).expect(rt, "memory")
}

/// The mate in two moves, after the knights went out and back so often.
fn detour(rt: &impl Abort, alloc: Global, times: u8) -> Proved {
    let mut line = Line::new();
    for _ in 0..times {
        add(rt, &mut line, KNIGHTS);
    }
    add(rt, &mut line, TWO_MOVES);
    mate(rt, alloc, OPEN, Color::Black, &line)
}

fn mated(rt: &impl Abort, alloc: Global) -> Proved {
    mate(rt, alloc, MATED, Color::White, &Line::new())
}

/// How much a place knows of a key.
fn known<F: Facts>(facts: &mut F, key: &Key) -> Option<u32>
    requires { F.ready facts.old }
{
    match facts.probe(key) {
        Probe::Found(row) => Some(row.rank()),
        Probe::Miss => None,
        Probe::Refused => None,
    }
}

/// The reply to a row that is given, as a call of the shard.
fn given(shard: &mut Shard, row: Proved) -> Option<Stored> {
    match shard.apply(FactCall::Store(row)) {
        FactReply::Stored(reply) => Some(reply),
        FactReply::Probed(_) => None,
    }
}

/// Asserts how much a shard knows of a key.
fn knows(rt: &impl Abort, shard: &mut Shard, key: &Key, want: Option<u32>) {
    assert!(rt; known(shard, key) == want);
}

/// Asserts the reply to a row.
fn replies(rt: &impl Abort, shard: &mut Shard, row: Proved, want: Stored) {
    assert!(rt; given(shard, row) == Some(want));
}

#[test]
fn a_shard_of_one_row_replies_as_told(rt: HostRuntime) {
    let mut shard = Shard::new(rt.alloc(), 1).expect(&rt, "memory");
    let position = place(&rt, OPEN);
    let key = Key::of(&position, Color::Black);
    knows(&rt, &mut shard, &key, None);
    replies(&rt, &mut shard, detour(&rt, rt.alloc(), 1), Stored::Added);
    replies(&rt, &mut shard, detour(&rt, rt.alloc(), 2), Stored::Kept);
    knows(&rt, &mut shard, &key, Some(994));
    replies(&rt, &mut shard, detour(&rt, rt.alloc(), 0), Stored::Better);
    knows(&rt, &mut shard, &key, Some(998));
    knows(&rt, &mut shard, &Key::of(&position, Color::White), None);
    replies(
        &rt,
        &mut shard,
        mated(&rt, rt.alloc()),
        Stored::Evicted(key),
    );
    knows(&rt, &mut shard, &key, None);
}

#[test]
fn the_row_used_longest_ago_goes(rt: HostRuntime) {
    let mut shard = Shard::new(rt.alloc(), 2).expect(&rt, "memory");
    let key = Key::of(&place(&rt, OPEN), Color::Black);
    assert!(rt; shard.store(detour(&rt, rt.alloc(), 0)) == Stored::Added);
    let first = mated(&rt, rt.alloc());
    let last = first.key();
    assert!(rt; shard.store(first) == Stored::Added);
    knows(&rt, &mut shard, &key, Some(998));
    let mut line = Line::new();
    add(&rt, &mut line, &[(0, 56)]);
    let back_rank = "6k1/5ppp/8/8/8/8/8/R3K3 w - -";
    let row = mate(&rt, rt.alloc(), back_rank, Color::White, &line);
    assert!(rt; shard.store(row) == Stored::Evicted(last));
}
