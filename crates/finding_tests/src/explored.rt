//! Explorations of positions whose end is known. The certificates of closed ones are rows of data (`rows/runs/certificates.txt`).

ghost use Rattle.std.specs.Prelude.{◌<◌};
ghost use Rattle.cha_board.specs.Men.{other_color};
ghost use Rattle.cha_moves.specs.Ends.{IsMated};
ghost use Rattle.mob_law.specs.Static.{IsStaticallyUnwinnable};

use crate::from_fen::place;
use cha_board::{Color, Position, Square};
use cha_fact::{Facts, Line, Proved};
use cha_moves::{Move, is_mate, replays};
use forced_graph::{Explored, explore};
use mob_solve::static_verdict;
use shard_table::{Shard, Table, TableFacts};
use std::alloc::Global;
use std::process::Abort;

/// A queen is taken by the only move, and a bare king is left to play against a pawn.
const QUEEN_TAKEN: &str = "k7/1Q6/8/8/8/p7/8/4K3 b - -";

/// A rook mates on the last rank.
const LAST_RANK: &str = "6k1/5ppp/8/8/8/8/5PPP/3R2K1 b - -";

/// A lone knight mates nowhere, while a queen goes everywhere.
const LONE_KNIGHT: &str = "8/8/8/4k3/3q4/8/8/4KN2 w - -";

/// Asserts that an exploration for White may begin.
fn begins(rt: &impl Abort, alloc: Global, position: &Position)
    ensures running { IsMated position.now (other_color Color.White) → ⊥ }
    ensures unshown { IsStaticallyUnwinnable position.now Color.White → ⊥ }
{
    assert!(rt; !is_mate(position, Color::White));
    let shown = static_verdict(alloc, position, Color::White);
    assert!(rt; shown.expect(rt, "memory").is_none());
}

/// Explores for White with a place of one's own.
fn explored(
    rt: &impl Abort,
    alloc: Global,
    position: &Position,
    budget: u32,
    shard: &mut Shard,
) -> Explored
    requires { 0 < budget }
{
    begins(rt, alloc, position);
    let found = explore(alloc, position, Color::White, budget, shard);
    found.expect(rt, "memory")
}

#[test]
fn a_mate_is_found_with_its_line(rt: HostRuntime) {
    let position = place(&rt, LAST_RANK);
    let mut shard = Shard::new(rt.alloc(), 16).expect(&rt, "memory");
    match explored(&rt, rt.alloc(), &position, 1000, &mut shard) {
        Explored::Mate(moves) => {
            assert!(rt; replays(&position, Color::White, moves.items()));
        }
        _ => panic!(rt; "no mate"),
    }
}

#[test]
fn a_budget_is_spent_to_the_last(rt: HostRuntime) {
    let position = place(&rt, LONE_KNIGHT);
    let mut shard = Shard::new(rt.alloc(), 16).expect(&rt, "memory");
    match explored(&rt, rt.alloc(), &position, 50, &mut shard) {
        Explored::Spent { count } => assert_eq!(rt; count, 50),
        _ => panic!(rt; "not spent"),
    }
}

/// A mate by this move, as what is known of a position.
fn mate_by(rt: &impl Abort, alloc: Global, position: &Position, first: Move) -> Proved {
    let mut line = Line::new();
    line.push(first);
    assert!(rt; replays(position, Color::White, line.moves()));
    Proved::mate(alloc, position, Color::White, &line).expect(rt, "memory")
}

#[test]
fn a_mate_that_a_place_knows_ends_it(rt: HostRuntime) {
    let position = place(&rt, "7k/8/6K1/8/8/8/8/R7 w - -");
    let mut shard = Shard::new(rt.alloc(), 16).expect(&rt, "memory");
    let first = Move {
        from: Square::new(0).expect(&rt, "a square"),
        to: Square::new(56).expect(&rt, "a square"),
        promotion: None,
    };
    let _stored = shard.store(mate_by(&rt, rt.alloc(), &position, first));
    match explored(&rt, rt.alloc(), &position, 1, &mut shard) {
        Explored::Mate(moves) => assert!(rt; moves.items() == [first].as_slice()),
        _ => panic!(rt; "no mate"),
    }
}

#[test]
fn a_table_is_asked_too(rt: HostRuntime) {
    let position = place(&rt, QUEEN_TAKEN);
    let (table, mut pass) = Table::new(rt.alloc(), 1024).expect(&rt, "memory");
    begins(&rt, rt.alloc(), &position);
    let mut facts = TableFacts::new(&rt, &table, &mut pass);
    let closed = explore(rt.alloc(), &position, Color::White, 1, &mut facts);
    assert!(rt; matches!(&closed, Ok(Explored::Closed(_))));
}
