//! How many positions a round expands, and what a place keeps of it.

ghost use Rattle.std.specs.Prelude.{◌≤◌};
ghost use Rattle.shard_table.specs.Tables.{IsOfTable};

use crate::from_fen::place;
use cha_board::{Color, Position};
use cha_fact::Proved;
use cha_moves::replays;
use helpmate::{RoundAnswer, RoundDone, round};
use shard_table::{Shard, Table, TableFacts, TablePass};
use std::alloc::Global;
use std::process::Abort;
use std::sync::Wait;

/// A lone queen is taken by the only move, after which White's king has five.
const ONE_MOVE: &str = "k7/1Q6/8/8/8/8/8/4K3 b - -";

const AFTER_IT: &str = "8/1k6/8/8/8/8/8/4K3 w - -";

/// How many moves the mate of a round has that replays, if it is a mate.
fn moves_of(position: &Position, winner: Color, done: &RoundDone) -> Option<usize> {
    match &done.round {
        RoundAnswer::Mate(line) => {
            if replays(position, winner, line.moves()) {
                Some(line.moves().len())
            } else {
                None
            }
        }
        RoundAnswer::NoneWithin => None,
        RoundAnswer::Spent => None,
    }
}

/// Asserts that a round for White, which may expand a hundred positions, finds no mate and expands so many.
fn finds_none(
    rt: &impl Abort,
    alloc: Global,
    position: &Position,
    depth: u8,
    shard: &mut Shard,
    positions: u32,
)
    requires { depth ≤ 8 }
{
    let done = round(alloc, position, Color::White, depth, Some(100), shard);
    let done = done.expect(rt, "memory");
    assert!(rt; matches!(&done.round, RoundAnswer::NoneWithin));
    assert_eq!(rt; done.positions, positions);
}

#[test]
fn what_a_place_knows_is_not_expanded(rt: HostRuntime) {
    let alloc = rt.alloc();
    let position = place(&rt, ONE_MOVE);
    let after = place(&rt, AFTER_IT);
    let mut empty = Shard::new(alloc, 16).expect(&rt, "memory");
    finds_none(&rt, alloc, &position, 3, &mut empty, 7);
    let mut shard = Shard::new(alloc, 16).expect(&rt, "memory");
    let below = round(alloc, &after, Color::White, 2, None, &mut shard);
    assert_eq!(rt; below.expect(&rt, "memory").positions, 6);
    finds_none(&rt, alloc, &position, 3, &mut shard, 1);
    finds_none(&rt, alloc, &position, 3, &mut shard, 0);
}

#[test]
fn an_allowance_is_spent(rt: HostRuntime) {
    let alloc = rt.alloc();
    let start = Position::start();
    let mut shard = Shard::new(alloc, 16).expect(&rt, "memory");
    let done = round(alloc, &start, Color::Black, 4, Some(21), &mut shard);
    let done = done.expect(&rt, "memory");
    assert!(rt; matches!(&done.round, RoundAnswer::Spent));
    assert_eq!(rt; done.positions, 21);
}

/// A round of two plies for White with a table.
fn in_table<R: Wait + Abort>(
    rt: &R,
    alloc: Global,
    position: &Position,
    table: &Table,
    pass: &mut TablePass,
) -> RoundDone
    requires { IsOfTable table.now pass.old }
    ensures { IsOfTable table.now pass.new }
{
    let mut facts = TableFacts::new(rt, table, pass);
    let done = round(alloc, position, Color::White, 2, None, &mut facts);
    done.expect(rt, "memory")
}

#[test]
fn a_table_keeps_what_a_round_found(rt: HostRuntime) {
    let alloc = rt.alloc();
    let position = place(&rt, ONE_MOVE);
    let mated = place(&rt, "6k1/5ppp/8/8/8/8/5PPP/3R2K1 b - -");
    let (table, mut pass) = Table::new(alloc, 1024).expect(&rt, "memory");
    let none = in_table(&rt, alloc, &position, &table, &mut pass);
    assert!(rt; matches!(&none.round, RoundAnswer::NoneWithin));
    assert_eq!(rt; none.positions, 2);
    let again = in_table(&rt, alloc, &position, &table, &mut pass);
    assert_eq!(rt; again.positions, 0);
    let mate = in_table(&rt, alloc, &mated, &table, &mut pass);
    assert_eq!(rt; moves_of(&mated, Color::White, &mate), Some(2));
}
