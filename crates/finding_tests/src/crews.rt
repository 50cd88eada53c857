//! A mate that two workers find at one table. What one worker and more answer are rows of data (`rows/`).

ghost use Rattle.cha_board.specs.Men.{other_color};
ghost use Rattle.cha_moves.specs.Ends.{IsMated};

use crate::from_fen::place;
use cha_board::{Color, Position};
use cha_moves::{is_mate, replays};
use root_workers::{Limits, Many, RoundsEnd, crew, rounds};
use shard_table::Table;
use std::alloc::Global;
use std::process::Abort;
use std::sync::Wait;
use std::thread::Threads;

const SCHOLARS: &str = "r1bqkbnr/pppp1ppp/2n5/4p2Q/2B1P3/8/PPPP1PPP/RNB1K1NR b KQkq -";

/// Asserts that two workers find the mate.
fn find<R: Threads + Wait + Abort + Sync>(rt: &R, alloc: Global, position: &Position)
    requires { IsMated position.now (other_color Color.White) → ⊥ }
{
    let limits = Limits::new(10_000, 4, 2, 1024);
    let (table, mut pass) = Table::new(alloc, 1024).expect(rt, "memory");
    let mut workers = crew(alloc, &table, &mut pass, 2).expect(rt, "memory");
    let white = Color::White;
    let mut many = Many::new(rt, &table, &mut workers);
    let done = rounds(alloc, position, white, &limits, &mut many);
    match done.expect(rt, "memory") {
        RoundsEnd::Mate(line) => assert!(rt; replays(position, white, line.moves())),
        RoundsEnd::NoneWithin(_) => panic!(rt; "no mate"),
    }
}

#[test]
fn two_workers_find_a_mate(rt: HostRuntime) {
    let position = place(&rt, SCHOLARS);
    assert!(rt; !is_mate(&position, Color::White));
    find(&rt, rt.alloc(), &position);
}
