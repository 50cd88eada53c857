//! A round: the search of a position to a depth, and how many positions it expanded.

ghost use Rattle.std.specs.Prelude.{◌≡◌, ◌+◌, ◌-◌, ◌≤◌, Some, IsNone, Ok, IfOk};
ghost use Rattle.helpmate.specs.Counted.{CountsPositions};
ghost use Rattle.helpmate.specs.Rounds.{IsAnswer, IsAllowed, RoundCalls};
ghost use Rattle.helpmate.specs.Searches.{RootSearches};

use crate::answers::{RoundAnswer, RoundDone};
use crate::deciding::decided;
use crate::last::search_shallow;
use crate::search::{ask, search};
use cha_board::{Color, Position};
use cha_fact::{Facts, Probe};
use cha_list::NoMemory;
use std::alloc::Global;

/// Looks for a mate for a side within `depth` plies, with a place that keeps facts. At most `allowance` positions are
/// expanded, if one is given; else the depth is at most 2.
///
/// A mate that the place knows may have more plies than the depth, at most 32. No line has more than these and the depth.
pub fn round<F: Facts>(
    alloc: Global,
    position: &Position,
    winner: Color,
    depth: u8,
    allowance: Option<u32>,
    facts: &mut F,
) -> Result<RoundDone, NoMemory>
    requires ready { F.ready facts.old }
    requires few { depth ≤ 8 }
    requires bounded { IsNone allowance → depth ≤ 2 }
    ensures stays_ready { F.ready facts.new }
    ensures holds { IfOk result (λ done. IsAnswer position.now winner depth (32 + depth) done.round) }
    ensures allowed { IfOk result (λ done. IsAllowed allowance done.positions) }
    ensures positions { IfOk result (λ done. CountsPositions position.now depth done.positions) }
    ensures spent { IfOk result (λ done. done.round ≡ RoundAnswer.Spent → allowance ≡ Some done.positions) }
    ensures calls { RoundCalls F.made facts.old facts.new position.now winner depth result }
{
    let most = match allowance {
        Some(positions) => positions,
        None => u32::MAX,
    };
    let mut left = most;
    let round = search_root(alloc, position, winner, depth, &mut left, facts)?;
    Ok(RoundDone {
        round,
        positions: most - left,
    })
}

/// Searches the position of a round, which is asked for whatever the depth.
fn search_root<F: Facts>(
    alloc: Global,
    position: &Position,
    winner: Color,
    depth: u8,
    left: &mut u32,
    facts: &mut F,
) -> Result<RoundAnswer, NoMemory>
    requires ready { F.ready facts.old }
    requires few { depth ≤ 8 }
    ensures stays_ready { F.ready facts.new }
    ensures less { left.new ≤ left.old }
    ensures positions { IfOk result (λ answer. CountsPositions position.now depth (left.old - left.new)) }
    ensures holds { IfOk result (IsAnswer position.now winner depth (32 + depth)) }
    ensures spent { result ≡ Ok RoundAnswer.Spent → left.new ≡ 0 }
    ensures calls { RootSearches F.made facts.old facts.new position.now winner depth (left.old - left.new) result }
{
    if depth <= 1 {
        return Ok(looked(position, winner, depth, left, facts));
    }
    search(alloc, position, winner, depth, left, facts)
}

/// Searches a position to one ply or none, after it was asked for.
fn looked<F: Facts>(
    position: &Position,
    winner: Color,
    depth: u8,
    left: &mut u32,
    facts: &mut F,
) -> RoundAnswer
    requires ready { F.ready facts.old }
    requires few { depth ≤ 1 }
    ensures stays_ready { F.ready facts.new }
    ensures less { left.new ≤ left.old }
    ensures positions { CountsPositions position.now depth (left.old - left.new) }
    ensures holds { IsAnswer position.now winner depth (32 + depth) result }
    ensures spent { result ≡ RoundAnswer.Spent → left.new ≡ 0 }
    ensures calls { RootSearches F.made facts.old facts.new position.now winner depth (left.old - left.new) (Ok result) }
{
    match ask(position, winner, facts) {
        Probe::Found(row) => match decided(position, winner, &row, depth) {
            Some(answer) => answer,
            None => search_shallow(position, winner, depth, left),
        },
        Probe::Miss => search_shallow(position, winner, depth, left),
        Probe::Refused => search_shallow(position, winner, depth, left),
    }
}
