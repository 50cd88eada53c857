//! The first lines of a number of plies that mate from a position.

ghost use Rattle.std.specs.Prelude.{◌≡◌, ◌≤◌, take, IfOk};
ghost use Rattle.std.specs.Bool.{OnTrue};
ghost use Rattle.cha_moves.specs.Ends.{HasNoMateWithin};
ghost use Rattle.cha_moves.specs.MateLines.{mate_lines};
ghost use Rattle.helpmate_list.specs.Shortest.{HasNoMateBelow};

use crate::answers::Lines;
use crate::leading::{add_led, standing_lines};
use cha_board::{Color, Position};
use cha_fact::{Facts, Key, Probe, Proved};
use cha_list::NoMemory;
use cha_moves::{after, legal, mating_move};
use helpmate::{RoundAnswer, decided};
use std::alloc::Global;

/// Whether a place knows that no list of at most so many legal moves mates.
fn is_known<F: Facts>(position: &Position, winner: Color, plies: u8, facts: &mut F) -> bool
    requires ready { F.ready facts.old }
    ensures stays_ready { F.ready facts.new }
    ensures none { OnTrue result (HasNoMateWithin position.now winner plies) }
{
    match facts.probe(&Key::of(position, winner)) {
        Probe::Found(row) => match decided(position, winner, &row, plies) {
            Some(RoundAnswer::NoneWithin) => true,
            Some(RoundAnswer::Mate(_)) => false,
            Some(RoundAnswer::Spent) => false,
            None => false,
        },
        Probe::Miss => false,
        Probe::Refused => false,
    }
}

/// The first `most` of all lists of so many moves that mate, where no list of fewer moves does. A place is asked for positions
/// and is given those that have no mate, so that one that other moves lead to as well is searched once; the last ply is asked
/// by the moves that may give check.
#[cycle(listing)]
pub fn first_lines<F: Facts>(
    alloc: Global,
    position: &Position,
    winner: Color,
    plies: u8,
    most: usize,
    facts: &mut F,
) -> Result<Lines, NoMemory>
    requires ready { F.ready facts.old }
    requires some { 1 ≤ most }
    requires least { HasNoMateBelow position.now winner plies }
    ensures stays_ready { F.ready facts.new }
    ensures lines { IfOk result (λ lines. lines ≡ take most (mate_lines plies position.now winner)) }
{
    if plies == 0 {
        return standing_lines(alloc, position, winner);
    }
    if plies == 1 {
        return match mating_move(position, winner) {
            None => Ok(Lines::new(alloc)),
            Some(_) => expand(alloc, position, winner, plies, most, facts),
        };
    }
    if is_known(position, winner, plies, facts) {
        return Ok(Lines::new(alloc));
    }
    let lines = expand(alloc, position, winner, plies, most, facts)?;
    if lines.items().is_empty() {
        let _stored = facts.store(Proved::none(position, winner, plies));
    }
    Ok(lines)
}

/// The same by the legal moves, one after the other.
#[cycle(listing)]
fn expand<F: Facts>(
    alloc: Global,
    position: &Position,
    winner: Color,
    plies: u8,
    most: usize,
    facts: &mut F,
) -> Result<Lines, NoMemory>
    requires ready { F.ready facts.old }
    requires some { 1 ≤ most }
    requires deep { 1 ≤ plies }
    requires least { HasNoMateBelow position.now winner plies }
    ensures stays_ready { F.ready facts.new }
    ensures lines { IfOk result (λ lines. lines ≡ take most (mate_lines plies position.now winner)) }
{
    let moves = legal(alloc, position)?;
    let mut lines = Lines::new(alloc);
    for m in &moves {
        if lines.items().len() < most {
            let next = after(position, *m);
            let rest = first_lines(alloc, &next, winner, plies - 1, most, facts)?;
            add_led(alloc, &mut lines, *m, rest.items(), most)?;
        }
    }
    Ok(lines)
}
