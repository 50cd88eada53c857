//! The search of a position to a depth, which asks a place that keeps facts before it expands a position, and gives it
//! what comes out.

ghost use Rattle.std.specs.Prelude.{◌≡◌, ◌+◌, ◌-◌, ◌<◌, ◌≤◌, [], ◌∷◌, length, Contains, Ok, IfOk};
ghost use Rattle.cha_moves.specs.Moves.{after as position_after, legal as legal_moves};
ghost use Rattle.cha_moves.specs.Ends.{IsMatingLine};
ghost use Rattle.cha_fact.specs.Keys.{key_of};
ghost use Rattle.cha_fact.specs.Entries.{probe_entry, IsOfKey};
ghost use Rattle.helpmate.specs.Counted.{CountsPositions};
ghost use Rattle.helpmate.specs.Rounds.{IsAnswer};
ghost use Rattle.helpmate.specs.Searches.{Expands, Searches};

use crate::answers::RoundAnswer;
use crate::deciding::decided;
use crate::last::search_shallow;
use cha_board::{Color, Position};
use cha_fact::{Facts, Key, Line, Probe, Proved};
use cha_list::NoMemory;
use cha_moves::{Move, after, is_mate, legal};
use std::alloc::Global;

/// Asks a place for a position and a side.
pub fn ask<F: Facts>(position: &Position, winner: Color, facts: &mut F) -> Probe
    requires ready { F.ready facts.old }
    ensures stays_ready { F.ready facts.new }
    ensures entered { F.made facts.old (probe_entry (key_of position.now winner) result ∷ []) facts.new }
    ensures of_key { IsOfKey (key_of position.now winner) result }
{
    facts.probe(&Key::of(position, winner))
}

/// The mate before a move, from the one after it.
fn led(position: &Position, winner: Color, first: Move, rest: &Line) -> Line
    requires legal { Contains (legal_moves position.now) first }
    requires mates { IsMatingLine (position_after position.now first) winner rest.now }
    requires short { length rest.now < 64 }
    ensures value { result ≡ first ∷ rest.now }
    ensures mates { IsMatingLine position.now winner result }
{
    match rest.led_by(first) {
        Some(line) => line,
        None => unreachable!(),
    }
}

/// Searches a position to a depth: from 2 plies on it is asked for, and expanded if the answer does not decide. `left` is how
/// many more positions may be expanded.
#[cycle(searching)]
pub fn search<F: Facts>(
    alloc: Global,
    position: &Position,
    winner: Color,
    depth: u8,
    left: &mut u32,
    facts: &mut F,
) -> Result<RoundAnswer, NoMemory>
    requires ready { F.ready facts.old }
    requires few { depth ≤ 8 }
    ensures stays_ready { F.ready facts.new }
    ensures less { left.new ≤ left.old }
    ensures positions { IfOk result (λ answer. CountsPositions position.now depth (left.old - left.new)) }
    ensures holds { IfOk result (IsAnswer position.now winner depth (32 + depth)) }
    ensures spent { result ≡ Ok RoundAnswer.Spent → left.new ≡ 0 }
    ensures calls { Searches F.made facts.old facts.new position.now winner depth (left.old - left.new) result }
{
    if depth <= 1 {
        return Ok(search_shallow(position, winner, depth, left));
    }
    search_deep(alloc, position, winner, depth, left, facts)
}

/// Searches a position to 2 plies or more, which is asked for, and expanded if the answer does not decide. It stands apart so
/// that a search to one ply, of which there are most, has no room to make for answers of a place.
#[cycle(searching)]
fn search_deep<F: Facts>(
    alloc: Global,
    position: &Position,
    winner: Color,
    depth: u8,
    left: &mut u32,
    facts: &mut F,
) -> Result<RoundAnswer, NoMemory>
    requires ready { F.ready facts.old }
    requires some { 1 < depth }
    requires few { depth ≤ 8 }
    ensures stays_ready { F.ready facts.new }
    ensures less { left.new ≤ left.old }
    ensures positions { IfOk result (λ answer. CountsPositions position.now depth (left.old - left.new)) }
    ensures holds { IfOk result (IsAnswer position.now winner depth (32 + depth)) }
    ensures spent { result ≡ Ok RoundAnswer.Spent → left.new ≡ 0 }
    ensures calls { Searches F.made facts.old facts.new position.now winner depth (left.old - left.new) result }
{
    match ask(position, winner, facts) {
        Probe::Found(row) => match decided(position, winner, &row, depth) {
            Some(answer) => Ok(answer),
            None => expand(alloc, position, winner, depth, left, facts),
        },
        Probe::Miss => expand(alloc, position, winner, depth, left, facts),
        Probe::Refused => expand(alloc, position, winner, depth, left, facts),
    }
}

/// Searches a position to a depth by searching each position after a legal move to one ply less. What comes out without a mate
/// is given to keep.
#[cycle(searching)]
fn expand<F: Facts>(
    alloc: Global,
    position: &Position,
    winner: Color,
    depth: u8,
    left: &mut u32,
    facts: &mut F,
) -> Result<RoundAnswer, NoMemory>
    requires ready { F.ready facts.old }
    requires some { 1 < depth }
    requires few { depth ≤ 8 }
    ensures stays_ready { F.ready facts.new }
    ensures less { left.new ≤ left.old }
    ensures positions { IfOk result (λ answer. CountsPositions position.now depth (left.old - left.new)) }
    ensures holds { IfOk result (IsAnswer position.now winner depth (32 + depth)) }
    ensures spent { result ≡ Ok RoundAnswer.Spent → left.new ≡ 0 }
    ensures calls { Expands F.made facts.old facts.new position.now winner depth (left.old - left.new) result }
{
    if is_mate(position, winner) {
        return Ok(RoundAnswer::Mate(Line::new()));
    }
    if *left == 0 {
        return Ok(RoundAnswer::Spent);
    }
    *left -= 1;
    let moves = legal(alloc, position)?;
    for m in &moves {
        let next = after(position, *m);
        match search(alloc, &next, winner, depth - 1, left, facts)? {
            RoundAnswer::Mate(rest) => {
                return Ok(RoundAnswer::Mate(led(position, winner, *m, &rest)));
            }
            RoundAnswer::Spent => return Ok(RoundAnswer::Spent),
            RoundAnswer::NoneWithin => {}
        }
    }
    let _stored = facts.store(Proved::none(position, winner, depth));
    Ok(RoundAnswer::NoneWithin)
}
