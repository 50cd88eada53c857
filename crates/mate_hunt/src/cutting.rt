//! Lines that are cut where two plies mate.

use crate::choice::Choice;
use crate::mating::seen_mate;
use crate::nodes::Nodes;
use cha_board::{Color, Position};
use cha_list::NoMemory;
use cha_moves::{Move, after, legal};
use std::alloc::Global;

/// A move of the loser, and one of the winner that mates.
#[derive(Clone, Copy)]
pub struct TwoPlies {
    pub first: Move,
    pub last: Move,
}

/// One of the chosen moves of the loser after which a move mates, but for one after which none is seen to.
pub fn two_plies(
    alloc: Global,
    position: &Position,
    winner: Color,
    choice: Choice,
    but: Option<Move>,
) -> Result<Option<TwoPlies>, NoMemory> {
    if position.side().is(winner) {
        return Ok(None);
    }
    let mut choice = choice;
    let moves = legal(alloc, position)?;
    for m in &moves {
        if choice.takes(*m) && but != Some(*m) {
            if let Some(last) = seen_mate(&after(position, *m), winner) {
                return Ok(Some(TwoPlies { first: *m, last }));
            }
        }
    }
    Ok(None)
}

/// The move to a position on the way to one that has a mate. Those before the last were asked for a mate when they were taken, and
/// had none: of the last there is no move.
fn asked_by(nodes: &Nodes, at: u32, name: u32) -> Option<Move> {
    if at == name {
        return None;
    }
    match nodes.origin(at) {
        None => None,
        Some(origin) => Some(origin.by),
    }
}

/// The moves that led to a position of a hunt and the one that mates there, or those to the first position on the way from which two
/// plies are seen to mate, and these two.
pub fn cut_line(
    alloc: Global,
    nodes: &Nodes,
    name: u32,
    last: Move,
    winner: Color,
) -> Result<Vec<Move>, NoMemory> {
    let path = nodes.path(alloc, name)?;
    for (at, behind) in path.iter().zip(path.iter().skip(1)) {
        if let Some(here) = nodes.position(*at) {
            let asked = asked_by(nodes, *behind, name);
            if let Some(two) = two_plies(alloc, &here, winner, Choice::helping(&here), asked)? {
                let mut line = nodes.line(alloc, *at)?;
                line.push(two.first)?;
                line.push(two.last)?;
                return Ok(line);
            }
        }
    }
    let mut line = nodes.line(alloc, name)?;
    line.push(last)?;
    Ok(line)
}
