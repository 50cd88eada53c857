//! The search along a guide.

ghost use Rattle.std.specs.Prelude.{Contains};
ghost use Rattle.cha_moves.specs.Moves.{legal as legal_moves};

use crate::choice::{Choice, Width};
use crate::cutting::cut_line;
use crate::mating::seen_mate;
use crate::nodes::{Nodes, Origin};
use cha_board::{Color, Kept, Position};
use cha_list::NoMemory;
use cha_moves::{Move, after, legal};
use search_guide::{Guide, hopeful_guide};
use std::alloc::Global;

/// What a hunt looks for, and how.
#[derive(Clone, Copy)]
pub struct Quest {
    pub winner: Color,
    /// How many positions are expanded at most.
    pub most: u32,
    pub by: Guide,
    pub width: Width,
}

/// Whether each move of a position leaves the winner nothing to mate with.
fn is_hopeless(alloc: Global, position: &Position, winner: Color) -> Result<bool, NoMemory> {
    let moves = legal(alloc, position)?;
    for m in &moves {
        let next = after(position, *m);
        if hopeful_guide(Guide::Corner, &next, winner).is_some() {
            return Ok(false);
        }
    }
    Ok(true)
}

/// After how many plies on the way to a position the guide that weighs all sets it back by one list: else a hunt would stay where it
/// went deepest.
const PLIES_BACK: u32 = 4;

/// The last list but that of positions in which nothing is to be found.
const LAST_LIST: u32 = 62;

/// The list in which a position waits to which so many plies led, by its number.
fn list_of(by: Guide, number: u8, plies: u32) -> u8 {
    match by {
        Guide::Corner | Guide::Flights => number,
        Guide::Balance => LAST_LIST.min(u32::from(number) + plies / PLIES_BACK) as u8,
    }
}

/// Lets the position after a move wait, unless it was met or the guide tells that the winner has nothing to mate with.
#[inline(always)]
fn add_after(
    nodes: &mut Nodes,
    parent: u32,
    here: &Position,
    by: Move,
    quest: &Quest,
) -> Result<(), NoMemory>
    requires { Contains (legal_moves here.now) by }
{
    let next = after(here, by);
    let kept = Kept::of(&next);
    let Some(slot) = nodes.free_slot(&kept) else {
        return Ok(());
    };
    let Some(number) = hopeful_guide(quest.by, &next, quest.winner) else {
        return Ok(());
    };
    let plies = nodes.plies(parent).saturating_add(1);
    let list = list_of(quest.by, number, plies);
    nodes.add(slot, kept, Some(Origin { parent, by, plies }), list)
}

/// Lets the positions wait that the followed moves of a position reach.
fn expand(
    alloc: Global,
    nodes: &mut Nodes,
    name: u32,
    here: &Position,
    quest: &Quest,
) -> Result<(), NoMemory> {
    let mut choice = Choice::of_width(quest.width, here);
    let moves = legal(alloc, here)?;
    for m in &moves {
        if choice.takes(*m) {
            add_after(nodes, name, here, *m, quest)?;
        }
    }
    Ok(())
}

/// A line to a mate, if one is met: of the positions that wait, one in the first list is expanded, of these the one added last. The
/// line is cut where two plies are seen to mate. The first position is not asked for a move that mates: it has none.
pub fn search(
    alloc: Global,
    position: &Position,
    quest: &Quest,
) -> Result<Option<Vec<Move>>, NoMemory> {
    // The other guides tell by themselves.
    if quest.by == Guide::Flights && is_hopeless(alloc, position, quest.winner)? {
        return Ok(None);
    }
    let mut nodes = Nodes::new(alloc, position)?;
    let Some(root) = nodes.pop() else {
        return Ok(None);
    };
    expand(alloc, &mut nodes, root, position, quest)?;
    for turn in 1..quest.most {
        let Some(name) = nodes.pop() else {
            return Ok(None);
        };
        let Some(here) = nodes.position(name) else {
            return Ok(None);
        };
        if let Some(last) = seen_mate(&here, quest.winner) {
            let line = cut_line(alloc, &nodes, name, last, quest.winner)?;
            return Ok(Some(line));
        }
        // What would wait behind the last one is not taken.
        if turn < quest.most - 1 {
            expand(alloc, &mut nodes, name, &here, quest)?;
        }
    }
    Ok(None)
}
