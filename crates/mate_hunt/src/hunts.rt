//! The hunt.

ghost use Rattle.std.specs.Prelude.{◌≡◌, ◌<◌, [], ◌∷◌, Ok, Some, IsNone, IfOk, IfSome, IfNone};
ghost use Rattle.cha_board.specs.Men.{other_color};
ghost use Rattle.cha_moves.specs.Ends.{IsMated, IsMatingLine, HasNoMateWithin};

use crate::choice::{Choice, Width};
use crate::cutting::two_plies;
use crate::search::{Quest, search};
use cha_board::{Color, Position};
use cha_list::NoMemory;
use cha_moves::{Move, Moves, is_mate, mating_move, replays};
use search_guide::Guide;
use std::alloc::Global;

/// Looks for a mate for a side, led by a guide: of the positions that wait, one of the least number is expanded, and of these the
/// one added last; at most `most` are expanded. With `Guide::Balance` a number grows by one for every four plies that led to the
/// position. A hunt of more than one position that leaves out moves looks for a mate within two plies before. A line that is found is
/// cut where two plies mate.
///
/// `None` says nothing but that there is no mate within one ply, and only where `most` is at least 1: a mate may be anywhere
/// else. With 0 for `most`, only a mate on the board is found. The line that is answered was played move by move, so nothing of the
/// search has to be believed. The only error is want of memory.
pub fn hunt(
    alloc: Global,
    position: &Position,
    winner: Color,
    most: u32,
    by: Guide,
    width: Width,
) -> Result<Option<Moves>, NoMemory>
    ensures mates { IfOk result (λ found. IfSome found (IsMatingLine position.now winner)) }
    ensures at_once { IsMated position.now (other_color winner) → result ≡ Ok (Some []) }
    ensures next { IfOk result (λ found. IfNone found (0 < most → HasNoMateWithin position.now winner 1)) }
    ensures none { most ≡ 0 → (IsMated position.now (other_color winner) → ⊥) → IfOk result IsNone }
{
    if is_mate(position, winner) {
        return Ok(Some(Moves::new(alloc)));
    }
    if most == 0 {
        return Ok(None);
    }
    if let Some(last) = mate_in_one(position, winner) {
        let mut line = Moves::new(alloc);
        line.push(last)?;
        return Ok(Some(line));
    }
    let quest = Quest {
        winner,
        most,
        by,
        width,
    };
    match sought(alloc, position, &quest)? {
        Some(line) if replays(position, winner, &line) => Ok(Some(Moves::from_vec(line))),
        _ => Ok(None),
    }
}

/// A move that mates at once from a position that is no mate.
#[tactic(auto, using(crate::proofs::Within::within_one))]
fn mate_in_one(position: &Position, winner: Color) -> Option<Move>
    requires { IsMated position.now (other_color winner) → ⊥ }
    ensures some { IfSome result (λ m. IsMatingLine position.now winner (m ∷ [])) }
    ensures none { IfNone result (HasNoMateWithin position.now winner 1) }
{
    mating_move(position, winner)
}

/// The line of a search, which needs more than one position. One that leaves out moves looks for a line of two plies before, of which
/// it follows all.
fn sought(
    alloc: Global,
    position: &Position,
    quest: &Quest,
) -> Result<Option<Vec<Move>>, NoMemory> {
    if quest.most <= 1 {
        return Ok(None);
    }
    let two = match quest.width {
        Width::All => None,
        Width::Telling | Width::Broad => two_plies(
            alloc,
            position,
            quest.winner,
            Choice::all(),
            None,
        )?,
    };
    match two {
        None => search(alloc, position, quest),
        Some(two) => {
            let mut line = Vec::new(alloc);
            line.push(two.first)?;
            line.push(two.last)?;
            Ok(Some(line))
        }
    }
}
