//! What is found about a side by its position alone, without a crew.

ghost use Rattle.std.specs.Prelude.{MatchOption, IfOk, IfSome};
ghost use Rattle.cha_moves.specs.Ends.{IsMatingLine};
ghost use Rattle.cha_decide.specs.Shown.{IsOpen, IsFoundAlone};

use crate::showing::shown_at_once;
use cha_board::{Color, Position};
use cha_list::NoMemory;
use cha_moves::{Moves, is_mate};
use cha_verdict::Verdict;
use mate_hunt::{Width, hunt};
use mob_solve::is_weak;
use search_guide::Guide;
use std::alloc::Global;

/// How many positions the first hunt expands at most, which follows the moves that tell most,
const NARROW_HUNT: u32 = 200;

/// how many the one towards the corners,
const CORNER_HUNT: u32 = 1000;

/// and how many the one by the flights of the king.
const FLIGHT_HUNT: u32 = 500;

/// Looks for a mate by a hunt that follows few moves.
fn hunted_narrowly(
    alloc: Global,
    position: &Position,
    winner: Color,
    budget: u32,
) -> Result<Option<Moves>, NoMemory>
    ensures { IfOk result (λ found. IfSome found (IsMatingLine position.now winner)) }
{
    let most = budget.min(NARROW_HUNT);
    hunt(alloc, position, winner, most, Guide::Corner, Width::Telling)
}

/// Looks for a mate by two hunts that follow all moves.
fn hunted_widely(
    alloc: Global,
    position: &Position,
    winner: Color,
    budget: u32,
) -> Result<Option<Moves>, NoMemory>
    ensures { IfOk result (λ found. IfSome found (IsMatingLine position.now winner)) }
{
    let most = budget.min(CORNER_HUNT);
    match hunt(alloc, position, winner, most, Guide::Corner, Width::All)? {
        Some(moves) => Ok(Some(moves)),
        None => {
            let most = budget.min(FLIGHT_HUNT);
            hunt(alloc, position, winner, most, Guide::Flights, Width::All)
        }
    }
}

/// Looks for a mate by hunts, where neither sets nor the men show that there is none. A side that is not weak was hunted for
/// narrowly before.
fn hunted(
    alloc: Global,
    position: &Position,
    winner: Color,
    budget: u32,
) -> Result<Option<Moves>, NoMemory>
    ensures { IfOk result (λ found. IfSome found (IsMatingLine position.now winner)) }
{
    if is_weak(position, winner) {
        if let Some(moves) = hunted_narrowly(alloc, position, winner, budget)? {
            return Ok(Some(moves));
        }
    }
    hunted_widely(alloc, position, winner, budget)
}

/// What is found about a side without a crew: a mate on the board, or one that a first hunt finds, and then whether mobility sets
/// or the men alone (`Reason`) show that there is none, and at last what further hunts find. For a side that is weak the sets
/// come first. Since a mate that is found excludes that sets or the men show that there is none, nothing is lost by the order.
///
/// The answer depends on the position, the side and the budget alone. `None` says that the side has not mated and that nothing shows
/// without a search that it cannot. The only error is want of memory.
pub fn quick(
    alloc: Global,
    position: &Position,
    winner: Color,
    budget: u32,
) -> Result<Option<Verdict>, NoMemory>
    ensures { IfOk result (λ found. MatchOption found (IsOpen position.now winner) (IsFoundAlone position.now winner)) }
{
    if is_mate(position, winner) {
        return Ok(Some(Verdict::Winnable(Moves::new(alloc))));
    }
    if !is_weak(position, winner) {
        if let Some(moves) = hunted_narrowly(alloc, position, winner, budget)? {
            return Ok(Some(Verdict::Winnable(moves)));
        }
    }
    match shown_at_once(alloc, position, winner)? {
        Some(cert) => Ok(Some(Verdict::Unwinnable(cert))),
        None => match hunted(alloc, position, winner, budget)? {
            Some(moves) => Ok(Some(Verdict::Winnable(moves))),
            None => Ok(None),
        },
    }
}
