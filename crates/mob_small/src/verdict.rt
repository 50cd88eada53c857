//! The verdict of small material: no pawn, and at most one man beside each king.

ghost use Rattle.std.specs.Prelude.{◌≢◌, ◌↔◌, Some, IsTrue};
ghost use Rattle.cha_board.specs.declared.men.Kind.TheVariants.{Pawn, King};
ghost use Rattle.mob_small.specs.Small.{HasNoPawn, IsSmallUnwinnable};
ghost use Rattle.mob_small.specs.MateFreeKinds.{AreMateFree};

use crate::beside::kind_beside;
use crate::mate_free_kinds::mate_free;
use cha_board::{Color, Kind, Position};

/// Whether a position has small material with which a side cannot mate: no pawn, at most one man beside each king, and
/// either the side has only its king, or no placement of such men, the other side's man being there or not, is a mate for
/// it. It takes no memory.
pub fn small_verdict(position: &Position, winner: Color) -> bool
    ensures { IsTrue result ↔ IsSmallUnwinnable position.now winner }
{
    position.known();
    if !has_no_pawn(position) {
        return false;
    }
    match kind_beside(position, winner.other()) {
        Err(_) => false,
        Ok(other) => match kind_beside(position, winner) {
            Err(_) => false,
            Ok(own) => are_mate_free(winner, own, other),
        },
    }
}

/// Whether there is no mate by the one man of a winner, if it has one.
fn are_mate_free(winner: Color, own: Option<Kind>, other: Option<Kind>) -> bool
    requires own_no_pawn { own ≢ Some Pawn }
    requires own_no_king { own ≢ Some King }
    requires other_no_pawn { other ≢ Some Pawn }
    requires other_no_king { other ≢ Some King }
    ensures { IsTrue result ↔ AreMateFree winner own other }
{
    match own {
        None => true,
        Some(kind) => mate_free(winner, kind, other),
    }
}

/// Whether no pawn stands on the board.
fn has_no_pawn(position: &Position) -> bool
    ensures { IsTrue result ↔ HasNoPawn position.now.men }
{
    position.known();
    position.placement().all_of_kind(Kind::Pawn).is_empty()
}
