//! Whether a position has a legal move.

ghost use Rattle.std.specs.Prelude.{◌≡◌, ◌≢◌, [], filter};
ghost use Rattle.std.specs.Bool.{OnTrue, OnFalse};
ghost use Rattle.cha_moves.specs.Moves.{is_legal_in, moves_from, legal};
ghost use Rattle.cha_moves.specs.Shields.{AreShields};

use crate::legally::{goes_well, legal_ways};
use crate::shields::{Shields, shields_of};
use crate::ways::ways_of;
use cha_board::{Position, Square};

/// Whether some move from a square is legal.
fn any_from(position: &Position, shields: &Shields, from: Square) -> bool
    requires { AreShields position.now shields.now.answers shields.now.screens }
    ensures some { OnTrue result (filter (is_legal_in position.now) (moves_from from) ≢ []) }
    ensures none { OnFalse result (filter (is_legal_in position.now) (moves_from from) ≡ []) }
{
    let Some(man) = position.man(from) else {
        return false;
    };
    match legal_ways(position, shields, man, from).first() {
        None => false,
        Some(_to) => true,
    }
}

/// Whether some move of the men of the side to move is legal, asked one after the other.
fn any_of_men(position: &Position, shields: &Shields) -> bool
    requires { AreShields position.now shields.now.answers shields.now.screens }
    ensures some { OnTrue result (legal position.now ≢ []) }
    ensures none { OnFalse result (legal position.now ≡ []) }
{
    for from in position.placement().of_side(position.side()) {
        if any_from(position, shields, from) {
            return true;
        }
    }
    false
}

/// Whether the man on a square goes somewhere legally, asked one way after the other.
fn goes_somewhere(position: &Position, from: Square) -> bool
    ensures { OnTrue result (legal position.now ≢ []) }
{
    // The ways of a man are told of valid positions.
    position.known();
    let _from = from.index();
    let Some(man) = position.man(from) else {
        return false;
    };
    let less = position.placement().lifted(from);
    for to in ways_of(position, man, from) {
        if goes_well(position, &less, man, from, to) {
            return true;
        }
    }
    false
}

/// Whether some move is legal. It stops at the first.
// In check the king is the man that most often has a move.
pub fn any_legal(position: &Position) -> bool
    ensures some { OnTrue result (legal position.now ≢ []) }
    ensures none { OnFalse result (legal position.now ≡ []) }
{
    goes_somewhere(position, position.king(position.side()))
        || any_of_men(position, &shields_of(position))
}
