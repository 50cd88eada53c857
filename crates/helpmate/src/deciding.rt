//! What a fact decides by itself.

ghost use Rattle.std.specs.Prelude.{◌≡◌, IfSome};
ghost use Rattle.cha_fact.specs.Keys.{key_of};
ghost use Rattle.helpmate.specs.Rounds.{IsAnswer, decided_by};

use crate::answers::RoundAnswer;
use cha_board::{Color, Position};
use cha_fact::{Fact, Line, Proved};

/// The most moves of a mate that a round takes over from a place of facts, so that the moves of the round still fit in front of it.
pub const MOST_FOUND: usize = 32;

/// The answer that a fact gives to a search of this depth, or None where it does not decide. It takes no memory.
pub fn decided(position: &Position, winner: Color, row: &Proved, depth: u8) -> Option<RoundAnswer>
    requires { key_of row.now.position row.now.winner ≡ key_of position.now winner }
    ensures value { result ≡ decided_by depth row.now.fact }
    ensures holds { IfSome result (IsAnswer position.now winner depth 32) }
{
    // Keys tell valid positions.
    position.known();
    row.known();
    match row.fact() {
        Fact::Mate(line) => {
            let moves = line.moves();
            if MOST_FOUND < moves.len() {
                return None;
            }
            Some(RoundAnswer::Mate(Line::of(moves)))
        }
        Fact::NoneWithin(within) => {
            if *within < depth {
                return None;
            }
            Some(RoundAnswer::NoneWithin)
        }
    }
}
