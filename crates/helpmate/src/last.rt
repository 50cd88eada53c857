//! The search of a position to one ply or none, for which no list of moves is made and no place is asked.

ghost use Rattle.std.specs.Prelude.{◌≡◌, ◌-◌, ◌≤◌, [], ◌∷◌};
ghost use Rattle.helpmate.specs.Counted.{CountsPositions};
ghost use Rattle.helpmate.specs.Rounds.{IsAnswer, AreExpandedBy};

use crate::answers::RoundAnswer;
use cha_board::{Color, Position};
use cha_fact::Line;
use cha_moves::{Move, is_mate, mating_move};

/// Whether a position is a mate, as an answer for depth 0.
fn look(position: &Position, winner: Color) -> RoundAnswer
    ensures holds { IsAnswer position.now winner 0 0 result }
{
    if is_mate(position, winner) {
        return RoundAnswer::Mate(Line::new());
    }
    RoundAnswer::NoneWithin
}

/// The line of one move.
fn line_of(m: Move) -> Line
    ensures { result ≡ m ∷ [] }
{
    match Line::new().led_by(m) {
        Some(line) => line,
        None => unreachable!(),
    }
}

/// Searches a position to depth 1: it is a mate, one of its moves mates, or there is none within one ply.
fn search_last_ply(position: &Position, winner: Color, left: &mut u32) -> RoundAnswer
    ensures less { left.new ≤ left.old }
    ensures positions { CountsPositions position.now 1 (left.old - left.new) }
    ensures counted { AreExpandedBy [] position.now winner 1 result (left.old - left.new) }
    ensures holds { IsAnswer position.now winner 1 1 result }
    ensures spent { result ≡ RoundAnswer.Spent → left.new ≡ 0 }
{
    if is_mate(position, winner) {
        return RoundAnswer::Mate(Line::new());
    }
    if *left == 0 {
        return RoundAnswer::Spent;
    }
    *left -= 1;
    match mating_move(position, winner) {
        Some(m) => RoundAnswer::Mate(line_of(m)),
        None => RoundAnswer::NoneWithin,
    }
}

/// Searches a position to a depth of at most 1. `left` is how many more positions may be expanded.
pub fn search_shallow(position: &Position, winner: Color, depth: u8, left: &mut u32) -> RoundAnswer
    requires { depth ≤ 1 }
    ensures less { left.new ≤ left.old }
    ensures positions { CountsPositions position.now depth (left.old - left.new) }
    ensures counted { AreExpandedBy [] position.now winner depth result (left.old - left.new) }
    ensures holds { IsAnswer position.now winner depth 1 result }
    ensures spent { result ≡ RoundAnswer.Spent → left.new ≡ 0 }
{
    if depth == 0 {
        return look(position, winner);
    }
    search_last_ply(position, winner, left)
}
