//! How many moves are legal (Laws of Chess, Article 3.10.1).

ghost use Rattle.std.specs.Prelude.{◌≡◌, ◌+◌, ◌*◌, ◌≤◌, filter, length};
ghost use Rattle.std.specs.List.{flat_map};
ghost use Rattle.cha_board.specs.Men.{is_man};
ghost use Rattle.cha_board.specs.Board.{man_at};
ghost use Rattle.cha_board.specs.SquareSets.{set_of, squares_in, set_common};
ghost use Rattle.cha_moves.specs.Moves.{is_legal_in, moves_from};
ghost use Rattle.cha_moves.specs.Moves.{legal as legal_moves};
ghost use Rattle.cha_moves.specs.Shields.{AreShields};

use crate::legally::legal_ways_by;
use crate::list::promoting;
use crate::shields::{Shields, shields_of};
use cha_board::{Color, Kind, Position, SquareSet};

/// How many moves go to the squares of a set: four to each that is among the last, on which the man is promoted, and one to
/// each other.
fn moves_to(ways: SquareSet, last: SquareSet) -> u64
    ensures value { result ≡ length (squares_in ways) + 3 * length (squares_in (set_common ways last)) }
    ensures bound { result ≤ 256 }
{
    u64::from(ways.len()) + 3 * u64::from(ways.common(last).len())
}

/// How many moves of the men of the side to move and of this kind are legal.
#[inline(always)]
fn count_kind(position: &Position, shields: &Shields, side: Color, kind: Kind) -> u64
    requires side { side ≡ position.now.side }
    requires shields { AreShields position.now shields.now.answers shields.now.screens }
    ensures value { result ≡ length (filter (is_legal_in position.now) (flat_map moves_from (squares_in (set_of (λ s. is_man side kind (man_at position.now.men s)))))) }
{
    let last = promoting(side, kind);
    let mut count: u64 = 0;
    for from in position.men(side, kind) {
        // The moves of a way are told of valid positions.
        position.known();
        let ways = legal_ways_by(position, shields, side, kind, from);
        count += moves_to(ways, last);
    }
    count
}

/// How many moves of the side to move are legal.
#[inline(always)]
fn count_side(position: &Position, side: Color) -> u64
    requires { side ≡ position.now.side }
    ensures { result ≡ length (legal_moves position.now) }
{
    let shields = shields_of(position);
    let pieces = count_kind(position, &shields, side, Kind::Knight)
        + count_kind(position, &shields, side, Kind::Bishop)
        + count_kind(position, &shields, side, Kind::Rook)
        + count_kind(position, &shields, side, Kind::Queen);
    pieces
        + count_kind(position, &shields, side, Kind::Pawn)
        + count_kind(position, &shields, side, Kind::King)
}

/// How many moves are legal. They are counted in sets of squares, and no list is made.
pub fn count_legal(position: &Position) -> u64
    ensures { result ≡ length (legal_moves position.now) }
{
    match position.side() {
        Color::White => count_side(position, Color::White),
        Color::Black => count_side(position, Color::Black),
    }
}
