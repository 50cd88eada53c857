//! The list of the legal moves (Laws of Chess, Articles 3.9.2 and 3.10.1).

ghost use Rattle.std.specs.Prelude.{◌≡◌, ◌<◌, ◌↔◌, ◌++◌, [], ◌∷◌, filter, IsTrue, Some, OnOk, IfOk, Contains};
ghost use Rattle.cha_board.specs.Board.{man_at};
ghost use Rattle.cha_moves.specs.Moves.{is_legal_in, moves_from};
ghost use Rattle.cha_moves.specs.Moves.{legal as legal_moves};
ghost use Rattle.cha_board.specs.SquareSets.{set_of};
ghost use Rattle.cha_moves.specs.Ways.{is_promoted, legal_between};
ghost use Rattle.cha_moves.specs.Shields.{AreShields, goes_legally};

use crate::chess_move::Move;
use crate::legally::legal_ways;
use crate::safety::stays_safe;
use crate::shields::{Shields, shields_of};
use crate::sides::promotion_rank;
use crate::ways::is_pseudo_legal;
use cha_board::{Color, Kind, Man, Position, Square, SquareSet};
use cha_list::{Listed, NoMemory};
use std::alloc::Global;

/// A list of moves.
pub type Moves = Listed<Move>;

/// A list of positions.
pub type Positions = Listed<Position>;

/// How many moves the list of legal moves has room for from the start. Few positions of games have more.
const ROOM: usize = 96;

/// What a pawn may become on the last rank, in the order of the list of legal moves (Laws of Chess, Article 3.7.3.3).
pub const PROMOTIONS: [Kind; 4] = [Kind::Queen, Kind::Rook, Kind::Bishop, Kind::Knight];

/// A promotion.
pub fn promotion(from: Square, to: Square, kind: Kind) -> Move
    ensures { result ≡ record { from = from; to = to; promotion = Some kind } }
{
    Move {
        from,
        to,
        promotion: Some(kind),
    }
}

/// Appends the four promotions of a pawn.
fn add_promotions(moves: &mut Vec<Move>, from: Square, to: Square) -> Result<(), NoMemory>
    ensures { OnOk result (moves.new.items ≡ moves.old.items ++ (record { from = from; to = to; promotion = Some Kind.Queen } ∷ record { from = from; to = to; promotion = Some Kind.Rook } ∷ record { from = from; to = to; promotion = Some Kind.Bishop } ∷ record { from = from; to = to; promotion = Some Kind.Knight } ∷ [])) }
{
    moves.push(promotion(from, to, Kind::Queen))?;
    moves.push(promotion(from, to, Kind::Rook))?;
    moves.push(promotion(from, to, Kind::Bishop))?;
    moves.push(promotion(from, to, Kind::Knight))?;
    Ok(())
}

/// The squares on which a man of a side and this kind is promoted.
pub fn promoting(side: Color, kind: Kind) -> SquareSet
    ensures { result ≡ set_of (is_promoted side kind) }
{
    if !kind.is(Kind::Pawn) {
        return SquareSet::empty();
    }
    SquareSet::of_rank(promotion_rank(side))
}

/// Appends the legal moves from one square to another to which the man there goes legally. It is promoted on the squares
/// of `last`.
fn add_way(
    position: &Position,
    moves: &mut Vec<Move>,
    man: Man,
    last: SquareSet,
    from: Square,
    to: Square,
) -> Result<(), NoMemory>
    requires man { man_at position.now.men from ≡ Some man }
    requires last { last ≡ set_of (is_promoted position.now.side man.kind) }
    requires way { IsTrue (goes_legally position.now from to) }
    ensures { OnOk result (moves.new.items ≡ moves.old.items ++ legal_between position.now from to) }
{
    // The moves of a way are told of valid positions.
    position.known();
    let _squares = (from.index(), to.index());
    if last.has(to) {
        add_promotions(moves, from, to)?;
    } else {
        moves.push(Move {
            from,
            to,
            promotion: None,
        })?;
    }
    Ok(())
}

/// Appends the legal moves from a square.
fn add_from(
    position: &Position,
    shields: &Shields,
    moves: &mut Vec<Move>,
    from: Square,
) -> Result<(), NoMemory>
    requires { AreShields position.now shields.now.answers shields.now.screens }
    ensures { OnOk result (moves.new.items ≡ moves.old.items ++ filter (is_legal_in position.now) (moves_from from)) }
{
    let Some(man) = position.man(from) else {
        return Ok(());
    };
    let last = promoting(position.side(), man.kind);
    for to in legal_ways(position, shields, man, from) {
        add_way(position, moves, man, last, from, to)?;
    }
    Ok(())
}

/// The legal moves: by the square that they leave, then by the one that they enter, then by promotion to queen, rook,
/// bishop and knight.
pub fn legal(alloc: Global, position: &Position) -> Result<Vec<Move>, NoMemory>
    ensures { IfOk result (λ moves. moves.items ≡ legal_moves position.now) }
{
    let shields = shields_of(position);
    let mut moves = Vec::with_capacity(alloc, ROOM)?;
    for from in position.placement().of_side(position.side()) {
        add_from(position, &shields, &mut moves, from)?;
    }
    Ok(moves)
}

/// Whether a move is legal.
pub fn is_legal(position: &Position, m: Move) -> bool
    ensures { IsTrue result ↔ Contains (legal_moves position.now) m }
{
    m.known();
    is_allowed(position, m)
}

/// Whether the Laws allow a move.
#[tactic(auto, unfolding(crate::specs::Moves::is_legal_in))]
fn is_allowed(position: &Position, m: Move) -> bool
    ensures { result ≡ is_legal_in position.now m }
{
    is_pseudo_legal(position, m) && stays_safe(position, m)
}
