//! Moves that mate at once.

ghost use Rattle.std.specs.Prelude.{◌≡◌, ◌<◌, [], ◌∷◌, true, Some, IsTrue, ◌↔◌, IfSome, IfNone, Contains};
ghost use Rattle.cha_board.specs.declared.men.Kind.{Kind as ManKind};
ghost use Rattle.cha_board.specs.Men.{other_color};
ghost use Rattle.cha_board.specs.Board.{king_of};
ghost use Rattle.cha_board.specs.SquareSets.{squares_in};
ghost use Rattle.cha_moves.specs.Step.{Move as Step};
ghost use Rattle.cha_moves.specs.Moves.{is_promotion};
ghost use Rattle.cha_moves.specs.Ends.{IsMatingLine};
ghost use Rattle.cha_moves.specs.Checks.{HaveScreens};

use crate::afterwards::after;
use crate::checks::{checks_by, lines_to};
use crate::chess_move::Move;
use crate::ends::is_mate;
use crate::list::{is_legal, promotion};
use crate::sides::promotion_rank;
use crate::ways::ways_of;
use cha_board::{Color, Kind, Position, Square, SquareSet};

/// Whether a move is legal and mates.
fn mates(position: &Position, m: Move, winner: Color) -> bool
    ensures { IsTrue result ↔ IsMatingLine position.now winner (m ∷ []) }
{
    is_legal(position, m) && is_mate(&after(position, m), winner)
}

/// The promotion from one square to another that mates.
fn mating_promotion(position: &Position, from: Square, to: Square, winner: Color) -> Option<Move>
    ensures some { IfSome result (λ m. IsMatingLine position.now winner (m ∷ [])) }
    ensures none { IfNone result ((k : ManKind) → is_promotion (Some k) ≡ true → IsMatingLine position.now winner (record { from = from; to = to; promotion = Some k } ∷ []) → ⊥) }
{
    let queen = promotion(from, to, Kind::Queen);
    if mates(position, queen, winner) {
        return Some(queen);
    }
    let rook = promotion(from, to, Kind::Rook);
    if mates(position, rook, winner) {
        return Some(rook);
    }
    let bishop = promotion(from, to, Kind::Bishop);
    if mates(position, bishop, winner) {
        return Some(bishop);
    }
    let knight = promotion(from, to, Kind::Knight);
    if mates(position, knight, winner) {
        return Some(knight);
    }
    None
}

/// The move from one square to another that mates.
fn mating_between(position: &Position, from: Square, to: Square, winner: Color) -> Option<Move>
    ensures some { IfSome result (λ m. IsMatingLine position.now winner (m ∷ [])) }
    ensures none { IfNone result ((m : Step) → IsMatingLine position.now winner (m ∷ []) → m.from ≡ from → m.to ≡ to → ⊥) }
{
    let plain = Move {
        from,
        to,
        promotion: None,
    };
    if mates(position, plain, winner) {
        return Some(plain);
    }
    if to.rank() != promotion_rank(position.side()) {
        return None;
    }
    mating_promotion(position, from, to, winner)
}

/// The first move from a square that mates, where each that does goes to one of these squares.
fn mating_from(position: &Position, from: Square, targets: SquareSet, winner: Color) -> Option<Move>
    requires { (m : Step) → IsMatingLine position.now winner (m ∷ []) → m.from ≡ from → Contains (squares_in targets) m.to }
    ensures some { IfSome result (λ m. IsMatingLine position.now winner (m ∷ [])) }
    ensures none { IfNone result ((m : Step) → IsMatingLine position.now winner (m ∷ []) → m.from ≡ from → ⊥) }
{
    for to in targets {
        if let Some(m) = mating_between(position, from, to, winner) {
            return Some(m);
        }
    }
    None
}

/// The squares to which the man on a square may have to go so that its move mates: those on which it may give check, or all
/// of its ways where it alone keeps another man from the king of the loser.
fn targets_from(position: &Position, lines: SquareSet, from: Square, winner: Color) -> SquareSet
    requires { HaveScreens position.now (king_of position.now.men (other_color position.now.side)) lines }
    ensures { (m : Step) → IsMatingLine position.now winner (m ∷ []) → m.from ≡ from → Contains (squares_in result) m.to }
{
    // What gives check is told of valid positions.
    position.known();
    match position.man(from) {
        None => SquareSet::empty(),
        Some(man) => {
            let ways = ways_of(position, man, from);
            if lines.has(from) {
                ways
            } else {
                ways.common(checks_by(position, man.kind, from))
            }
        }
    }
}

/// A legal move that mates for a winner. `None` says that there is none. It takes no memory.
pub fn mating_move(position: &Position, winner: Color) -> Option<Move>
    ensures some { IfSome result (λ m. IsMatingLine position.now winner (m ∷ [])) }
    ensures none { IfNone result ((m : Step) → IsMatingLine position.now winner (m ∷ []) → ⊥) }
{
    if !position.side().is(winner) {
        return None;
    }
    let lines = lines_to(position, position.king(winner.other()));
    for from in position.placement().of_side(winner) {
        let targets = targets_from(position, lines, from, winner);
        if let Some(m) = mating_from(position, from, targets, winner) {
            return Some(m);
        }
    }
    None
}
