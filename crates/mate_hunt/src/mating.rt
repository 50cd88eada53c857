//! Moves that mate, as they are seen: a move is tried where it gives check, and where its man covers each square beside the king
//! that the other men leave open. A mate by capture in passing that uncovers a line is not seen.

use crate::scene::Scene;
use cha_board::{
    Color, Kind, Position, Square, SquareSet, Wing, aims, aims_alone, squares_between,
};
use cha_moves::{Move, PROMOTIONS, after, first_pawn_rank, is_legal, is_mate, promotion_rank};

/// The kinds of men but pawns.
const PIECES: [Kind; 5] = [
    Kind::Queen,
    Kind::Rook,
    Kind::Bishop,
    Kind::Knight,
    Kind::King,
];

/// Whether a move is legal and mates.
fn mates(position: &Position, m: Move, winner: Color) -> bool {
    is_legal(position, m) && is_mate(&after(position, m), winner)
}

/// What a man leaves behind that goes from a square.
#[derive(Clone, Copy)]
struct Leaving {
    from: Square,
    /// What stands in the way once it has left, but the loser's king.
    over: SquareSet,
    /// The squares that the other men cover.
    covered: SquareSet,
    /// The squares beside the king to which it may go.
    open: SquareSet,
}

impl Leaving {
    /// What a man leaves behind.
    fn of(position: &Position, scene: &Scene, from: Square) -> Leaving {
        let covered = scene.covered(position, from);
        Leaving {
            from,
            over: scene.over_without(from),
            covered,
            open: scene.beside.minus(scene.losers).minus(covered),
        }
    }

    /// Whether the king is left no square once the man goes to a square and is of a kind there.
    fn leaves_none(&self, scene: &Scene, to: Square, kind: Kind) -> bool {
        if scene.beside.has(to) && !self.covered.has(to) {
            return false;
        }
        let own = aims(scene.winner, kind, to, self.over);
        self.open.without(to).within(own)
    }
}

/// A mate by a piece that goes from a square to one of others.
fn mate_by_piece(
    position: &Position,
    scene: &Scene,
    kind: Kind,
    from: Square,
    targets: SquareSet,
) -> Option<Move> {
    let leaving = Leaving::of(position, scene, from);
    for to in targets {
        let m = Move {
            from,
            to,
            promotion: None,
        };
        if leaving.leaves_none(scene, to, kind) && mates(position, m, scene.winner) {
            return Some(m);
        }
    }
    None
}

/// A mate by a piece of a kind.
#[inline(always)]
fn mate_by_kind(position: &Position, scene: &Scene, kind: Kind) -> Option<Move> {
    let checks = scene.checks(kind);
    for from in position.men(scene.winner, kind) {
        let ways = aims(scene.winner, kind, from, scene.occupied).minus(scene.winners);
        let targets = if scene.screens.has(from) {
            ways
        } else {
            ways.common(checks)
        };
        if !targets.is_empty() {
            if let Some(m) = mate_by_piece(position, scene, kind, from, targets) {
                return Some(m);
            }
        }
    }
    None
}

/// The squares to which a pawn may go.
fn pawn_ways(position: &Position, scene: &Scene, from: Square) -> SquareSet {
    let side = scene.winner;
    let step = SquareSet::single(from).ahead(side).minus(scene.occupied);
    let double = if from.rank() == first_pawn_rank(side) {
        step.ahead(side).minus(scene.occupied)
    } else {
        SquareSet::empty()
    };
    let goals = match position.target() {
        None => scene.losers,
        Some(target) => scene.losers.with(target),
    };
    let captures = aims_alone(side, Kind::Pawn, from).common(goals);
    step.joined(double).joined(captures)
}

/// A mate by a pawn that goes to the last rank.
fn mate_by_promotion(
    position: &Position,
    scene: &Scene,
    leaving: &Leaving,
    to: Square,
) -> Option<Move> {
    for kind in PROMOTIONS {
        let over = scene.occupied.without(leaving.from);
        let is_check = aims(scene.winner, kind, to, over).has(scene.king)
            || scene.screens.has(leaving.from);
        let m = Move {
            from: leaving.from,
            to,
            promotion: Some(kind),
        };
        if is_check && leaving.leaves_none(scene, to, kind) && mates(position, m, scene.winner) {
            return Some(m);
        }
    }
    None
}

/// A mate by the pawn on a square.
fn mate_from(position: &Position, scene: &Scene, from: Square) -> Option<Move> {
    let leaving = Leaving::of(position, scene, from);
    for to in pawn_ways(position, scene, from) {
        if to.rank() == promotion_rank(scene.winner) {
            if let Some(m) = mate_by_promotion(position, scene, &leaving, to) {
                return Some(m);
            }
        } else {
            let is_check = scene.checks(Kind::Pawn).has(to) || scene.screens.has(from);
            let m = Move {
                from,
                to,
                promotion: None,
            };
            if is_check
                && leaving.leaves_none(scene, to, Kind::Pawn)
                && mates(position, m, scene.winner)
            {
                return Some(m);
            }
        }
    }
    None
}

/// The squares of pawns that may give check by their next move.
fn telling_pawns(position: &Position, scene: &Scene) -> SquareSet {
    let loser = scene.winner.other();
    let back = scene.checks(Kind::Pawn).ahead(loser);
    let last = SquareSet::of_rank(promotion_rank(scene.winner)).ahead(loser);
    let from = back
        .joined(back.ahead(loser))
        .joined(back.east())
        .joined(back.west())
        .joined(last)
        .joined(scene.screens);
    position.men(scene.winner, Kind::Pawn).common(from)
}

/// A mate by a pawn.
fn mate_by_pawn(position: &Position, scene: &Scene) -> Option<Move> {
    for from in telling_pawns(position, scene) {
        if let Some(m) = mate_from(position, scene, from) {
            return Some(m);
        }
    }
    None
}

/// A mate by castling to a square, whose rook goes to the square that the king passes.
fn mate_by_castling_to(position: &Position, scene: &Scene, goal: Square) -> Option<Move> {
    let from = position.king(scene.winner);
    let m = Move {
        from,
        to: goal,
        promotion: None,
    };
    let checks = aims(
        scene.winner,
        Kind::Rook,
        scene.king,
        scene.occupied.without(from),
    );
    let is_check = !squares_between(from, goal).common(checks).is_empty();
    if is_check && mates(position, m, scene.winner) {
        Some(m)
    } else {
        None
    }
}

/// A mate by castling.
fn mate_by_castling(position: &Position, scene: &Scene) -> Option<Move> {
    let side = scene.winner;
    for wing in [Wing::Kingside, Wing::Queenside] {
        if position.rights().has(side, wing) {
            if let Some(m) = mate_by_castling_to(position, scene, wing.goal(side)) {
                return Some(m);
            }
        }
    }
    None
}

/// A move that mates for a winner, if one is seen.
pub fn seen_mate(position: &Position, winner: Color) -> Option<Move> {
    if !position.side().is(winner) {
        return None;
    }
    let scene = Scene::of(position);
    for kind in PIECES {
        if let Some(m) = mate_by_kind(position, &scene, kind) {
            return Some(m);
        }
    }
    if let Some(m) = mate_by_pawn(position, &scene) {
        return Some(m);
    }
    mate_by_castling(position, &scene)
}
