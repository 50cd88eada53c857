//! What a mate of the loser's king is seen by.

use cha_board::{Color, Kind, Position, Square, SquareSet, aims, aims_alone, squares_between};

/// What is seen of a position in which the winner is to move.
#[derive(Clone, Copy)]
pub struct Scene {
    pub winner: Color,
    /// The loser's king, and the squares beside it.
    pub king: Square,
    pub beside: SquareSet,
    pub occupied: SquareSet,
    pub winners: SquareSet,
    pub losers: SquareSet,
    /// The winner's men that alone stand between the king and another man that aims at it.
    pub screens: SquareSet,
    /// The squares from which a bishop, and a rook, would aim at the king, where the winner has men that go so.
    pub bishop_checks: SquareSet,
    pub rook_checks: SquareSet,
}

/// The set, if it has one square, and otherwise the set of no square.
fn sole(set: SquareSet) -> SquareSet {
    match set.first() {
        Some(first) if set.without(first).is_empty() => set,
        _ => SquareSet::empty(),
    }
}

/// The men of a side that alone stand between a square and others of their men that aim at it.
fn screens(position: &Position, side: Color, king: Square, occupied: SquareSet) -> SquareSet {
    let men = position.placement();
    let queens = men.of_kind(side, Kind::Queen);
    let straight = men.of_kind(side, Kind::Rook).joined(queens);
    let diagonal = men.of_kind(side, Kind::Bishop).joined(queens);
    let mut screens = SquareSet::empty();
    let pieces = straight
        .common(aims_alone(side, Kind::Rook, king))
        .joined(diagonal.common(aims_alone(side, Kind::Bishop, king)));
    for by in pieces {
        screens = screens.joined(sole(squares_between(by, king).common(occupied)));
    }
    screens.common(men.of_side(side))
}

/// The squares at which men of a kind aim over occupied squares.
#[inline(always)]
fn aims_of(side: Color, kind: Kind, men: SquareSet, over: SquareSet) -> SquareSet {
    let mut all = SquareSet::empty();
    for at in men {
        all = all.joined(aims(side, kind, at, over));
    }
    all
}

/// The squares from which a man of a kind would aim at a king, where a side has such men or queens.
fn line_checks(position: &Position, side: Color, kind: Kind, king: Square) -> SquareSet {
    let men = position.placement();
    let lines = men.all_of_kind(kind).joined(men.all_of_kind(Kind::Queen));
    if lines.common(men.of_side(side)).is_empty() {
        SquareSet::empty()
    } else {
        aims(side, kind, king, men.occupied())
    }
}

impl Scene {
    /// What is seen of a position.
    pub fn of(position: &Position) -> Scene {
        let winner = position.side();
        let loser = winner.other();
        let king = position.king(loser);
        let men = position.placement();
        let winners = men.of_side(winner);
        let losers = men.of_side(loser);
        let occupied = winners.joined(losers);
        Scene {
            winner,
            king,
            beside: aims_alone(loser, Kind::King, king),
            occupied,
            winners,
            losers,
            screens: screens(position, winner, king, occupied),
            bishop_checks: line_checks(position, winner, Kind::Bishop, king),
            rook_checks: line_checks(position, winner, Kind::Rook, king),
        }
    }

    /// The squares from which a man of a kind would give check.
    #[inline(always)]
    pub fn checks(&self, kind: Kind) -> SquareSet {
        match kind {
            Kind::Bishop => self.bishop_checks,
            Kind::Rook => self.rook_checks,
            Kind::Queen => self.bishop_checks.joined(self.rook_checks),
            Kind::Knight => aims_alone(self.winner, Kind::Knight, self.king),
            Kind::Pawn => aims_alone(self.winner.other(), Kind::Pawn, self.king),
            Kind::King => SquareSet::empty(),
        }
    }

    /// What stands in the way once a man has left a square and the king is lifted.
    pub fn over_without(&self, from: Square) -> SquareSet {
        self.occupied.without(self.king).without(from)
    }

    /// The squares that the winner's men cover, but the one that leaves a square.
    pub fn covered(&self, position: &Position, from: Square) -> SquareSet {
        let side = self.winner;
        let over = self.over_without(from);
        let men = position.placement();
        let queens = men.of_kind(side, Kind::Queen);
        let straight = men.of_kind(side, Kind::Rook).joined(queens).without(from);
        let diagonal = men.of_kind(side, Kind::Bishop).joined(queens).without(from);
        let knights = men.of_kind(side, Kind::Knight).without(from);
        let kings = men.of_kind(side, Kind::King).without(from);
        let ahead = men.of_kind(side, Kind::Pawn).without(from).ahead(side);
        ahead
            .east()
            .joined(ahead.west())
            .joined(kings.king_steps())
            .joined(aims_of(side, Kind::Knight, knights, over))
            .joined(aims_of(side, Kind::Bishop, diagonal, over))
            .joined(aims_of(side, Kind::Rook, straight, over))
    }
}
