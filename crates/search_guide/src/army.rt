//! The men of a side.

use cha_board::{Color, Kind, Position, Square, SquareSet};

/// The men of a side: where its king stands, and the squares of the others by their kind.
#[derive(Drop)]
pub struct Army {
    pub side: Color,
    pub king: Square,
    pub pawns: SquareSet,
    pub knights: SquareSet,
    pub bishops: SquareSet,
    pub rooks: SquareSet,
    pub queens: SquareSet,
}

impl Army {
    /// The men of a side of a position.
    pub fn of(position: &Position, side: Color) -> Army {
        Army {
            side,
            king: position.king(side),
            pawns: position.men(side, Kind::Pawn),
            knights: position.men(side, Kind::Knight),
            bishops: position.men(side, Kind::Bishop),
            rooks: position.men(side, Kind::Rook),
            queens: position.men(side, Kind::Queen),
        }
    }

    /// The squares of the queens and rooks.
    pub fn heavy(&self) -> SquareSet {
        self.queens.joined(self.rooks)
    }

    /// The squares of the knights and bishops.
    pub fn minor(&self) -> SquareSet {
        self.knights.joined(self.bishops)
    }

    /// The squares of all men but the king.
    pub fn others(&self) -> SquareSet {
        self.heavy().joined(self.minor()).joined(self.pawns)
    }

    /// Whether there are minor pieces alone beside the king, or none.
    pub fn is_minor(&self) -> bool {
        self.heavy().joined(self.pawns).is_empty()
    }

    /// Whether there is one knight alone beside the king.
    pub fn is_one_knight(&self) -> bool {
        self.others().len() == 1 && !self.knights.is_empty()
    }

    /// The squares of the colour of the bishops, where there are bishops alone beside the king, all on squares of one colour.
    pub fn bishops_color(&self) -> Option<SquareSet> {
        if self.bishops.is_empty() || !self.others().within(self.bishops) {
            return None;
        }
        let dark = SquareSet::of_color(Color::Black);
        let light = SquareSet::of_color(Color::White);
        if self.bishops.within(dark) {
            Some(dark)
        } else if self.bishops.within(light) {
            Some(light)
        } else {
            None
        }
    }

    /// Whether one minor piece or bishops of one colour are alone beside the king.
    pub fn is_lone(&self) -> bool {
        self.is_one_knight() || self.bishops_color().is_some()
    }
}

/// The squares of the colour of a square.
pub fn color_of(at: Square) -> SquareSet {
    let dark = SquareSet::of_color(Color::Black);
    if dark.has(at) {
        dark
    } else {
        SquareSet::of_color(Color::White)
    }
}
