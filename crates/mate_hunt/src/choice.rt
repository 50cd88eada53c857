//! Which moves of a position are followed.

use cha_board::{Kind, Position, SquareSet, aims_alone};
use cha_moves::Move;

/// Which moves a hunt follows.
#[derive(Clone, Copy, Debug, PartialEq, Eq)]
pub enum Width {
    /// All.
    All,
    /// Those that tell most: of kings and pawns, captures, and two others from each position.
    Telling,
    /// The same, with nine others.
    Broad,
}

/// How many other moves a hunt of the width `Telling` follows.
const FEW_OTHERS: u8 = 2;

/// How many a hunt of the width `Broad` follows.
const MORE_OTHERS: u8 = 9;

/// A choice of the moves of one position: all that leave or enter some squares, and the first few others.
#[derive(Clone, Copy)]
pub struct Choice {
    leave: SquareSet,
    enter: SquareSet,
    others: u8,
}

impl Choice {
    /// All moves.
    pub fn all() -> Choice {
        Choice {
            leave: SquareSet::from_bits(u64::MAX),
            enter: SquareSet::empty(),
            others: 0,
        }
    }

    /// Moves of kings and pawns, captures, and so many others.
    fn telling(position: &Position, others: u8) -> Choice {
        let men = position.placement();
        Choice {
            leave: men
                .all_of_kind(Kind::King)
                .joined(men.all_of_kind(Kind::Pawn)),
            enter: position.occupied(),
            others,
        }
    }

    /// The moves that a hunt follows.
    pub fn of_width(width: Width, position: &Position) -> Choice {
        match width {
            Width::All => Choice::all(),
            Width::Telling => Choice::telling(position, FEW_OTHERS),
            Width::Broad => Choice::telling(position, MORE_OTHERS),
        }
    }

    /// Moves of the side to move that may help a mate against it: of its king, captures, those to squares beside its king, and one
    /// other.
    pub fn helping(position: &Position) -> Choice {
        let side = position.side();
        let king = position.king(side);
        Choice {
            leave: SquareSet::single(king),
            enter: position
                .occupied()
                .joined(aims_alone(side, Kind::King, king)),
            others: 1,
        }
    }

    /// Whether the next of the moves is taken.
    pub fn takes(&mut self, m: Move) -> bool {
        if self.leave.has(m.from) || self.enter.has(m.to) {
            return true;
        }
        if self.others == 0 {
            return false;
        }
        self.others -= 1;
        true
    }
}
