//! What the rules look at besides the entry at hand.

ghost use Rattle.std.specs.Prelude.{◌≡◌};
ghost use Rattle.cha_board.specs.declared.men.Color.TheVariants.{White, Black};
ghost use Rattle.cha_board.specs.SquareSets.{set_of};
ghost use Rattle.mob_sets.specs.Mobility.{Sets};
ghost use Rattle.mob_law.specs.Reach.{is_fixed, is_guarded};
ghost use Rattle.mob_check.specs.Grounds.{is_reached, guards_with, is_target_for, side_ground_of, ground_of, side_in};

use crate::single_steps::spread;
use cha_board::{Color, Kind, Position, SquareSet};

/// What the rules ask about one side.
#[derive(Clone, Copy, Debug, PartialEq, Eq)]
pub struct SideGround {
    /// The squares on which its men other than the king stand in the position.
    pub men: SquareSet,
    /// The squares on which some of these men is in reach.
    pub reach: SquareSet,
    /// The squares that its fixed men attack, whatever stands elsewhere.
    pub guards: SquareSet,
    /// The square onto which it may capture en passant at once.
    pub target: SquareSet,
}

/// What the rules look at besides the entry at hand.
#[derive(Clone, Copy, Debug, PartialEq, Eq)]
pub struct Ground {
    /// The squares with a fixed man.
    pub fixed: SquareSet,
    pub white: SideGround,
    pub black: SideGround,
}

impl Ground {
    /// The ground that mobility sets make of a position, from their loose origins and from the squares on which men of each
    /// side other than its king are in reach.
    pub fn of(position: &Position, loose: SquareSet, white: SquareSet, black: SquareSet) -> Ground
        ensures { (s : Sets) → loose ≡ set_of s.loose → white ≡ set_of (is_reached position.now s White) → black ≡ set_of (is_reached position.now s Black) → result ≡ ground_of position.now s }
    {
        let fixed = position.occupied().minus(loose);
        Ground {
            fixed,
            white: side_ground(position, fixed, white, Color::White),
            black: side_ground(position, fixed, black, Color::Black),
        }
    }

    /// The part of a side.
    pub fn side(&self, side: Color) -> &SideGround
        ensures { result.now ≡ side_in self.now side }
    {
        match side {
            Color::White => &self.white,
            Color::Black => &self.black,
        }
    }
}

/// The ground of a side.
fn side_ground(position: &Position, fixed: SquareSet, reach: SquareSet, side: Color) -> SideGround
    ensures { (s : Sets) → fixed ≡ set_of (is_fixed position.now s) → reach ≡ set_of (is_reached position.now s side) → result ≡ side_ground_of position.now s side }
{
    SideGround {
        men: position.non_kings(side),
        reach,
        guards: guarded_squares(position, fixed, side),
        target: target_squares(position, side),
    }
}

/// The squares that fixed men of a side attack, whatever stands elsewhere.
fn guarded_squares(position: &Position, fixed: SquareSet, side: Color) -> SquareSet
    ensures { (s : Sets) → fixed ≡ set_of (is_fixed position.now s) → result ≡ set_of (is_guarded position.now s side) }
{
    guarded_as(position, fixed, side, Kind::Pawn)
        .joined(guarded_as(position, fixed, side, Kind::Knight))
        .joined(guarded_as(position, fixed, side, Kind::Bishop))
        .joined(guarded_as(position, fixed, side, Kind::Rook))
        .joined(guarded_as(position, fixed, side, Kind::Queen))
        .joined(guarded_as(position, fixed, side, Kind::King))
}

/// The squares that fixed men of a side and a kind attack.
fn guarded_as(position: &Position, fixed: SquareSet, side: Color, kind: Kind) -> SquareSet
    ensures { (s : Sets) → fixed ≡ set_of (is_fixed position.now s) → result ≡ set_of (guards_with position.now s side kind) }
{
    spread(side, kind, position.men(side, kind).common(fixed))
}

/// The square onto which a side may capture en passant at once, if there is one.
fn target_squares(position: &Position, side: Color) -> SquareSet
    ensures { result ≡ set_of (is_target_for position.now side) }
{
    match position.target() {
        None => SquareSet::empty(),
        Some(target) => {
            if side.is(position.side()) {
                SquareSet::single(target)
            } else {
                SquareSet::empty()
            }
        }
    }
}
