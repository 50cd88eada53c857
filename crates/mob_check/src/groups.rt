//! The squares on which some man of a group is in reach.

ghost use Rattle.std.specs.Prelude.{◌≡◌};
ghost use Rattle.cha_board.specs.Board.{man_at};
ghost use Rattle.cha_board.specs.Men.{is_non_king};
ghost use Rattle.mob_check.specs.Reaches.{is_row_of, is_row_on, reach_of, origins_of};

use cha_board::{Color, Kind, Position, SquareSet, is_man_of};
use mob_sets::SetRow;

/// Some entries of mobility sets.
#[derive(Clone, Copy, Debug, PartialEq, Eq)]
pub enum Group {
    /// Those of a side's king as a king.
    KingOf(Color),
    /// Those of a side's other men.
    MenOf(Color),
    /// Those of a side's other men as a kind.
    MenAs(Color, Kind),
}

/// The squares that the rows of a group have.
pub fn squares_of(position: &Position, rows: &[SetRow], group: Group) -> SquareSet
    ensures { result ≡ reach_of position.now rows.now group }
{
    let mut squares = SquareSet::empty();
    for row in rows {
        if is_of(position, group, *row) {
            squares = squares.joined(row.squares);
        }
    }
    squares
}

/// The men of a side, other than its king, that rows have on one of these squares, by their origins.
pub fn origins_on(position: &Position, rows: &[SetRow], side: Color, on: SquareSet) -> SquareSet
    ensures { result ≡ origins_of position.now rows.now side on }
{
    let mut origins = SquareSet::empty();
    for row in rows {
        if is_on(position, side, on, *row) {
            origins = origins.with(row.origin);
        }
    }
    origins
}

/// Whether a row of a side's man other than the king has one of these squares.
#[tactic(auto, unfolding(crate::specs::Reaches::is_row_on))]
fn is_on(position: &Position, side: Color, on: SquareSet, row: SetRow) -> bool
    ensures { result ≡ is_row_on position.now side on row }
{
    is_of(position, Group::MenOf(side), row) && !row.squares.common(on).is_empty()
}

/// Whether a row is of a group.
#[tactic(auto, unfolding(crate::specs::Reaches::is_row_of))]
fn is_of(position: &Position, group: Group, row: SetRow) -> bool
    ensures { result ≡ is_row_of position.now group row }
{
    match group {
        Group::KingOf(side) => {
            row.kind.is(Kind::King) && is_man_of(position.man(row.origin), side, Kind::King)
        }
        Group::MenOf(side) => is_own(position, side, row),
        Group::MenAs(side, kind) => row.kind.is(kind) && is_own(position, side, row),
    }
}

/// Whether a row is of a side's man other than the king.
pub fn is_own(position: &Position, side: Color, row: SetRow) -> bool
    ensures { result ≡ is_non_king side (man_at position.now.men row.origin) }
{
    let _origin = row.origin.index();
    position.non_kings(side).has(row.origin)
}
