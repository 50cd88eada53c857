//! Whether mobility sets are closed for a position.

ghost use Rattle.std.specs.Prelude.{◌≡◌, ◌↔◌, IsTrue};
ghost use Rattle.std.specs.List.{list_all};
ghost use Rattle.cha_board.specs.Squares.{squares};
ghost use Rattle.mob_law.specs.Closed.{IsClosed};
ghost use Rattle.mob_sets.specs.Rows.{kinds, sets_of};
ghost use Rattle.mob_check.specs.Grounds.{ground_of as ground_by};
ghost use Rattle.mob_check.specs.Closing.{promoted as promoted_in, row_holds as holds_as, holds_at};

use crate::frees::freed;
use crate::goes::{comes, ends};
use crate::ground::Ground;
use crate::groups::{Group, squares_of};
use cha_board::{Color, Kind, Position, Square, SquareSet};
use mob_sets::Sets;

/// Whether mobility sets are closed for a position (this project): whatever legal moves may come, each man stays in reach.
/// Entries whose origin has no man are looked at by no rule. It takes no memory.
pub fn closed(position: &Position, sets: &Sets) -> bool
    ensures { IsTrue result ↔ IsClosed position.now (sets_of sets.now) }
{
    position.known();
    men_hold(position, &ground_of(position, sets), sets)
}

/// The ground that mobility sets make of a position.
fn ground_of(position: &Position, sets: &Sets) -> Ground
    ensures { result ≡ ground_by position.now (sets_of sets.now) }
{
    position.known();
    let rows = sets.rows();
    Ground::of(
        position,
        sets.loose(),
        squares_of(position, rows, Group::MenOf(Color::White)),
        squares_of(position, rows, Group::MenOf(Color::Black)),
    )
}

/// Whether the rules for each man hold.
fn men_hold(position: &Position, ground: &Ground, sets: &Sets) -> bool
    ensures { result ≡ list_all (holds_at position.now ground.now sets.now) squares }
{
    for index in 0..64 {
        if !man_holds(position, ground, sets, Square::at(index)) {
            return false;
        }
    }
    true
}

/// Whether the man on a square, if one stands there, is in reach there, and the rules for it hold.
#[tactic(auto, unfolding(crate::specs::Closing::holds_at, crate::specs::Closing::man_holds))]
fn man_holds(position: &Position, ground: &Ground, sets: &Sets, origin: Square) -> bool
    ensures { result ≡ holds_at position.now ground.now sets.now origin }
{
    match position.man(origin) {
        None => true,
        Some(man) => {
            sets.has(origin, man.kind, origin) && rows_hold(ground, sets, origin, man.color)
        }
    }
}

/// Whether the rules for the man of an origin hold as each kind.
fn rows_hold(ground: &Ground, sets: &Sets, origin: Square, side: Color) -> bool
    ensures { result ≡ list_all (holds_as ground.now sets.now origin side) kinds }
{
    row_holds(ground, sets, origin, side, Kind::Pawn)
        && row_holds(ground, sets, origin, side, Kind::Knight)
        && row_holds(ground, sets, origin, side, Kind::Bishop)
        && row_holds(ground, sets, origin, side, Kind::Rook)
        && row_holds(ground, sets, origin, side, Kind::Queen)
        && row_holds(ground, sets, origin, side, Kind::King)
}

/// Whether the rules for the man of an origin hold as a kind: where it comes stays within the row, what it becomes within
/// the four rows of promotion, and what it frees within the loose origins.
#[tactic(auto, unfolding(crate::specs::Closing::row_holds))]
fn row_holds(ground: &Ground, sets: &Sets, origin: Square, side: Color, kind: Kind) -> bool
    ensures { result ≡ holds_as ground.now sets.now origin side kind }
{
    let row = sets.row(origin, kind);
    comes(ground, side, kind, row).within(row)
        && ends(ground, side, kind, row).within(promoted(sets, origin))
        && freed(ground, origin, side, kind, row).within(sets.loose())
}

/// The squares on which the man of an origin is in reach as each kind that a pawn may become.
fn promoted(sets: &Sets, origin: Square) -> SquareSet
    ensures { result ≡ promoted_in (sets_of sets.now) origin }
{
    sets.row(origin, Kind::Queen)
        .common(sets.row(origin, Kind::Rook))
        .common(sets.row(origin, Kind::Bishop))
        .common(sets.row(origin, Kind::Knight))
}
