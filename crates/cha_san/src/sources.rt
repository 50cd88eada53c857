//! From which squares, and onto which, the move of a word may go.

ghost use Rattle.std.specs.Prelude.{◌≡◌};
ghost use Rattle.cha_board.specs.SquareSets.{set_of};
ghost use Rattle.cha_san.specs.Sources.{target_of, comes_along, may_come, is_source};

use crate::forms::{Form, Parts};
use cha_board::{Color, Kind, Position, Square, SquareSet, Wing, aims_alone};

/// The square that the move of a word enters.
pub fn target(position: &Position, form: &Form) -> Square
    ensures { result ≡ target_of position.now form.now }
{
    let side = position.side();
    match form {
        Form::Short => Wing::Kingside.goal(side),
        Form::Long => Wing::Queenside.goal(side),
        Form::Plain(parts) => parts.to,
    }
}

/// The squares of the other ranks of a square's file.
fn along(side: Color, to: Square) -> SquareSet
    ensures { result ≡ set_of (comes_along side to) }
{
    aims_alone(side.other(), Kind::Rook, to).minus(SquareSet::of_rank(to.rank()))
}

/// The squares from which a man of a side and a kind may come to a square.
fn comes_from(side: Color, kind: Kind, to: Square) -> SquareSet
    ensures { result ≡ set_of (may_come side kind to) }
{
    let aims = aims_alone(side.other(), kind, to);
    if kind.is(Kind::Pawn) {
        aims.joined(along(side, to))
    } else {
        aims
    }
}

/// The squares of the men that may make the move of the parts of a word, which is no castling.
fn of_parts(position: &Position, parts: &Parts) -> SquareSet
    ensures { result ≡ set_of (is_source position.now (Form.Plain parts.now)) }
{
    let side = position.side();
    position
        .men(side, parts.kind)
        .common(comes_from(side, parts.kind, parts.to))
}

/// The squares of the men that may make the move of a word.
pub fn sources(position: &Position, form: &Form) -> SquareSet
    ensures { result ≡ set_of (is_source position.now form.now) }
{
    match form {
        Form::Short => position.men(position.side(), Kind::King),
        Form::Long => position.men(position.side(), Kind::King),
        Form::Plain(parts) => of_parts(position, parts),
    }
}
