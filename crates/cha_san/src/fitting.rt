//! Which moves fit what a word says (PGN standard, 8.2.3).

ghost use Rattle.std.specs.Prelude.{◌≡◌};
ghost use Rattle.cha_board.specs.Men.{is_man};
ghost use Rattle.cha_board.specs.Board.{man_at};
ghost use Rattle.cha_san.specs.Fitting.{is_castling, is_named, promotes_as as promotes_so, fits_parts as fits_parts_of, fits as fits_form};

use crate::forms::{Form, Parts};
use cha_board::{Kind, Position, Square, files_between};
use cha_moves::Move;

/// Whether a man of the side to move and of this kind stands on a square.
fn has_own(position: &Position, kind: Kind, at: Square) -> bool
    ensures { result ≡ is_man position.now.side kind (man_at position.now.men at) }
{
    let _at = at.index();
    position.men(position.side(), kind).has(at)
}

/// Whether a move is castling: the move of the king of the side to move over two files (Laws of Chess, Article 3.8.2).
#[tactic(auto, unfolding(crate::specs::Fitting::is_castling))]
pub fn castles(position: &Position, m: &Move) -> bool
    ensures { result ≡ is_castling position.now m.now }
{
    has_own(position, Kind::King, m.from) && files_between(m.from, m.to) == 2
}

/// Whether a file or a rank is the one that is named, if one is named.
fn named(name: Option<u8>, found: u8) -> bool
    ensures { result ≡ is_named name found }
{
    match name {
        None => true,
        Some(wanted) => found == wanted,
    }
}

/// Whether a pawn becomes what is named, if anything is named.
fn promotes_as(name: Option<Kind>, promotion: Option<Kind>) -> bool
    ensures { result ≡ promotes_so name promotion }
{
    match name {
        None => true,
        Some(wanted) => match promotion {
            None => false,
            Some(kind) => kind.is(wanted),
        },
    }
}

/// Whether a move fits the parts of a word.
#[tactic(auto, unfolding(crate::specs::Fitting::fits_parts))]
fn fits_parts(position: &Position, parts: &Parts, m: &Move) -> bool
    ensures { result ≡ fits_parts_of position.now parts.now m.now }
{
    !castles(position, m)
        && has_own(position, parts.kind, m.from)
        && named(parts.file, m.from.file())
        && named(parts.rank, m.from.rank())
        && m.to.index() == parts.to.index()
        && promotes_as(parts.promotion, m.promotion)
}

/// Whether a move fits what a word says.
#[tactic(auto, unfolding(crate::specs::Fitting::fits))]
pub fn fits(position: &Position, form: &Form, m: &Move) -> bool
    ensures { result ≡ fits_form position.now form.now m.now }
{
    match form {
        Form::Short => castles(position, m) && m.to.file() == 6,
        Form::Long => castles(position, m) && m.to.file() == 2,
        Form::Plain(parts) => fits_parts(position, parts, m),
    }
}
