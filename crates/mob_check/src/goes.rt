//! To which squares the men of a set go on a ground.

ghost use Rattle.std.specs.Prelude.{◌≡◌, ◌<◌, ℕ, false};
ghost use Rattle.cha_board.specs.declared.men.Kind.TheVariants.{Pawn};
ghost use Rattle.cha_board.specs.Men.{same_kind};
ghost use Rattle.cha_board.specs.SquareSets.{set_of, has_square};
ghost use Rattle.mob_check.specs.Rules.{is_barred, is_capturable, entered_from, comes_on, ends_on};

use crate::ground::Ground;
use crate::ranks::{ending, staying};
use crate::single_steps::spread;
use cha_board::{Color, Kind, SquareSet};

/// The squares that a king need not step onto, since fixed men of the other side guard them; none for other kinds.
pub fn barred(ground: &Ground, side: Color, kind: Kind) -> SquareSet
    ensures { (t : ℕ) → t < 64 → has_square result t ≡ is_barred ground.now side kind t }
{
    if kind.is(Kind::King) {
        ground.side(side.other()).guards
    } else {
        SquareSet::empty()
    }
}

/// The squares on which a pawn of a side may find a man to capture.
fn capturable(ground: &Ground, side: Color) -> SquareSet
    ensures { (t : ℕ) → t < 64 → has_square result t ≡ is_capturable ground.now side t }
{
    let enemies = ground.side(side.other()).reach.minus(ground.fixed);
    enemies.joined(ground.side(side).target)
}

/// The squares to which men of a side go from some squares as a kind.
pub fn entered(ground: &Ground, side: Color, kind: Kind, from: SquareSet) -> SquareSet
    ensures { result ≡ entered_from ground.now side kind from }
{
    match kind {
        Kind::Pawn => pawns_go(ground, side, from),
        Kind::Knight => pieces_go(ground, side, kind, from),
        Kind::Bishop => pieces_go(ground, side, kind, from),
        Kind::Rook => pieces_go(ground, side, kind, from),
        Kind::Queen => pieces_go(ground, side, kind, from),
        Kind::King => pieces_go(ground, side, kind, from),
    }
}

/// The squares to which pieces go.
fn pieces_go(ground: &Ground, side: Color, kind: Kind, from: SquareSet) -> SquareSet
    requires { same_kind kind Pawn ≡ false }
    ensures { result ≡ entered_from ground.now side kind from }
{
    let near = spread(side, kind, from).minus(barred(ground, side, kind));
    near.minus(ground.fixed)
}

/// The squares to which pawns go. A double step goes there by two single ones.
fn pawns_go(ground: &Ground, side: Color, from: SquareSet) -> SquareSet
    ensures { result ≡ entered_from ground.now side Pawn from }
{
    // The number of a set tells that it has 64 truth values.
    let _number = from.bits();
    let steps = from.ahead(side).minus(ground.fixed);
    let captures = spread(side, Kind::Pawn, from).common(capturable(ground, side));
    steps.joined(captures)
}

/// The squares to which men go from some squares, as long as they stay of their kind there.
pub fn comes(ground: &Ground, side: Color, kind: Kind, from: SquareSet) -> SquareSet
    ensures { result ≡ set_of (comes_on ground.now side kind from) }
{
    staying(side, kind, entered(ground, side, kind, from))
}

/// The squares to which pawns go from some squares on their last rank; none for other men.
pub fn ends(ground: &Ground, side: Color, kind: Kind, from: SquareSet) -> SquareSet
    ensures { result ≡ set_of (ends_on ground.now side kind from) }
{
    ending(side, kind, entered(ground, side, kind, from))
}
