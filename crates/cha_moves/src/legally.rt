//! Which ways of a man are legal (Laws of Chess, Article 3.9.2).

ghost use Rattle.std.specs.Prelude.{◌≡◌, IsTrue, Some};
ghost use Rattle.std.specs.Bool.{OnFalse};
ghost use Rattle.cha_board.specs.Board.{man_at};
ghost use Rattle.cha_board.specs.SquareSets.{set_of};
ghost use Rattle.cha_moves.specs.Ways.{is_way};
ghost use Rattle.cha_moves.specs.Shields.{AreShields, IsFree, men_less, goes_legally};

use crate::chess_move::Move;
use crate::goes::promotes;
use crate::safety::{may_pass, stays_safe};
use crate::shields::Shields;
use crate::ways::own_ways;
use cha_board::{Color, Kind, Man, Men, Position, Square, SquareSet, aims_alone, aims_at};

/// Whether some move is legal from one square to another to which the man there may go, as the men after it tell.
fn is_legal_way(position: &Position, man: Man, from: Square, to: Square) -> bool
    requires man { man_at position.now.men from ≡ Some man }
    requires way { IsTrue (is_way position.now from to) }
    ensures { result ≡ goes_legally position.now from to }
{
    // The moves of a way are told of valid positions.
    position.known();
    let _squares = (from.index(), to.index());
    if promotes(position.side(), man.kind, to) {
        let promotion = Some(Kind::Queen);
        stays_safe(
            position,
            Move {
                from,
                to,
                promotion,
            },
        )
    } else {
        let promotion = None;
        stays_safe(
            position,
            Move {
                from,
                to,
                promotion,
            },
        )
    }
}

/// Whether the man, which may go from one square to the other, goes legally. A king's step asks only whether its new square is
/// attacked once the king has left the old one, and for castling that is known.
pub fn goes_well(position: &Position, less: &Men, man: Man, from: Square, to: Square) -> bool
    requires man { man_at position.now.men from ≡ Some man }
    requires way { IsTrue (is_way position.now from to) }
    requires less { less.now ≡ men_less position.now from }
    ensures { result ≡ goes_legally position.now from to }
{
    position.known();
    let _squares = (from.index(), to.index());
    if !man.kind.is(Kind::King) {
        return is_legal_way(position, man, from, to);
    }
    let side = position.side();
    if aims_at(side, Kind::King, from, to) {
        !less.attacks(side.other(), to)
    } else {
        true
    }
}

/// The legal ones of the ways of a man, each of which is asked.
#[inline(never)]
fn sifted(position: &Position, man: Man, from: Square, ways: SquareSet) -> SquareSet
    requires man { man_at position.now.men from ≡ Some man }
    requires ways { ways ≡ set_of (is_way position.now from) }
    ensures { result ≡ set_of (goes_legally position.now from) }
{
    let less = position.placement().lifted(from);
    let mut legal = ways;
    for to in ways {
        legal = legal.placed(to, goes_well(position, &less, man, from, to));
    }
    legal
}

/// The legal ones of the ways of the king of the side to move. Where it castles it is known that no square is attacked; before each
/// other way it is asked.
#[inline(never)]
fn sifted_of_king(position: &Position, side: Color, from: Square, ways: SquareSet) -> SquareSet
    requires side { side ≡ position.now.side }
    requires man { man_at position.now.men from ≡ Some (record { color = side; kind = Kind.King }) }
    requires ways { ways ≡ set_of (is_way position.now from) }
    ensures { result ≡ set_of (goes_legally position.now from) }
{
    // The moves of a way are told of valid positions.
    position.known();
    let _from = from.index();
    let less = position.placement().lifted(from);
    let mut legal = ways;
    for to in ways.common(aims_alone(side, Kind::King, from)) {
        legal = legal.placed(to, !less.attacks(side.other(), to));
    }
    legal
}

/// Whether the man on a square has to ask its king for each of its ways: a king, a pawn that may capture en passant, and a
/// man that may be pinned.
#[inline(always)]
fn has_to_ask(position: &Position, shields: &Shields, man: Man, from: Square) -> bool
    requires man { man_at position.now.men from ≡ Some man }
    ensures { OnFalse result (IsFree position.now shields.now.screens from) }
{
    match man.kind {
        Kind::King => true,
        Kind::Pawn => shields.screens.has(from) || may_pass(position, from),
        _ => shields.screens.has(from),
    }
}

/// The legal ones of the ways of a man.
#[inline(always)]
fn legal_among(
    position: &Position,
    shields: &Shields,
    man: Man,
    from: Square,
    ways: SquareSet,
) -> SquareSet
    requires man { man_at position.now.men from ≡ Some man }
    requires shields { AreShields position.now shields.now.answers shields.now.screens }
    requires ways { ways ≡ set_of (is_way position.now from) }
    ensures { result ≡ set_of (goes_legally position.now from) }
{
    // The ways of a man are told of valid positions.
    position.known();
    let _from = from.index();
    if has_to_ask(position, shields, man, from) {
        sifted(position, man, from, ways)
    } else {
        ways.common(shields.answers)
    }
}

/// The squares to which the man on a square goes legally.
// It is asked once a man, and a call costs as much as the ways of most men.
#[inline(always)]
pub fn legal_ways(position: &Position, shields: &Shields, man: Man, from: Square) -> SquareSet
    requires man { man_at position.now.men from ≡ Some man }
    requires shields { AreShields position.now shields.now.answers shields.now.screens }
    ensures { result ≡ set_of (goes_legally position.now from) }
{
    if !man.color.is(position.side()) {
        return SquareSet::empty();
    }
    legal_ways_by(position, shields, man.color, man.kind, from)
}

/// The same where it is known that a man of the side to move and of this kind stands there, as to whoever visits the men of a
/// kind: then neither is asked.
#[inline(always)]
pub fn legal_ways_by(
    position: &Position,
    shields: &Shields,
    side: Color,
    kind: Kind,
    from: Square,
) -> SquareSet
    requires side { side ≡ position.now.side }
    requires man { man_at position.now.men from ≡ Some (record { color = side; kind = kind }) }
    requires shields { AreShields position.now shields.now.answers shields.now.screens }
    ensures { result ≡ set_of (goes_legally position.now from) }
{
    let color = side;
    let ways = own_ways(position, side, kind, from);
    match kind {
        Kind::King => sifted_of_king(position, side, from, ways),
        _ => legal_among(position, shields, Man { color, kind }, from, ways),
    }
}
