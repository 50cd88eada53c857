//! Where men may go, as sets of squares (Laws of Chess, Articles 3.1 to 3.8).

ghost use Rattle.std.specs.Prelude.{◌≡◌, ◌==◌, not, ◌&&◌, ◌||◌, Some};
ghost use Rattle.cha_board.specs.Board.{man_at};
ghost use Rattle.cha_board.specs.SquareSets.{set_of, has_square};
ghost use Rattle.cha_moves.specs.Moves.{is_step, is_double_step, is_pawn_capture, is_en_passant, goes, may_enter};
ghost use Rattle.cha_moves.specs.Moves.{is_pseudo_legal as is_pseudo_legal_in, castles as castles_on};
ghost use Rattle.cha_moves.specs.Ways.{is_way};

use crate::chess_move::Move;
use crate::goes::{castles, promotes_well};
use crate::sides::{first_pawn_rank, promotion_rank};
use cha_board::{Color, Kind, Man, Position, Square, SquareSet, Wing, aims};

/// The squares that the side to move may not enter: those of its own men and that of the other king.
fn barred(position: &Position, side: Color) -> SquareSet
    requires { side ≡ position.now.side }
    ensures { result ≡ set_of (λ t. not (may_enter position.now.side (man_at position.now.men t))) }
{
    let own = position.placement().of_side(side);
    own.joined(position.men(side.other(), Kind::King))
}

/// The set with one more square, where that is so.
fn with_where(set: SquareSet, at: Square, so: bool) -> SquareSet
    ensures { result ≡ set_of (λ t. (so && (t == at)) || has_square set t) }
{
    let _bits = set.bits();
    if so { set.with(at) } else { set }
}

/// The squares to which a pawn of the side to move steps.
#[inline(always)]
pub fn pawn_steps(position: &Position, side: Color, s: Square) -> SquareSet
    requires { side ≡ position.now.side }
    ensures { result ≡ set_of (λ t. is_step position.now s t || is_double_step position.now s t) }
{
    if s.rank() == promotion_rank(side) {
        return SquareSet::empty();
    }
    let occupied = position.occupied();
    let one = s.ahead(side);
    if occupied.has(one) {
        return SquareSet::empty();
    }
    let steps = SquareSet::single(one);
    if s.rank() != first_pawn_rank(side) {
        return steps;
    }
    let two = one.ahead(side);
    if occupied.has(two) {
        return steps;
    }
    steps.with(two)
}

/// The squares onto which a pawn of the side to move captures, en passant too.
#[inline(always)]
fn pawn_captures(position: &Position, side: Color, s: Square) -> SquareSet
    requires { side ≡ position.now.side }
    ensures { result ≡ set_of (λ t. is_pawn_capture position.now s t || is_en_passant position.now s t) }
{
    let _from = s.index();
    let occupied = position.occupied();
    let aimed = aims(side, Kind::Pawn, s, occupied);
    let captures = aimed.common(occupied);
    match position.target() {
        None => captures,
        Some(target) => {
            let _to = target.index();
            with_where(captures, target, aimed.has(target))
        }
    }
}

/// The set with the square to which the king goes by castling on a wing, where it may.
fn with_castling(set: SquareSet, position: &Position, wing: Wing, s: Square) -> SquareSet
    ensures { result ≡ set_of (λ t. castles_on position.now wing s t || has_square set t) }
{
    let goal = wing.goal(position.side());
    with_where(set, goal, castles(position, wing, s, goal))
}

/// The squares to which a king of the side to move goes, by castling too.
#[inline(never)]
fn king_ways(position: &Position, s: Square) -> SquareSet
    ensures { result ≡ set_of (goes position.now Kind.King s) }
{
    let _from = s.index();
    let near = aims(position.side(), Kind::King, s, position.occupied());
    let kingside = with_castling(near, position, Wing::Kingside, s);
    with_castling(kingside, position, Wing::Queenside, s)
}

/// The squares to which a man of the side to move and of this kind goes, whatever stands there.
#[inline(always)]
fn kind_ways(position: &Position, side: Color, kind: Kind, s: Square) -> SquareSet
    requires { side ≡ position.now.side }
    ensures { result ≡ set_of (goes position.now kind s) }
{
    match kind {
        Kind::Pawn => pawn_steps(position, side, s).joined(pawn_captures(position, side, s)),
        Kind::King => king_ways(position, s),
        _ => aims(side, kind, s, position.occupied()),
    }
}

/// The squares to which the man on a square may go, as far as its way and what stands there are concerned.
pub fn ways_of(position: &Position, man: Man, from: Square) -> SquareSet
    requires { man_at position.now.men from ≡ Some man }
    ensures { result ≡ set_of (is_way position.now from) }
{
    if !man.color.is(position.side()) {
        return SquareSet::empty();
    }
    own_ways(position, man.color, man.kind, from)
}

/// The squares to which a man of the side to move and of this kind may go from its square, as far as its way and what stands
/// there are concerned.
#[inline(always)]
pub fn own_ways(position: &Position, side: Color, kind: Kind, from: Square) -> SquareSet
    requires side { side ≡ position.now.side }
    requires man { man_at position.now.men from ≡ Some (record { color = side; kind = kind }) }
    ensures { result ≡ set_of (is_way position.now from) }
{
    kind_ways(position, side, kind, from).minus(barred(position, side))
}

/// Whether what stands on `m.from` may make the move, whether or not its king is attacked afterwards.
pub fn is_pseudo_legal(position: &Position, m: Move) -> bool
    ensures { result ≡ is_pseudo_legal_in position.now m }
{
    m.known();
    match position.man(m.from) {
        None => false,
        Some(man) => {
            promotes_well(position.side(), man.kind, m.to, m.promotion)
                && ways_of(position, man, m.from).has(m.to)
        }
    }
}
