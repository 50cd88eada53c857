//! What a move changes: the men, the rights to castle, and the square that a pawn has passed over.

ghost use Rattle.std.specs.Prelude.{◌≡◌, false, not, ◌&&◌, Some};
ghost use Rattle.cha_board.specs.Men.{is_man};
ghost use Rattle.cha_board.specs.Board.{man_at, home_of, corner_of, is_home, has_right};
ghost use Rattle.cha_board.specs.SquareSets.{set_of, has_square};
ghost use Rattle.cha_moves.specs.Moves.{arriving, moved, rook_castled, touches, men_after, rights_after, target_after};

use crate::chess_move::Move;
use crate::goes::{castles, double_steps, goes_en_passant};
use crate::passing::{captured_on, passed_over};
use cha_board::{
    Color, Kind, Man, Men, Position, Rights, Square, SquareSet, Wing, home, homes, is_man_of,
};

/// What arrives where this man goes and becomes that.
fn arrives(man: Option<Man>, promotion: Option<Kind>) -> Option<Man>
    ensures { result ≡ arriving man promotion }
{
    match promotion {
        None => man,
        Some(kind) => match man {
            None => None,
            Some(pawn) => Some(Man {
                color: pawn.color,
                kind,
            }),
        },
    }
}

/// The men once what stands on one square has gone to another, where it shows as this.
// To copy the men costs more than to move one.
#[inline(always)]
fn shift(men: &Men, from: Square, to: Square, man: Option<Man>) -> Men
    ensures { result ≡ moved men.now from to man }
{
    men.lifted(from).put(to, man)
}

/// The men once the rook of a side has castled on a wing.
#[inline(always)]
fn castle_rook(men: &Men, side: Color, wing: Wing) -> Men
    ensures { result ≡ rook_castled men.now side wing }
{
    let rook = Man {
        color: side,
        kind: Kind::Rook,
    };
    shift(men, wing.corner(side), wing.crossing(side), Some(rook))
}

/// The men after a move.
// To copy the men costs more than to move one.
#[inline(always)]
#[tactic(auto, unfolding(crate::specs::Moves::men_after))]
pub fn men_made(position: &Position, m: Move) -> Men
    ensures { result ≡ men_after position.now m }
{
    let side = position.side();
    let man = position.man(m.from);
    let men = position.placement();
    let arrived = arrives(man, m.promotion);
    if is_man_of(man, side, Kind::Pawn) && goes_en_passant(position, m.from, m.to) {
        m.known();
        let captured = captured_on(side, m.to);
        return shift(men, m.from, m.to, arrived).put(captured, None);
    }
    let gone = shift(men, m.from, m.to, arrived);
    if is_man_of(man, side, Kind::King) && castles(position, Wing::Kingside, m.from, m.to) {
        return castle_rook(&gone, side, Wing::Kingside);
    }
    if is_man_of(man, side, Kind::King) && castles(position, Wing::Queenside, m.from, m.to) {
        return castle_rook(&gone, side, Wing::Queenside);
    }
    gone
}

/// The squares that a move leaves and enters.
#[tactic(auto, using(crate::proofs::Touched::touched_set))]
fn touched(m: Move) -> SquareSet
    ensures { result ≡ set_of (touches m) }
{
    SquareSet::single(m.from).with(m.to)
}

/// Whether a side has a right on a wing of which a set has neither the home of its king nor that of its rook.
fn right_left(rights: Rights, touched: SquareSet, side: Color, wing: Wing) -> bool
    ensures { result ≡ (has_right rights side wing && not (has_square touched (home_of side)) && not (has_square touched (corner_of side wing))) }
{
    rights.has(side, wing) & !touched.has(home(side)) & !touched.has(wing.corner(side))
}

/// The rights to castle after a move.
pub fn rights_made(rights: Rights, m: Move) -> Rights
    ensures { result ≡ rights_after rights m }
{
    let touched = touched(m);
    if touched.common(homes()).is_empty() {
        rights
    } else {
        rights_left(rights, touched)
    }
}

/// The rights to castle after a move of this man from its square to one that is no home of a king or a rook.
#[inline(always)]
pub fn rights_leaving(position: &Position, man: Man, from: Square) -> Rights
    requires { man_at position.now.men from ≡ Some man }
    ensures { (m : Move) → m.from ≡ from → is_home m.to ≡ false → result ≡ rights_after position.now.rights m }
{
    position.known();
    let to = from;
    let promotion = None;
    match man.kind {
        Kind::Rook | Kind::King => rights_made(
            position.rights(),
            Move {
                from,
                to,
                promotion,
            },
        ),
        // Nobody else stands on a home that a right needs.
        _ => position.rights(),
    }
}

/// The rights to castle after a move that leaves and enters these squares.
// Few moves touch a home, and the others are not to make room for this.
#[inline(never)]
fn rights_left(rights: Rights, touched: SquareSet) -> Rights
    ensures { (m : Move) → touched ≡ set_of (touches m) → result ≡ rights_after rights m }
{
    Rights {
        white_king: right_left(rights, touched, Color::White, Wing::Kingside),
        white_queen: right_left(rights, touched, Color::White, Wing::Queenside),
        black_king: right_left(rights, touched, Color::Black, Wing::Kingside),
        black_queen: right_left(rights, touched, Color::Black, Wing::Queenside),
    }
}

/// Whether a pawn of the side to move stands on a square.
fn is_own_pawn(position: &Position, at: Square) -> bool
    ensures { result ≡ is_man position.now.side Kind.Pawn (man_at position.now.men at) }
{
    let _at = at.index();
    position.men(position.side(), Kind::Pawn).has(at)
}

/// The square that the move has passed over, if it is a double step.
#[tactic(auto, unfolding(crate::specs::Moves::target_after))]
pub fn target_made(position: &Position, m: Move) -> Option<Square>
    ensures { result ≡ target_after position.now m }
{
    if is_own_pawn(position, m.from) && double_steps(position, m.from, m.to) {
        Some(passed_over(m.from, m.to))
    } else {
        None
    }
}
