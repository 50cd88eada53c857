//! How a position is made from its parts.

ghost use Rattle.std.specs.Prelude.{◌≡◌, ◌≢◌, ◌&&◌, IfOk};
ghost use Rattle.std.specs.Result.{result_err};
ghost use Rattle.cha_board.specs.Men.{other_color};
ghost use Rattle.cha_board.specs.Squares.{last_rank};
ghost use Rattle.cha_board.specs.Board.{has_pawn_at_end, has_right, are_at_home, target_fits};
ghost use Rattle.cha_board.specs.Board.{target_rank as target_rank_of};
ghost use Rattle.cha_board.specs.Build.{build_fault, kept_rights, kept_target, built};

use crate::castling::{Wing, home};
use crate::men::{Color, Kind, Man, is_man_of};
use crate::placement::Men;
use crate::position::{Position, Rights};
use crate::sets::SquareSet;
use crate::squares::Square;

/// Why men and a side to move are no valid position. The first rule that is broken, in this order, is the fault.
#[derive(Clone, Copy, Debug, PartialEq, Eq)]
pub enum BuildFault {
    /// A side has not exactly one king.
    Kings,
    /// A pawn stands on the first or the last rank.
    PawnRank,
    /// The king of the side that is not to move is attacked.
    OpponentInCheck,
}

impl Men {
    /// The men of a list, from a1 to h8.
    pub fn of_list(list: &[Option<Man>; 64]) -> Men
        ensures { result ≡ list.now }
    {
        let mut men = Men::nothing();
        for index in 0..64 {
            men = men.put(Square::at(index), list[usize::from(index)]);
        }
        men
    }
}

impl Position {
    /// The position of these men, from a1 to h8, with this side to move. A right is dropped where its king or rook is not
    /// at home, and a target where no pawn can just have passed over it.
    pub fn build(
        men: &[Option<Man>; 64],
        side: Color,
        rights: Rights,
        target: Option<Square>,
    ) -> Result<Position, BuildFault>
        ensures ok { IfOk result (λ q. q ≡ built men.now side rights target) }
        ensures fault { result_err result ≡ build_fault men.now side }
    {
        let placed = Men::of_list(men);
        match first_fault(&placed, side) {
            Some(fault) => Err(fault),
            None => Ok(Position::of_parts(
                placed,
                side,
                rights_kept(&placed, rights),
                target_kept(&placed, side, target),
            )),
        }
    }
}

/// The first rule that men and a side to move break.
#[tactic(auto, unfolding(crate::specs::Build::build_fault))]
fn first_fault(men: &Men, side: Color) -> Option<BuildFault>
    ensures { result ≡ build_fault men.now side }
{
    if !(men.one_king(Color::White) && men.one_king(Color::Black)) {
        return Some(BuildFault::Kings);
    }
    if pawn_at_end(men) {
        return Some(BuildFault::PawnRank);
    }
    if men.in_check(side.other()) {
        return Some(BuildFault::OpponentInCheck);
    }
    None
}

/// Whether some pawn stands on the first or the last rank.
fn pawn_at_end(men: &Men) -> bool
    ensures { result ≡ has_pawn_at_end men.now }
{
    let ends = SquareSet::of_rank(0).joined(SquareSet::of_rank(7));
    !men.all_of_kind(Kind::Pawn).common(ends).is_empty()
}

/// Whether the king of a side and its rook on a wing are at home.
#[tactic(auto, unfolding(crate::specs::Board::are_at_home))]
fn at_home(men: &Men, side: Color, wing: Wing) -> bool
    ensures { result ≡ are_at_home men.now side wing }
{
    let king = men.man(home(side));
    let rook = men.man(wing.corner(side));
    is_man_of(king, side, Kind::King) && is_man_of(rook, side, Kind::Rook)
}

/// Whether there is a right whose king and rook are at home.
fn right_kept(men: &Men, rights: Rights, side: Color, wing: Wing) -> bool
    ensures { result ≡ (has_right rights side wing && are_at_home men.now side wing) }
{
    rights.has(side, wing) && at_home(men, side, wing)
}

/// The rights whose king and rook are at home.
#[tactic(auto, unfolding(crate::specs::Build::kept_rights))]
fn rights_kept(men: &Men, rights: Rights) -> Rights
    ensures { result ≡ kept_rights men.now rights }
{
    Rights {
        white_king: right_kept(men, rights, Color::White, Wing::Kingside),
        white_queen: right_kept(men, rights, Color::White, Wing::Queenside),
        black_king: right_kept(men, rights, Color::Black, Wing::Kingside),
        black_queen: right_kept(men, rights, Color::Black, Wing::Queenside),
    }
}

/// The rank of the squares over which a pawn can just have passed, with this side to move.
fn target_rank(side: Color) -> u8
    ensures value { result ≡ target_rank_of side }
    ensures ahead { result ≢ last_rank side }
    ensures behind { result ≢ last_rank (other_color side) }
{
    match side {
        Color::White => 5,
        Color::Black => 2,
    }
}

/// Whether a pawn can just have passed over a square, with this side to move.
#[tactic(auto, unfolding(crate::specs::Board::target_fits))]
fn passed_over(men: &Men, side: Color, at: Square) -> bool
    ensures { result ≡ target_fits men.now side at }
{
    let enemy = side.other();
    at.rank() == target_rank(side)
        && men.man(at).is_none()
        && men.man(at.ahead(side)).is_none()
        && is_man_of(men.man(at.ahead(enemy)), enemy, Kind::Pawn)
}

/// The target, where a pawn can just have passed over it.
#[tactic(auto, unfolding(crate::specs::Build::kept_target))]
fn target_kept(men: &Men, side: Color, target: Option<Square>) -> Option<Square>
    ensures { result ≡ kept_target men.now side target }
{
    match target {
        None => None,
        Some(at) => {
            if passed_over(men, side, at) {
                Some(at)
            } else {
                None
            }
        }
    }
}
