//! How men go: one function for each way that is asked of a single move (Laws of Chess, Articles 3.7 and 3.8).

ghost use Rattle.std.specs.Prelude.{◌≡◌, ◌<◌};
ghost use Rattle.cha_board.specs.Board.{is_empty, is_clear, home_of, corner_of};
ghost use Rattle.cha_moves.specs.Moves.{is_target, is_double_step, is_en_passant, is_promotion};
ghost use Rattle.cha_moves.specs.Moves.{castles as castles_on};
ghost use Rattle.cha_moves.specs.Moves.{promotes_well as promotes_well_on};
ghost use Rattle.cha_moves.specs.Ways.{is_promoted};

use crate::passing::passed_over;
use crate::sides::{double_step_rank, first_pawn_rank, promotion_rank};
use cha_board::{Color, Kind, Position, Square, Wing, aims_at, attacks, files_between, home};

/// Whether nothing stands on a square.
fn is_empty_at(position: &Position, at: Square) -> bool
    ensures { result ≡ is_empty position.now.men at }
{
    let _at = at.index();
    !position.occupied().has(at)
}

/// Whether a square is the one that a pawn has just passed over.
fn is_target_at(position: &Position, at: Square) -> bool
    ensures { result ≡ is_target position.now.target at }
{
    match position.target() {
        None => false,
        Some(target) => target.index() == at.index(),
    }
}

/// Whether a pawn of the side to move goes so by a double step.
#[tactic(auto, unfolding(crate::specs::Moves::is_double_step))]
pub fn double_steps(position: &Position, s: Square, t: Square) -> bool
    ensures { result ≡ is_double_step position.now s t }
{
    let side = position.side();
    files_between(s, t) == 0
        && s.rank() == first_pawn_rank(side)
        && t.rank() == double_step_rank(side)
        && is_empty_at(position, passed_over(s, t))
        && is_empty_at(position, t)
}

/// Whether a pawn of the side to move goes so by a capture en passant.
#[tactic(auto, unfolding(crate::specs::Moves::is_en_passant))]
pub fn goes_en_passant(position: &Position, s: Square, t: Square) -> bool
    ensures { result ≡ is_en_passant position.now s t }
{
    is_target_at(position, t) && aims_at(position.side(), Kind::Pawn, s, t)
}

/// Whether nothing stands between the homes of a side's king and of its rook on a wing.
fn has_clear_way(position: &Position, side: Color, wing: Wing) -> bool
    ensures { result ≡ is_clear position.now.men (home_of side) (corner_of side wing) }
{
    wing.way(side).common(position.occupied()).is_empty()
}

/// Whether the king of the side to move goes so by castling on a wing.
#[tactic(auto, unfolding(crate::specs::Moves::castles))]
pub fn castles(position: &Position, wing: Wing, s: Square, t: Square) -> bool
    ensures { result ≡ castles_on position.now wing s t }
{
    let side = position.side();
    let enemy = side.other();
    let home = home(side);
    let crossing = wing.crossing(side);
    let goal = wing.goal(side);
    s.index() == home.index()
        && t.index() == goal.index()
        && position.rights().has(side, wing)
        && has_clear_way(position, side, wing)
        && !attacks(position, enemy, home)
        && !attacks(position, enemy, crossing)
        && !attacks(position, enemy, goal)
}

/// Whether a pawn may become this.
fn is_promotion_to(promotion: Option<Kind>) -> bool
    ensures { result ≡ is_promotion promotion }
{
    matches!(
        promotion,
        Some(Kind::Queen | Kind::Rook | Kind::Bishop | Kind::Knight)
    )
}

/// Whether a man of a side is promoted on a square.
pub fn promotes(side: Color, kind: Kind, to: Square) -> bool
    ensures { result ≡ is_promoted side kind to }
{
    kind.is(Kind::Pawn) && to.rank() == promotion_rank(side)
}

/// Whether the promotion fits: a piece is named where a pawn reaches its last rank, and none elsewhere.
#[tactic(auto, unfolding(crate::specs::Moves::promotes_well))]
pub fn promotes_well(side: Color, kind: Kind, to: Square, promotion: Option<Kind>) -> bool
    ensures { result ≡ promotes_well_on side kind to promotion }
{
    if promotes(side, kind, to) {
        is_promotion_to(promotion)
    } else {
        promotion.is_none()
    }
}
