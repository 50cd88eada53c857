//! The text of a move, as `e2e4`.

ghost use Rattle.std.specs.Prelude.{◌≡◌, ◌+◌, ◌≤◌, ◌++◌, length};
ghost use Rattle.cha_board.specs.Letters.{square_text};
ghost use Rattle.cha_moves.specs.Texts.{promotion_text, move_bytes};

use crate::chess_move::Move;
use arrayvec::ArrayString;
use cha_board::{Kind, Square};

/// Appends a square's file letter and rank digit.
#[tactic(auto, unfolding(cha_board::specs::Letters::square_text))]
fn add_square(text: &mut ArrayString<5>, at: Square)
    requires { length text.old.bytes + 2 ≤ 5 }
    ensures { text.new.bytes ≡ text.old.bytes ++ square_text at }
{
    text.push(char::from(at.file_letter()));
    text.push(char::from(at.rank_digit()));
}

/// Appends the letter of what a pawn becomes, or nothing.
#[tactic(auto, unfolding(crate::specs::Texts::promotion_text))]
fn add_promotion(text: &mut ArrayString<5>, promotion: Option<Kind>)
    requires { length text.old.bytes + 1 ≤ 5 }
    ensures { text.new.bytes ≡ text.old.bytes ++ promotion_text promotion }
{
    match promotion {
        Some(Kind::Queen) => text.push('q'),
        Some(Kind::Rook) => text.push('r'),
        Some(Kind::Bishop) => text.push('b'),
        Some(Kind::Knight) => text.push('n'),
        _ => {}
    }
}

/// The text of a move: the squares that it leaves and enters, and for a promotion the letter `q`, `r`, `b` or `n`, as
/// `e2e4` or `e7e8q`. Castling is the king's move, as `e1g1`.
#[tactic(auto, unfolding(crate::specs::Texts::move_bytes, cha_board::specs::Letters::square_text))]
pub fn move_text(m: Move) -> ArrayString<5>
    ensures { result.bytes ≡ move_bytes m }
{
    let mut text = ArrayString::new();
    add_square(&mut text, m.from);
    add_square(&mut text, m.to);
    add_promotion(&mut text, m.promotion);
    text
}
