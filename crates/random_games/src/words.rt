//! A move as a word that tells both of its squares (PGN standard, 8.2.3).

ghost use Rattle.std.specs.Prelude.{◌≡◌, ◌++◌, OnOk};
ghost use Rattle.random_games.specs.Words.{man_text, plain_text, move_word};

use cha_board::{Man, Position, put_square};
use cha_list::{NoMemory, Text};
use cha_moves::Move;
use cha_san::{castles, put_castling, put_kind, put_promotion};

/// Appends the letter of what stands on a square: none for a pawn.
fn put_man(found: Option<Man>, text: &mut Text) -> Result<(), NoMemory>
    ensures { OnOk result (text.new ≡ text.old ++ man_text found) }
{
    match found {
        None => Ok(()),
        Some(man) => put_kind(man.kind, text),
    }
}

/// Appends a move that is no castling.
#[tactic(auto, unfolding(crate::specs::Words::plain_text))]
fn put_plain(position: &Position, m: Move, text: &mut Text) -> Result<(), NoMemory>
    ensures { OnOk result (text.new ≡ text.old ++ plain_text position.now m) }
{
    put_man(position.man(m.from), text)?;
    put_square(m.from, text)?;
    put_square(m.to, text)?;
    put_promotion(m.promotion, text)
}

/// Appends a move as a word, as `Ng1f3`, `e7e8=Q` or `O-O`.
#[tactic(auto, unfolding(crate::specs::Words::move_word))]
pub fn put_word(position: &Position, m: Move, text: &mut Text) -> Result<(), NoMemory>
    ensures { OnOk result (text.new ≡ text.old ++ move_word position.now m) }
{
    if castles(position, &m) {
        put_castling(m.to, text)
    } else {
        put_plain(position, m, text)
    }
}
