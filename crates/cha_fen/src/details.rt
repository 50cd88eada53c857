//! The fields behind the men: the side to move, the castlings that are left, the square that a pawn has just passed over,
//! and two clocks (PGN standard, 16.1.3.2 to 16.1.3.6).

ghost use Rattle.std.specs.Prelude.{◌≡◌};
ghost use Rattle.cha_fen.specs.Fields.{fields};
ghost use Rattle.cha_fen.specs.Fen.{side_of, is_dash, are_rights, rights_of, target_of, are_clocks};

use crate::fields::next_field;
use cha_board::{Color, Rights, Square};
use cha_list::{Class, all_of, count_of};

/// The side of the second field.
#[tactic(auto, unfolding(crate::specs::Fen::side_of))]
pub fn side_named(field: &[u8]) -> Option<Color>
    ensures { result ≡ side_of field.now }
{
    match field {
        [b'w'] => Some(Color::White),
        [b'b'] => Some(Color::Black),
        _ => None,
    }
}

/// Whether a field is a dash.
fn dash(field: &[u8]) -> bool
    ensures { result ≡ is_dash field.now }
{
    matches!(field, [b'-'])
}

/// Whether each byte is one of `KQkq`, and none stands twice.
#[tactic(auto, unfolding(crate::specs::Fen::are_rights))]
fn right_letters(field: &[u8]) -> bool
    ensures { result ≡ are_rights field.now }
{
    let white_king = count_of(b'K', field);
    let white_queen = count_of(b'Q', field);
    let black_king = count_of(b'k', field);
    let black_queen = count_of(b'q', field);
    white_king <= 1
        && white_queen <= 1
        && black_king <= 1
        && black_queen <= 1
        && white_king + white_queen + black_king + black_queen == field.len()
}

/// The rights of the third field.
#[tactic(auto, unfolding(crate::specs::Fen::rights_of))]
pub fn rights_named(field: &[u8]) -> Option<Rights>
    ensures { result ≡ rights_of field.now }
{
    if dash(field) {
        return Some(Rights {
            white_king: false,
            white_queen: false,
            black_king: false,
            black_queen: false,
        });
    }
    if !right_letters(field) {
        return None;
    }
    Some(Rights {
        white_king: count_of(b'K', field) == 1,
        white_queen: count_of(b'Q', field) == 1,
        black_king: count_of(b'k', field) == 1,
        black_queen: count_of(b'q', field) == 1,
    })
}

/// The target of the fourth field.
#[tactic(auto, unfolding(crate::specs::Fen::target_of))]
pub fn target_named(field: &[u8]) -> Option<Option<Square>>
    ensures { result ≡ target_of field.now }
{
    match field {
        [b'-'] => Some(None),
        [file, rank] => match Square::of_text(*file, *rank) {
            Some(at) => Some(Some(at)),
            None => None,
        },
        _ => None,
    }
}

/// Whether what follows the fourth field is at most two fields of digits.
#[tactic(auto, unfolding(crate::specs::Fen::are_clocks))]
pub fn clocks(bytes: &[u8]) -> bool
    ensures { result ≡ are_clocks (fields bytes.now) }
{
    let Some((first, bytes)) = next_field(bytes) else {
        return true;
    };
    let Some((second, bytes)) = next_field(bytes) else {
        return all_of(Class::Digit, first);
    };
    match next_field(bytes) {
        None => all_of(Class::Digit, first) && all_of(Class::Digit, second),
        Some(_) => false,
    }
}
