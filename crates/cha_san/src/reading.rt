//! A move word, read from its end (PGN standard, 8.2.3).

ghost use Rattle.std.specs.Prelude.{◌≡◌, ◌<◌, IfSome};
ghost use Rattle.cha_san.specs.Forms.{promotion_at as promotion_read, file_at as file_read, rank_at as rank_read, square_at as square_read};
ghost use Rattle.cha_san.specs.Forms.{kind_at, unpromoted, parts as parts_read, stem, is_short, is_long, unsigned_form, form_of};

use crate::backwards::{all_but_last, before, last_byte, without};
use crate::forms::{Form, Parts};
use crate::letters::{Sign, file_of, promotion_of, rank_of};
use cha_board::{Kind, Square};
use cha_list::run_back;

/// The promotion at the end of a word.
#[tactic(auto, unfolding(crate::specs::Forms::promotion_at))]
fn promotion_at(word: &[u8]) -> Option<Kind>
    ensures { result ≡ promotion_read word.now }
{
    match last_byte(word) {
        Some(letter) => promotion_of(letter),
        None => None,
    }
}

/// The file at the end of a word.
#[tactic(auto, unfolding(crate::specs::Forms::file_at))]
fn file_at(word: &[u8]) -> Option<u8>
    ensures value { result ≡ file_read word.now }
    ensures bound { IfSome result (λ file. file < 8) }
{
    match last_byte(word) {
        Some(letter) => file_of(letter),
        None => None,
    }
}

/// The rank at the end of a word.
#[tactic(auto, unfolding(crate::specs::Forms::rank_at))]
fn rank_at(word: &[u8]) -> Option<u8>
    ensures value { result ≡ rank_read word.now }
    ensures bound { IfSome result (λ rank. rank < 8) }
{
    match last_byte(word) {
        Some(digit) => rank_of(digit),
        None => None,
    }
}

/// The square at the end of a word.
#[tactic(auto, unfolding(crate::specs::Forms::square_at))]
fn square_at(word: &[u8]) -> Option<Square>
    ensures { result ≡ square_read word.now }
{
    let Some(file) = file_at(all_but_last(word)) else {
        return None;
    };
    let Some(rank) = rank_at(word) else {
        return None;
    };
    Some(Square::on(file, rank))
}

/// What stands in front of a promotion.
#[tactic(auto, unfolding(crate::specs::Forms::unpromoted))]
fn before_promotion(word: &[u8]) -> &[u8]
    ensures { result.now ≡ unpromoted word.now }
{
    match promotion_at(word) {
        Some(_) => without(b'=', all_but_last(word)),
        None => word,
    }
}

/// The kind of man that the front of a word names.
#[tactic(auto, unfolding(crate::specs::Forms::kind_at))]
fn kind_in_front(word: &[u8]) -> Option<Kind>
    ensures { result ≡ kind_at word.now }
{
    match word {
        [] => Some(Kind::Pawn),
        [letter] => Kind::of_letter(*letter),
        _ => None,
    }
}

/// The parts of a word that is no castling.
#[tactic(auto, unfolding(crate::specs::Forms::parts))]
fn parts(word: &[u8]) -> Option<Parts>
    ensures { result ≡ parts_read word.now }
{
    let promotion = promotion_at(word);
    let to_target = before_promotion(word);
    let target = square_at(to_target);
    let to_rank = without(b'x', all_but_last(all_but_last(to_target)));
    let rank = rank_at(to_rank);
    let to_file = before(rank.is_some(), to_rank);
    let file = file_at(to_file);
    let to_letter = before(file.is_some(), to_file);
    let Some(kind) = kind_in_front(to_letter) else {
        return None;
    };
    let Some(to) = target else {
        return None;
    };
    Some(Parts {
        kind,
        file,
        rank,
        to,
        promotion,
    })
}

/// A word without the signs at its end.
#[tactic(auto, unfolding(crate::specs::Forms::stem))]
fn without_signs(word: &[u8]) -> &[u8]
    ensures { result.now ≡ stem word.now }
{
    let (stem, _signs) = word.split_at(word.len() - run_back(Sign, word));
    stem
}

/// Whether a word is castling on the king's side.
#[tactic(auto, unfolding(crate::specs::Forms::is_short))]
fn short(word: &[u8]) -> bool
    ensures { result ≡ is_short word.now }
{
    word == b"O-O".as_slice() || word == b"0-0".as_slice()
}

/// Whether a word is castling on the queen's side.
#[tactic(auto, unfolding(crate::specs::Forms::is_long))]
fn long(word: &[u8]) -> bool
    ensures { result ≡ is_long word.now }
{
    word == b"O-O-O".as_slice() || word == b"0-0-0".as_slice()
}

/// What a word says, or None where it is not of the form of a move.
#[tactic(auto, unfolding(crate::specs::Forms::unsigned_form))]
pub fn form(word: &[u8]) -> Option<Form>
    ensures { result ≡ form_of word.now }
{
    let stem = without_signs(word);
    if short(stem) {
        return Some(Form::Short);
    }
    if long(stem) {
        return Some(Form::Long);
    }
    match parts(stem) {
        Some(parts) => Some(Form::Plain(parts)),
        None => None,
    }
}
