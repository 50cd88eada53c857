//! Positions as five words, by which they are compared, sorted and found.

ghost use Rattle.std.specs.Prelude.{◌≡◌, ◌≤◌, ◌↔◌, IsTrue};
ghost use Rattle.cha_board.specs.Board.{Board, man_at, IsValid};
ghost use Rattle.cha_board.specs.SquareSets.{set_of};
ghost use Rattle.cha_board.specs.Packing.{is_of_three, color_code, bit_of, target_code, state_number, words_of, stirred_with, mixed_of};

use crate::men::{Color, Kind};
use crate::placement::Men;
use crate::position::{Position, Rights};
use crate::sets::SquareSet;
use crate::squares::Square;

/// A position as five words. In each of the first four a bit stands for each square: for the men of Black, and for the
/// three bits of a kind's number, from 1 for a pawn to 6 for a king. The last has the side to move, the rights and the
/// target. Equal words are words of one position.
#[derive(Clone, Copy, Debug, PartialEq, Eq, PartialOrd, Ord, Hash)]
pub struct Packed {
    pub words: [u64; 5],
}

/// An odd number whose bits are spread.
const MULTIPLIER: u64 = 0x9e37_79b9_7f4a_7c15;

impl Packed {
    /// The words as one number, by which tables find them. Words that differ in few bits differ there in many.
    #[tactic(auto, unfolding(crate::specs::Packing::mixed_of))]
    pub fn mixed(&self) -> u64
        ensures { result ≡ mixed_of self.now.words }
    {
        let words = &self.words;
        let two = stirred(words[0], words[1]);
        let three = stirred(two, words[2]);
        let four = stirred(three, words[3]);
        stirred(four, words[4])
    }
}

/// A number with one word more.
#[tactic(auto, unfolding(crate::specs::Packing::stirred_with))]
fn stirred(number: u64, word: u64) -> u64
    ensures { result ≡ stirred_with number word }
{
    let spread = number.wrapping_mul(MULTIPLIER).wrapping_add(number >> 32);
    spread.wrapping_add(word)
}

impl Position {
    /// The position in five words.
    #[tactic(auto, unfolding(crate::specs::Packing::words_of))]
    pub fn pack(&self) -> Packed
        ensures { result.words ≡ words_of self.now }
    {
        let men = self.placement();
        Packed {
            words: [
                men.of_side(Color::Black).bits(),
                of_kinds(men, Kind::Pawn, Kind::Bishop, Kind::Queen).bits(),
                of_kinds(men, Kind::Knight, Kind::Bishop, Kind::King).bits(),
                of_kinds(men, Kind::Rook, Kind::Queen, Kind::King).bits(),
                state_word(self.side(), self.rights(), self.target()),
            ],
        }
    }
}

/// The law: valid positions with equal words are one.
pub fn words_tell_positions()
    ensures { (a b : Board) → IsValid a → IsValid b → words_of a ≡ words_of b → a ≡ b }
{}

/// Whether two positions are one.
pub fn same_position(a: &Position, b: &Position) -> bool
    ensures { IsTrue result ↔ (a.now ≡ b.now) }
{
    a.known();
    b.known();
    a.pack().words == b.pack().words
}

/// The squares on which men of three kinds stand.
fn of_kinds(men: &Men, one: Kind, two: Kind, three: Kind) -> SquareSet
    ensures { result ≡ set_of (λ s. is_of_three one two three (man_at men.now s)) }
{
    let first = men.all_of_kind(one).joined(men.all_of_kind(two));
    first.joined(men.all_of_kind(three))
}

/// The number of a side.
fn color_number(color: Color) -> u64
    ensures value { result ≡ color_code color }
    ensures bound { result ≤ 1 }
{
    match color {
        Color::White => 0,
        Color::Black => 1,
    }
}

/// The number of a truth value.
fn bit(of: bool) -> u64
    ensures value { result ≡ bit_of of }
    ensures bound { result ≤ 1 }
{
    if of { 1 } else { 0 }
}

/// The number of a target: 0 for none.
fn target_number(target: Option<Square>) -> u64
    ensures value { result ≡ target_code target }
    ensures bound { result ≤ 64 }
{
    match target {
        None => 0,
        Some(square) => u64::from(square.index()) + 1,
    }
}

/// The side to move, the rights and the target as one number.
#[tactic(auto, unfolding(crate::specs::Packing::state_number))]
fn state_word(side: Color, rights: Rights, target: Option<Square>) -> u64
    ensures { result ≡ state_number side rights target }
{
    let black = bit(rights.black_king) + 2 * (bit(rights.black_queen) + 2 * target_number(target));
    let all = bit(rights.white_king) + 2 * (bit(rights.white_queen) + 2 * black);
    color_number(side) + 2 * all
}
