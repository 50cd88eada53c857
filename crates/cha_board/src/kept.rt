//! Positions kept in the room of their five words.

ghost use Rattle.std.specs.Prelude.{◌≡◌, ◌<◌, ◌+◌, ◌*◌};
ghost use Rattle.cha_board.specs.Board.{IsValid};
ghost use Rattle.cha_board.specs.Packing.{bit_of, state_number, words_of};

use crate::men::Color;
use crate::packed::Packed;
use crate::placement::Men;
use crate::position::{Position, Rights};
use crate::sets::SquareSet;
use crate::squares::Square;
use std::marker::Model;
use std::snapshot::Snapshot;

/// A position kept in the room of its five words, 40 bytes, seen by contracts as the position.
#[derive(Drop)]
pub struct Kept {
    packed: Packed,
    of: Snapshot<Position>,
}

impl Model for Kept {
    ghost use Rattle.std.specs.Prelude.{◌≡◌};
    ghost use Rattle.cha_board.specs.Board.{Board, IsValid};
    ghost use Rattle.cha_board.specs.Packing.{words_of};

    ghost Value = { Board };

    ghost view = { λ k. k.of.value };

    ghost invariant = { λ k. IsValid k.of.value × (k.packed.words ≡ words_of k.of.value) };
}

impl Kept {
    /// Keeps a position.
    pub fn of(position: &Position) -> Kept
        ensures { result ≡ position.now }
    {
        position.known();
        Kept {
            packed: position.pack(),
            of: Snapshot::of(position),
        }
    }

    /// Proves to the caller that the position is valid.
    pub fn known(&self)
        ensures { IsValid self.now }
    {
        let _packed = &self.packed;
    }

    /// A copy of it.
    pub fn copy(&self) -> Kept
        ensures { result ≡ self.now }
    {
        let position = self.position();
        Kept {
            packed: self.packed,
            of: Snapshot::of(&position),
        }
    }

    /// The five words of the position.
    pub fn packed(&self) -> Packed
        ensures { result.words ≡ words_of self.now }
    {
        self.packed
    }

    /// The position.
    pub fn position(&self) -> Position
        ensures { result ≡ self.now }
    {
        let words = &self.packed.words;
        let men = Men::of_four(
            SquareSet::from_bits(words[0]),
            SquareSet::from_bits(words[1]),
            SquareSet::from_bits(words[2]),
            SquareSet::from_bits(words[3]),
        );
        let state = state_of(words[4]);
        Position::of_parts(men, state.side, state.rights, state.target)
    }
}

/// What a position has beside its men.
#[derive(Clone, Copy)]
struct State {
    side: Color,
    rights: Rights,
    target: Option<Square>,
}

/// The last bit of a number, and the others.
fn halved(number: u64) -> (bool, u64)
    ensures { number ≡ bit_of result.0 + 2 * result.1 }
{
    (number % 2 == 1, number / 2)
}

/// The state of a number, as the last of a position's words is one.
#[tactic(auto, unfolding(crate::specs::Packing::state_number))]
fn state_of(number: u64) -> State
    requires { number < 2080 }
    ensures { state_number result.side result.rights result.target ≡ number }
{
    let (black, number) = halved(number);
    let (white_king, number) = halved(number);
    let (white_queen, number) = halved(number);
    let (black_king, number) = halved(number);
    let (black_queen, number) = halved(number);
    State {
        side: if black { Color::Black } else { Color::White },
        rights: Rights {
            white_king,
            white_queen,
            black_king,
            black_queen,
        },
        target: if number == 0 {
            None
        } else {
            Some(Square::at(number as u8 - 1))
        },
    }
}
