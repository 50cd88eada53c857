//! Sets of squares.

ghost use Rattle.std.specs.Prelude.{◌≡◌, ◌≤◌, length, slice_get};
ghost use Rattle.cha_board.specs.SquareSets.{set_of_bits, bits_of_set, squares_in, empty_set, has_square, set_with, set_without, set_placed, set_joined, set_common, set_minus, has_no_square, is_subset};

use crate::squares::Square;
use std::marker::Model;

/// A set of squares, seen by contracts as 64 truth values, one for each square from a1 to h8.
///
/// As a number its bit `s` stands for square `s`: the set of a1 and h1 is the number `0x81`.
#[derive(Clone, Copy, Debug, PartialEq, Eq)]
pub struct SquareSet {
    bits: u64,
}

impl Model for SquareSet {
    ghost use Rattle.std.specs.Prelude.{Bool, List, ◌<◌, ◌^◌};
    ghost use Rattle.std.proofs.Common.{ap};
    ghost use Rattle.cha_board.specs.SquareSets.{set_of_bits, bits_of_set};
    ghost use Rattle.cha_board.specs.SetNumbers.{bits_of_set-set_of_bits};

    ghost Value = { List Bool };

    ghost view = { λ s. set_of_bits s.bits };

    ghost invariant = { λ s. s.bits < 2 ^ 64 };

    ghost inverse = { λ set. record { bits = bits_of_set set } };

    ghost inverse_ok = { λ s h. ap (λ n. record { bits = n }) (bits_of_set-set_of_bits s.bits h) };
}

impl SquareSet {
    /// The set of no square.
    pub fn empty() -> SquareSet
        ensures { result ≡ empty_set }
    {
        SquareSet { bits: 0 }
    }

    /// The set of one square.
    pub fn single(at: Square) -> SquareSet
        ensures { result ≡ set_with empty_set at }
    {
        SquareSet::empty().with(at)
    }

    /// The set of the squares that are the bits of a number.
    pub fn from_bits(bits: u64) -> SquareSet
        ensures { result ≡ set_of_bits bits }
    {
        SquareSet { bits }
    }

    /// The number whose bits are the squares of the set.
    pub fn bits(self) -> u64
        ensures value { result ≡ bits_of_set self }
        ensures shown { self ≡ set_of_bits result }
    {
        self.bits
    }

    /// Whether a square is in the set.
    pub fn has(self, at: Square) -> bool
        ensures { result ≡ has_square self at }
    {
        (self.bits >> at.index()) & 1 == 1
    }

    /// The set with one more square.
    pub fn with(self, at: Square) -> SquareSet
        ensures { result ≡ set_with self at }
    {
        SquareSet {
            bits: self.bits | (1 << at.index()),
        }
    }

    /// The set without a square.
    pub fn without(self, at: Square) -> SquareSet
        ensures { result ≡ set_without self at }
    {
        SquareSet {
            bits: self.bits & !(1 << at.index()),
        }
    }

    /// The set with a square in or out.
    pub fn placed(self, at: Square, inside: bool) -> SquareSet
        ensures { result ≡ set_placed self at inside }
    {
        if inside {
            self.with(at)
        } else {
            self.without(at)
        }
    }

    /// The squares of either set.
    pub fn joined(self, other: SquareSet) -> SquareSet
        ensures { result ≡ set_joined self other }
    {
        SquareSet {
            bits: self.bits | other.bits,
        }
    }

    /// The squares of both sets.
    pub fn common(self, other: SquareSet) -> SquareSet
        ensures { result ≡ set_common self other }
    {
        SquareSet {
            bits: self.bits & other.bits,
        }
    }

    /// The squares of this set that are not in the other.
    pub fn minus(self, other: SquareSet) -> SquareSet
        ensures { result ≡ set_minus self other }
    {
        SquareSet {
            bits: self.bits & !other.bits,
        }
    }

    /// Whether the set has no square.
    pub fn is_empty(self) -> bool
        ensures { result ≡ has_no_square self }
    {
        self.bits == 0
    }

    /// How many squares the set has.
    pub fn len(self) -> u8
        ensures value { result ≡ length (squares_in self) }
        ensures bound { result ≤ 64 }
    {
        self.bits.count_ones() as u8
    }

    /// The first square of the set, in the order from a1 to h8, or None where it has none.
    pub fn first(self) -> Option<Square>
        ensures { result ≡ slice_get (squares_in self) 0 }
    {
        if self.bits == 0 {
            None
        } else {
            Some(Square::at(self.bits.trailing_zeros() as u8))
        }
    }

    /// Whether each square of this set is in the other.
    pub fn within(self, other: SquareSet) -> bool
        ensures { result ≡ is_subset self other }
    {
        self.bits & !other.bits == 0
    }
}
