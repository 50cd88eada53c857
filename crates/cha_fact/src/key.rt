//! The name under which a fact is found.

ghost use Rattle.std.specs.Prelude.{◌≡◌, ◌↔◌};
ghost use Rattle.cha_board.specs.declared.men.Color.{Color as Side};
ghost use Rattle.cha_board.specs.Board.{Board, IsValid};
ghost use Rattle.cha_fact.specs.Keys.{key_of};

use cha_board::{Color, Packed, Position};
use std::hash::{Hash, Hasher};

/// A position as its words, and the side that may mate.
#[derive(Clone, Copy, Debug, PartialEq, Eq, PartialOrd, Ord)]
pub struct Key {
    pub packed: Packed,
    pub winner: Color,
}

/// Only the words are hashed: both sides of a position have one place.
impl Hash for Key {
    ghost use Rattle.std.specs.Hash as fed;
    ghost use Rattle.std.specs.Cmp.Rules.{hashing};
    ghost use Rattle.std.proofs.Common.{rules};
    ghost use Rattle.cha_board.specs.Packing.{mixed_of};

    ghost hash_input = { λ key. fed.u64 (mixed_of key.packed.words) };

    ghost respects_eq = { Prim.search (hashing, rules) };

    fn hash<H: Hasher>(&self, state: &mut H) {
        state.write_u64(self.packed.mixed());
    }
}

impl Key {
    /// The key of a position and a side.
    pub fn of(position: &Position, winner: Color) -> Key
        ensures { result ≡ key_of position.now winner }
    {
        Key {
            packed: position.pack(),
            winner,
        }
    }
}

/// The law: two keys are equal exactly where positions and sides are.
pub fn keys_tell_positions()
    ensures { (a b : Board) (v w : Side) → IsValid a → IsValid b → (key_of a v ≡ key_of b w) ↔ ((a ≡ b) × (v ≡ w)) }
{}
