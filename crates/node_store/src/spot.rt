//! Positions as keys of a table.

ghost use Rattle.std.specs.Prelude.{nat_eq};
ghost use Rattle.std.proofs.Common.{rules};
ghost use Rattle.std.specs.Cmp.Lexicographic.{pointwise};
ghost use Rattle.std.specs.Cmp.Rules.{comparing, hashing};
ghost use Rattle.std.specs.Hash as fed;
ghost use Rattle.std.specs.Ordering.{on};
ghost use Rattle.cha_board.specs.Packing.{words_of, mixed_of};

use cha_board::Kept;
use std::hash::{Hash, Hasher};

/// A position, compared and hashed by its five words.
#[derive(Drop)]
pub struct Spot {
    pub position: Kept,
}

impl PartialEq for Spot {
    ghost eq = { on (λ s. words_of s.position) (pointwise nat_eq) };

    ghost laws = { Prim.search (comparing, rules) };

    fn eq(&self, other: &Spot) -> bool {
        self.position.packed().words == other.position.packed().words
    }
}

impl Eq for Spot {
    ghost laws = { Prim.search (comparing, rules) };
}

impl Hash for Spot {
    ghost hash_input = { λ s. fed.u64 (mixed_of (words_of s.position)) };

    ghost respects_eq = { Prim.search (hashing, rules) };

    fn hash<H: Hasher>(&self, state: &mut H) {
        state.write_u64(self.position.packed().mixed());
    }
}
