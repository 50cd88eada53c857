//! Mobility sets as they grow.

ghost use Rattle.std.specs.Prelude.{◌≡◌, ◌<◌, ℕ, false, true};
ghost use Rattle.cha_board.specs.declared.men.Kind.{Kind as ManKind};
ghost use Rattle.cha_board.specs.SquareSets.{has_square};
ghost use Rattle.mob_sets.specs.Mobility.{Sets, IsWithin};
ghost use Rattle.mob_solve.specs.Reaching.{row_of, sets_in, Grew};

use cha_board::{Kind, Square, SquareSet};
use mob_sets::place;

/// For each origin and kind the squares that are known to be in reach, and the origins that are known to be loose.
#[derive(Drop)]
pub struct Reach {
    pub rows: [SquareSet; 384],
    pub loose: SquareSet,
}

impl Reach {
    /// The empty sets.
    pub fn empty() -> Reach
        ensures rows { (o : ℕ) (k : ManKind) (u : ℕ) → (sets_in result).has o k u ≡ false }
        ensures loose { (o : ℕ) → (sets_in result).loose o ≡ false }
    {
        let none = SquareSet::empty();
        Reach {
            rows: [none; 384],
            loose: none,
        }
    }

    /// The squares on which the man of an origin is in reach as a kind.
    pub fn row(&self, origin: Square, kind: Kind) -> SquareSet
        ensures { result ≡ row_of self.now origin kind }
    {
        self.rows[place(origin, kind)]
    }

    /// Adds squares on which the man of an origin is in reach as a kind, and answers whether some are new.
    pub fn join(&mut self, origin: Square, kind: Kind, squares: SquareSet) -> bool
        ensures change { Grew self.old self.new result }
        ensures there { result ≡ false → (u : ℕ) → u < 64 → has_square squares u ≡ true → (sets_in self.old).has origin kind u ≡ true }
        ensures inside { (r : Sets) → ((u : ℕ) → has_square squares u ≡ true → r.has origin kind u ≡ true) → IsWithin (sets_in self.old) r → IsWithin (sets_in self.new) r }
    {
        let row = self.row(origin, kind);
        if squares.within(row) {
            return false;
        }
        self.rows[place(origin, kind)] = row.joined(squares);
        true
    }

    /// Makes origins loose, and answers whether some were not.
    pub fn loosen(&mut self, origins: SquareSet) -> bool
        ensures change { Grew self.old self.new result }
        ensures there { result ≡ false → (o : ℕ) → o < 64 → has_square origins o ≡ true → (sets_in self.old).loose o ≡ true }
        ensures inside { (r : Sets) → ((o : ℕ) → has_square origins o ≡ true → r.loose o ≡ true) → IsWithin (sets_in self.old) r → IsWithin (sets_in self.new) r }
    {
        if origins.within(self.loose) {
            return false;
        }
        self.loose = self.loose.joined(origins);
        true
    }
}
