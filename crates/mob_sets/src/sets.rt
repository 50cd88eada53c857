//! Mobility sets.

ghost use Rattle.std.specs.Prelude.{◌≡◌, not, [], length, IfOk, OnOk, OnErr};
ghost use Rattle.cha_board.specs.SquareSets.{set_of, empty_set};
ghost use Rattle.mob_sets.specs.Rows.{sets_of, sets_with, sets_joined, sets_loosened};
ghost use Rattle.mob_sets.specs.Tidy.{AreTidy};

use crate::rows::SetRow;
use crate::tidy_rows::{join, row_of};
use cha_board::{Kind, Square, SquareSet};
use cha_list::NoMemory;
use std::alloc::Global;
use std::marker::Model;

/// For each man of a position the squares on which it may ever stand as each kind, and whether it may ever leave its
/// square, change or be captured there.
///
/// A man is named by its origin, the square on which it stands in the position. Contracts see the non-empty rows, one for
/// each origin and kind, and the set of the origins that are loose.
#[derive(Drop)]
pub struct Sets {
    rows: Vec<SetRow>,
    loose: SquareSet,
}

impl Model for Sets {
    ghost use Rattle.std.specs.Prelude.{◌≡◌, length};
    ghost use Rattle.mob_sets.specs.Rows.{SetRows};
    ghost use Rattle.mob_sets.specs.Tidy.{AreTidy};

    ghost Value = { SetRows };

    ghost view = { λ s. record { rows = s.rows.items; loose = s.loose } };

    ghost invariant = { λ s. AreTidy s.rows.items × (length s.loose ≡ 64) };
}

impl Sets {
    /// The empty sets. They take no memory.
    pub fn new(alloc: Global) -> Sets
        ensures { result ≡ record { rows = []; loose = empty_set } }
    {
        Sets {
            rows: Vec::new(alloc),
            loose: SquareSet::empty(),
        }
    }

    /// The sets of rows that stand in order, each with some square. It takes no memory.
    pub fn of_rows(rows: Vec<SetRow>, loose: SquareSet) -> Sets
        requires { AreTidy rows.items }
        ensures { result ≡ record { rows = rows.items; loose = loose } }
    {
        // The number of a set tells that it says of each of the 64 squares whether it is in the set.
        let _number = loose.bits();
        Sets { rows, loose }
    }

    /// Whether the man of an origin may ever stand on a square as a kind.
    pub fn has(&self, origin: Square, kind: Kind, at: Square) -> bool
        ensures { result ≡ (sets_of self.now).has origin kind at }
    {
        self.row(origin, kind).has(at)
    }

    /// The squares on which the man of an origin may ever stand as a kind.
    pub fn row(&self, origin: Square, kind: Kind) -> SquareSet
        ensures { result ≡ set_of ((sets_of self.now).has origin kind) }
    {
        row_of(self.rows.as_slice(), origin, kind)
    }

    /// Whether the man of an origin may ever leave it, change or be captured there.
    pub fn is_loose(&self, origin: Square) -> bool
        ensures { result ≡ (sets_of self.now).loose origin }
    {
        self.loose.has(origin)
    }

    /// Adds a square on which the man of an origin may stand as a kind, and answers whether it is new. On a refusal the
    /// sets are unchanged.
    pub fn add(&mut self, origin: Square, kind: Kind, at: Square) -> Result<bool, NoMemory>
        ensures grew { IfOk result (λ grew. grew ≡ not ((sets_of self.old).has origin kind at)) }
        ensures ok { OnOk result (sets_of self.new ≡ sets_with (sets_of self.old) origin kind at) }
        ensures err { OnErr result (self.new ≡ self.old) }
    {
        let grew = !self.has(origin, kind, at);
        self.join(origin, kind, SquareSet::single(at))?;
        Ok(grew)
    }

    /// Adds squares on which the man of an origin may stand as a kind. On a refusal the sets are unchanged.
    pub fn join(&mut self, origin: Square, kind: Kind, more: SquareSet) -> Result<(), NoMemory>
        ensures ok { OnOk result (sets_of self.new ≡ sets_joined (sets_of self.old) origin kind more) }
        ensures err { OnErr result (self.new ≡ self.old) }
    {
        join(&mut self.rows, origin, kind, more)
    }

    /// Makes an origin loose, and answers whether it was not.
    pub fn loosen(&mut self, origin: Square) -> bool
        ensures grew { result ≡ not ((sets_of self.old).loose origin) }
        ensures sets { sets_of self.new ≡ sets_loosened (sets_of self.old) origin }
    {
        let grew = !self.loose.has(origin);
        self.loose = self.loose.with(origin);
        grew
    }

    /// The rows, each with some square, in order of origin and then of kind: P, N, B, R, Q, K.
    pub fn rows(&self) -> &[SetRow]
        ensures value { result.now ≡ self.now.rows }
        ensures tidy { AreTidy self.now.rows }
    {
        self.rows.as_slice()
    }

    /// The set of the loose origins.
    pub fn loose(&self) -> SquareSet
        ensures value { result ≡ self.now.loose }
        ensures width { length self.now.loose ≡ 64 }
    {
        self.loose
    }

    /// Equal sets.
    pub fn copy(&self, alloc: Global) -> Result<Sets, NoMemory>
        ensures { IfOk result (λ sets. sets ≡ self.now) }
    {
        Ok(Sets {
            rows: Vec::from_slice(alloc, self.rows.as_slice())?,
            loose: self.loose,
        })
    }
}
