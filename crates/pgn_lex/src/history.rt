//! Lists that contracts see and nobody keeps.

ghost use Rattle.std.specs.Prelude.{◌≡◌, ◌++◌, ◌∷◌, []};

use std::marker::Model;
use std::snapshot::Snapshot;

/// A list as a chain, the last element outermost. Only contracts see it.
#[derive(Drop)]
pub enum Told<T> {
    /// No element.
    Nothing,
    /// Earlier elements, and one more behind them.
    More(Snapshot<Told<T>>, Snapshot<T>),
}

/// A list that only contracts see. It takes no memory.
#[derive(Drop)]
pub struct History<T> {
    told: Snapshot<Told<T>>,
}

impl<T> Model for History<T> {
    ghost use Rattle.std.specs.Prelude.{List};
    ghost use Rattle.pgn_lex.specs.Told.{list_told};

    ghost Value = { List T };

    ghost view = { λ s. list_told s.told.value };
}

impl<T> History<T> {
    /// The empty list.
    pub fn new() -> History<T>
        ensures { result ≡ [] }
    {
        History {
            told: Snapshot::of(&Told::Nothing),
        }
    }

    /// Appends an element.
    pub fn push(&mut self, element: Snapshot<T>)
        ensures { self.new ≡ self.old ++ element.value ∷ [] }
    {
        let before = std::mem::replace(&mut self.told, Snapshot::of(&Told::Nothing));
        self.told = Snapshot::of(&Told::More(before, element));
    }
}
