//! Bytes that contracts see and nobody keeps.

ghost use Rattle.std.specs.Prelude.{◌≡◌, ◌++◌, take, []};

use std::marker::Model;
use std::snapshot::Snapshot;

/// A list of bytes as a chain of pieces, the last one outermost. Only contracts see it.
#[derive(Drop)]
pub enum Told {
    /// No byte.
    Nothing,
    /// Earlier bytes, and behind them so many from the front of a piece.
    More(Snapshot<Told>, Snapshot<Vec<u8>>, usize),
}

/// A list of bytes that only contracts see. It takes no memory.
#[derive(Drop)]
pub struct History {
    told: Snapshot<Told>,
}

impl Model for History {
    ghost use Rattle.std.specs.Prelude.{List, ℕ};
    ghost use Rattle.text_lines.specs.Told.{bytes_told};

    ghost Value = { List ℕ };

    ghost view = { λ s. bytes_told s.told.value };
}

impl History {
    /// The empty list.
    pub fn new() -> History
        ensures { result ≡ [] }
    {
        History {
            told: Snapshot::of(&Told::Nothing),
        }
    }

    /// Appends the first `size` bytes of a piece.
    pub fn push(&mut self, piece: &Vec<u8>, size: usize)
        ensures { self.new ≡ self.old ++ take size piece.now.items }
    {
        let before = std::mem::replace(&mut self.told, Snapshot::of(&Told::Nothing));
        self.told = Snapshot::of(&Told::More(before, Snapshot::of(piece), size));
    }
}
