//! How many moves were found, as far as it matters.

ghost use Rattle.std.specs.Prelude.{◌≡◌};
ghost use Rattle.cha_san.specs.Seen.{with_one, answered};

use crate::faults::SanFault;
use cha_moves::Move;

/// What was found of the moves that fit a word.
#[derive(Clone, Copy)]
pub enum Found {
    /// No move.
    Nothing,
    /// One move.
    One(Move),
    /// Two moves or more.
    Several,
}

impl Found {
    /// What is found after one more fitting move: the first is kept; with a second there are several.
    pub fn and(self, m: &Move) -> Found
        ensures { result ≡ with_one self m.now }
    {
        match self {
            Found::Nothing => Found::One(*m),
            _ => Found::Several,
        }
    }

    /// The one move, or why a word names none.
    pub fn only(self) -> Result<Move, SanFault>
        ensures { result ≡ answered self }
    {
        match self {
            Found::Nothing => Err(SanFault::NoSuchMove),
            Found::One(m) => Ok(m),
            Found::Several => Err(SanFault::Ambiguous),
        }
    }
}
