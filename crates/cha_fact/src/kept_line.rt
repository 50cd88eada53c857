//! Lines that are kept: they lie on the heap, and take no more memory than they are long.

ghost use Rattle.std.specs.Prelude.{◌≡◌, ◌≤◌, length, IfOk};

use crate::line::Line;
use cha_list::NoMemory;
use cha_moves::Move;
use std::alloc::Global;
use std::marker::Model;

/// A line of moves on the heap, at most 64 of them. It takes memory for as many as it has. Contracts see the list.
#[derive(Drop)]
pub struct KeptLine {
    moves: Vec<Move>,
}

impl Model for KeptLine {
    ghost use Rattle.std.specs.Prelude.{List, ◌≤◌, length};
    ghost use Rattle.cha_moves.specs.Step.{Move as Step};

    ghost Value = { List Step };

    ghost view = { λ s. s.moves.items };

    ghost invariant = { λ s. length s.moves.items ≤ 64 };
}

impl KeptLine {
    /// The line of the same moves.
    pub fn of(alloc: Global, line: &Line) -> Result<KeptLine, NoMemory>
        ensures { IfOk result (λ kept. kept ≡ line.now) }
    {
        let moves = Vec::from_slice(alloc, line.moves())?;
        Ok(KeptLine { moves })
    }

    /// The moves, in order.
    pub fn moves(&self) -> &[Move]
        ensures value { result.now ≡ self.now }
        ensures fits { length result.now ≤ 64 }
    {
        self.moves.as_slice()
    }

    /// A copy of the line.
    pub fn copy(&self, alloc: Global) -> Result<KeptLine, NoMemory>
        ensures { IfOk result (λ kept. kept ≡ self.now) }
    {
        let moves = Vec::from_slice(alloc, self.moves.as_slice())?;
        Ok(KeptLine { moves })
    }
}
