//! Lines of at most 64 moves, which take no memory.

ghost use Rattle.std.specs.Prelude.{◌≡◌, ◌<◌, ◌≤◌, ◌↔◌, [], ◌∷◌, ◌++◌, length, IsTrue, IsNone, IfSome};
ghost use Rattle.std.specs.Bool.{OnTrue, OnFalse};

use arrayvec::ArrayVec;
use cha_moves::Move;
use std::marker::Model;

/// A line of moves, at most 64 of them. Contracts see the list.
#[derive(Drop)]
pub struct Line {
    moves: ArrayVec<Move, 64>,
}

impl Model for Line {
    ghost use Rattle.std.specs.Prelude.{List};
    ghost use Rattle.cha_moves.specs.Step.{Move as Step};

    ghost Value = { List Step };

    ghost view = { λ s. s.moves.items };
}

impl Line {
    /// The line without moves.
    pub fn new() -> Line
        ensures { result ≡ [] }
    {
        Line {
            moves: ArrayVec::new(),
        }
    }

    /// Appends a move, or answers false and changes nothing where the line has 64 moves.
    pub fn push(&mut self, m: Move) -> bool
        ensures room { IsTrue result ↔ (length self.old < 64) }
        ensures appended { OnTrue result (self.new ≡ self.old ++ m ∷ []) }
        ensures full { OnFalse result (length self.old ≡ 64) }
        ensures unchanged { OnFalse result (self.new ≡ self.old) }
    {
        if self.moves.is_full() {
            return false;
        }
        self.moves.push(m);
        true
    }

    /// The moves, in order.
    pub fn moves(&self) -> &[Move]
        ensures value { result.now ≡ self.now }
        ensures fits { length result.now ≤ 64 }
    {
        self.moves.as_slice()
    }

    /// The line with one more move in front, or None where it has 64 moves already.
    pub fn led_by(&self, first: Move) -> Option<Line>
        ensures full { IsNone result ↔ (length self.now ≡ 64) }
        ensures value { IfSome result (λ line. line ≡ first ∷ self.now) }
    {
        if self.moves.is_full() {
            return None;
        }
        let mut moves = ArrayVec::new();
        moves.push(first);
        for m in self.moves.as_slice() {
            moves.push(*m);
        }
        Some(Line { moves })
    }

    /// The line of these moves.
    pub fn of(moves: &[Move]) -> Line
        requires { length moves.now ≤ 64 }
        ensures { result ≡ moves.now }
    {
        let mut kept = ArrayVec::new();
        for m in moves {
            kept.push(*m);
        }
        Line { moves: kept }
    }

    /// A copy of the line.
    pub fn copy(&self) -> Line
        ensures { result ≡ self.now }
    {
        Line::of(self.moves.as_slice())
    }
}
