//! What is known and true.

ghost use Rattle.std.specs.Prelude.{◌≡◌, ◌∷◌, ◌↔◌, length, IsTrue, IsNone, IsErr, IfOk, IfSome, Contains};
ghost use Rattle.cha_board.specs.Board.{IsValid};
ghost use Rattle.cha_moves.specs.Moves.{after, legal};
ghost use Rattle.cha_moves.specs.Ends.{IsMatingLine, HasNoMateWithin};
ghost use Rattle.cha_fact.specs.Keys.{key_of};
ghost use Rattle.cha_fact.specs.Truths.{IsTrueOf, is_mate, line_of, rank_of};

use crate::fact::Fact;
use crate::kept_line::KeptLine;
use crate::key::Key;
use crate::line::Line;
use cha_board::{Color, Kept, Position};
use cha_list::NoMemory;
use cha_moves::Move;
use std::alloc::Global;
use std::marker::Model;

/// A position, a side and a fact that is true of them: the line mates for the side from this position, or no list of at
/// most so many legal moves does.
#[derive(Drop)]
pub struct Proved {
    position: Kept,
    winner: Color,
    fact: Fact,
}

impl Model for Proved {
    ghost use Rattle.cha_fact.specs.Truths.{Claim, IsTrueOf};

    ghost Value = { Claim };

    ghost view = { λ p. record { position = p.position; winner = p.winner; fact = p.fact } };

    ghost invariant = { λ p. IsTrueOf p.position p.winner p.fact };
}

impl Proved {
    /// The fact that this line of legal moves mates for a side. Memory is taken for the line.
    pub fn mate(
        alloc: Global,
        position: &Position,
        winner: Color,
        line: &Line,
    ) -> Result<Proved, NoMemory>
        requires { IsMatingLine position.now winner line.now }
        ensures { IfOk result (λ row. row ≡ record { position = position.now; winner = winner; fact = Fact.Mate line.now }) }
    {
        let line = KeptLine::of(alloc, line)?;
        Ok(Proved {
            position: Kept::of(position),
            winner,
            fact: Fact::Mate(line),
        })
    }

    /// That no list of at most so many legal moves mates for a side. It takes no memory.
    pub fn none(position: &Position, winner: Color, depth: u8) -> Proved
        requires { HasNoMateWithin position.now winner depth }
        ensures { result ≡ record { position = position.now; winner = winner; fact = Fact.NoneWithin depth } }
    {
        Proved {
            position: Kept::of(position),
            winner,
            fact: Fact::NoneWithin(depth),
        }
    }

    /// The mate of the position before a legal move, from the mate of the position after it. None comes exactly where that
    /// line has 64 moves. Memory is taken for the longer line.
    pub fn step(
        alloc: Global,
        before: &Position,
        first: Move,
        rest: &Proved,
    ) -> Result<Option<Proved>, NoMemory>
        requires legal { Contains (legal before.now) first }
        requires leads { rest.now.position ≡ after before.now first }
        requires mates { IsTrue (is_mate rest.now.fact) }
        ensures full { IfOk result (λ row. IsNone row ↔ (length (line_of rest.now.fact) ≡ 64)) }
        ensures value { IfOk result (λ found. IfSome found (λ row. row ≡ record { position = before.now; winner = rest.now.winner; fact = Fact.Mate (first ∷ line_of rest.now.fact) })) }
    {
        match &rest.fact {
            Fact::Mate(line) => match Line::of(line.moves()).led_by(first) {
                Some(longer) => Ok(Some(Proved::mate(alloc, before, rest.winner, &longer)?)),
                None => Ok(None),
            },
            Fact::NoneWithin(_) => unreachable!(),
        }
    }

    /// The name under which it is found.
    pub fn key(&self) -> Key
        ensures { result ≡ key_of self.now.position self.now.winner }
    {
        Key {
            packed: self.position.packed(),
            winner: self.winner,
        }
    }

    /// The position.
    pub fn position(&self) -> Position
        ensures value { result ≡ self.now.position }
        ensures valid { IsValid result }
    {
        self.position.known();
        self.position.position()
    }

    /// Proves to the caller that its position is valid.
    pub fn known(&self)
        ensures { IsValid self.now.position }
    {
        self.position.known();
    }

    /// The side that may mate.
    pub fn winner(&self) -> Color
        ensures { result ≡ self.now.winner }
    {
        self.winner
    }

    /// What is known.
    pub fn fact(&self) -> &Fact
        ensures value { result.now ≡ self.now.fact }
        ensures holds { IsTrueOf self.now.position self.now.winner self.now.fact }
    {
        &self.fact
    }

    /// How much it says: see `Fact::rank`.
    pub fn rank(&self) -> u32
        ensures { result ≡ rank_of self.now.fact }
    {
        self.fact.rank()
    }

    /// A copy of the fact, with its position and side. Memory is taken for the line of a mate alone.
    pub fn copy(&self, alloc: Global) -> Result<Proved, NoMemory>
        ensures value { IfOk result (λ row. row ≡ self.now) }
        ensures refused { IsErr result → IsTrue (is_mate self.now.fact) }
    {
        match self.fact.copy(alloc) {
            Ok(fact) => Ok(Proved {
                position: self.position.copy(),
                winner: self.winner,
                fact,
            }),
            Err(refused) => Err(refused),
        }
    }
}
