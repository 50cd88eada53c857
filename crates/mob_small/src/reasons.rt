//! Why the men on the board alone show that a side cannot mate.

ghost use Rattle.std.specs.Prelude.{◌≡◌, ◌↔◌, IsTrue, MatchOption};
ghost use Rattle.cha_board.specs.declared.men.Color.{Color as Side};
ghost use Rattle.cha_board.specs.Board.{Board, IsValid};
ghost use Rattle.cha_moves.specs.Ends.{IsUnwinnable};
ghost use Rattle.mob_small.specs.declared.reasons.Reason.{Reason as MenReason};
ghost use Rattle.mob_small.specs.Reasons.{ReasonHolds, reason_word, reason_named, reason_name};

use crate::lone_men::lone_verdict;
use crate::verdict::small_verdict;
use cha_board::{Color, Position};

/// Why the men on the board alone show that a side cannot mate, whatever squares they stand on.
#[derive(Clone, Copy, Debug, PartialEq, Eq)]
pub enum Reason {
    /// Small material.
    Small,
    /// Lone minor pieces.
    Lone,
}

impl Reason {
    /// Whether it shows that a side cannot mate from a position. It takes no memory.
    pub fn holds(self, position: &Position, winner: Color) -> bool
        ensures { IsTrue result ↔ ReasonHolds position.now winner self }
    {
        match self {
            Reason::Small => small_verdict(position, winner),
            Reason::Lone => lone_verdict(position, winner),
        }
    }

    /// The first reason that shows that a side cannot mate from a position, in the order in which they stand here. It takes no
    /// memory.
    pub fn find(position: &Position, winner: Color) -> Option<Reason>
        ensures { MatchOption result ((reason : MenReason) → ReasonHolds position.now winner reason → ⊥) (λ reason. ReasonHolds position.now winner reason) }
    {
        if Reason::Small.holds(position, winner) {
            Some(Reason::Small)
        } else if Reason::Lone.holds(position, winner) {
            Some(Reason::Lone)
        } else {
            None
        }
    }

    /// Its word in a certificate.
    pub fn word(self) -> &'static [u8]
        ensures { result.now ≡ reason_word self }
    {
        match self {
            Reason::Small => b"small",
            Reason::Lone => b"lone",
        }
    }

    /// The reason that has a word in certificates.
    pub fn of_word(word: &[u8]) -> Option<Reason>
        ensures { result ≡ reason_named word.now }
    {
        if word == b"small".as_slice() {
            Some(Reason::Small)
        } else if word == b"lone".as_slice() {
            Some(Reason::Lone)
        } else {
            None
        }
    }

    /// Its name in a report.
    pub fn name(self) -> &'static [u8]
        ensures { result.now ≡ reason_name self }
    {
        match self {
            Reason::Small => b"material",
            Reason::Lone => b"lone pieces",
        }
    }
}

/// The law: where a reason shows that a side cannot mate from a valid position, no series of legal moves from it mates for that
/// side. Small material stays small, no legal move adds a man or changes the kind of one that is no pawn, a right to castle never
/// gives a move out of check, and a bishop keeps the colour of its squares.
pub fn reason_bound()
    ensures { (p : Board) (w : Side) (reason : MenReason) → IsValid p → ReasonHolds p w reason → IsUnwinnable p w }
{}
