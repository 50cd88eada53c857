//! Why a text is no position.

ghost use Rattle.std.specs.Prelude.{◌≡◌};
ghost use Rattle.cha_fen.specs.Fen.{fault_of};

use cha_board::BuildFault;

/// Why a text is refused. The first that applies, in this order, is the fault.
#[derive(Clone, Copy, Debug, PartialEq, Eq)]
pub enum FenFault {
    /// The text is not of the form of FEN: `hello`, or a row of nine squares.
    Shape,
    /// A side has not exactly one king.
    Kings,
    /// A pawn stands on the first or the last rank.
    PawnRank,
    /// The king of the side that is not to move is attacked.
    OpponentInCheck,
}

/// The fault of a text whose men and side to move are no valid position.
pub fn of_build(fault: BuildFault) -> FenFault
    ensures { result ≡ fault_of fault }
{
    match fault {
        BuildFault::Kings => FenFault::Kings,
        BuildFault::PawnRank => FenFault::PawnRank,
        BuildFault::OpponentInCheck => FenFault::OpponentInCheck,
    }
}
