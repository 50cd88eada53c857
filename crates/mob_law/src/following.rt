//! Rules of closed sets that follow from the others: those of castling, and of the double step. They stay in the definition,
//! where a reader looks for them.

ghost use Rattle.cha_board.specs.Board.{Board, IsValid};
ghost use Rattle.mob_sets.specs.Mobility.{Sets};
ghost use Rattle.mob_law.specs.Closed.{PawnsStep, PawnsDoubleStep, IsClosed};
ghost use Rattle.mob_law.specs.Castling.{IsClosedButForCastling};

/// For a valid position the rules of castling follow from the others. Where no square between king and rook is fixed, the
/// rook may come to each of them; so a pawn that guards one of them captures there, a piece that guards one goes there,
/// and neither stands there for ever. The enemy's king does not, since it may step onto a square that no man guards.
pub fn castling_follows()
    ensures { (p : Board) (s : Sets) → IsValid p → IsClosedButForCastling p s → IsClosed p s }
{}

/// The rule of the double step follows from that of the single step: a pawn that may step twice is in reach on the square
/// between, and steps on from there.
pub fn double_step_follows()
    ensures { (p : Board) (s : Sets) → PawnsStep p s → PawnsDoubleStep p s }
{}
