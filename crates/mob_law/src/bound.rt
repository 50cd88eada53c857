//! The law of mobility sets.

ghost use Rattle.std.specs.Prelude.{◌≡◌, ℕ, false};
ghost use Rattle.cha_board.specs.declared.men.Color.{Color as Side};
ghost use Rattle.cha_board.specs.Men.{is_non_king};
ghost use Rattle.cha_board.specs.Board.{Board, man_at, IsValid};
ghost use Rattle.cha_moves.specs.Ends.{IsUnwinnable};
ghost use Rattle.cha_moves.specs.Lines.{HasPositions};
ghost use Rattle.mob_sets.specs.Mobility.{Sets};
ghost use Rattle.mob_law.specs.Closed.{IsClosed};
ghost use Rattle.mob_law.specs.Threats.{HasNoMate};
ghost use Rattle.mob_law.specs.Static.{IsStaticallyUnwinnable};
ghost use Rattle.mob_law.specs.Explored.{IsExplored};

/// The law: where some sets are closed for a valid position and have no mate for a side, no series of legal moves from
/// that position mates for that side.
pub fn closed_sets_bound()
    ensures law { (p : Board) (s : Sets) (w : Side) → IsValid p → IsClosed p s → HasNoMate p s w → IsUnwinnable p w }
    ensures static_law { (p : Board) (w : Side) → IsValid p → IsStaticallyUnwinnable p w → IsUnwinnable p w }
{}

/// What the law is about is there: some sets are closed for every position, as those in which each man reaches every square
/// as everything, and a side that has only its king is statically unwinnable. So a bare king never mates.
pub fn closed_sets_exist()
    ensures closed { (p : Board) → (s : Sets) × IsClosed p s }
    ensures bare_king { (p : Board) (w : Side) → ((u : ℕ) → is_non_king w (man_at p.men u) ≡ false) → IsStaticallyUnwinnable p w }
    ensures bare_king_never_mates { (p : Board) (w : Side) → IsValid p → ((u : ℕ) → is_non_king w (man_at p.men u) ≡ false) → IsUnwinnable p w }
{}

/// The law: where so many positions were expanded in an exploration, as many distinct ones can be reached by legal moves.
pub fn explored_are_reached()
    ensures { (q : Board) (w : Side) (count : ℕ) → IsExplored q w count → HasPositions q count }
{}
