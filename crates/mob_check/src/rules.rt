//! The law that the rules on a ground are those of closed sets.

ghost use Rattle.std.specs.Prelude.{◌↔◌};
ghost use Rattle.cha_board.specs.Board.{Board, IsValid};
ghost use Rattle.mob_sets.specs.Mobility.{Sets, IsWithin};
ghost use Rattle.mob_law.specs.Closed.{IsClosed};
ghost use Rattle.mob_check.specs.Grounds.{ground_of};
ghost use Rattle.mob_check.specs.Rules.{AllRules};

/// The law: for a valid position sets are closed where they keep the rules on the ground that they make, and closed sets
/// keep the rules also on the ground of sets within them. Castlings and double steps follow.
pub fn rules_on_the_ground()
    ensures closed { (p : Board) (s : Sets) → IsValid p → (AllRules p (ground_of p s) s ↔ IsClosed p s) }
    ensures within { (p : Board) (s r : Sets) → IsWithin s r → IsClosed p r → AllRules p (ground_of p s) r }
{}
