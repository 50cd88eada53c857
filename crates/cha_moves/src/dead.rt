//! What stays so once a side cannot mate.

ghost use Rattle.std.specs.Prelude.{◌≡◌, ℕ, ◌≤◌, List, Some, slice_get, Contains};
ghost use Rattle.cha_board.specs.declared.men.Color.{Color as Side};
ghost use Rattle.cha_board.specs.Board.{Board};
ghost use Rattle.cha_moves.specs.Step.{Move as Step};
ghost use Rattle.cha_moves.specs.Moves.{after, legal};
ghost use Rattle.cha_moves.specs.Ends.{IsUnwinnable};
ghost use Rattle.cha_moves.specs.Dead.{IsDead, ArePlayed};

/// The law: what is unwinnable for a side stays so after each legal move. So each position of a game that comes after one in
/// which a side cannot mate is such a position too, and each that comes after a dead one is dead (Laws of Chess, Article
/// 5.2.2).
pub fn unwinnable_stays()
    ensures next { (q : Board) (winner : Side) (m : Step) → IsUnwinnable q winner → Contains (legal q) m → IsUnwinnable (after q m) winner }
    ensures game { (qs : List Board) (i j : ℕ) (p q : Board) (winner : Side) → ArePlayed qs → i ≤ j → slice_get qs i ≡ Some p → slice_get qs j ≡ Some q → IsUnwinnable p winner → IsUnwinnable q winner }
    ensures dead { (qs : List Board) (i j : ℕ) (p q : Board) → ArePlayed qs → i ≤ j → slice_get qs i ≡ Some p → slice_get qs j ≡ Some q → IsDead p → IsDead q }
{}
