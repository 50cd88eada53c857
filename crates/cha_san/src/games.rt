//! The law of the positions of a game.

ghost use Rattle.std.specs.Prelude.{◌≡◌, ℕ, List, Some, slice_get, IfOk};
ghost use Rattle.std.specs.List.{All};
ghost use Rattle.cha_board.specs.Board.{Board, IsValid};
ghost use Rattle.cha_moves.specs.Dead.{ArePlayed};
ghost use Rattle.cha_san.specs.Playing.{positions};

/// The law: the positions of a game begin with its start, and each later one comes from the one before it by a legal move. Where the
/// start is valid, all are.
pub fn games_are_played()
    ensures start { (start : Board) (words : List (List ℕ)) → IfOk (positions start words) (λ played. slice_get played 0 ≡ Some start) }
    ensures played { (start : Board) (words : List (List ℕ)) → IfOk (positions start words) ArePlayed }
    ensures valid { (start : Board) (words : List (List ℕ)) → IsValid start → IfOk (positions start words) (All IsValid) }
{}
