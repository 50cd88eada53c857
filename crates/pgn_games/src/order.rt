//! The law of places: games stand in their text, one behind another.

ghost use Rattle.std.specs.Prelude.{ℕ, List, length};
ghost use Rattle.pgn_games.specs.Games.{placed_games};
ghost use Rattle.pgn_games.specs.Order.{AreInOrder};

/// Each game of a text ends behind its first byte and within the text, and the next one begins there or later.
pub fn placed_games_stand_in_order()
    ensures { (bytes : List ℕ) → AreInOrder 0 (length bytes) (placed_games bytes) }
{}
