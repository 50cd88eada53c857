//! The law of closed texts: what stands behind one is read as if it stood alone.

ghost use Rattle.std.specs.Prelude.{◌≡◌, ◌⊎◌, ◌++◌, [], ℕ, true, false, List, map, length};
ghost use Rattle.pgn_lex.specs.Lines.{line_feeds};
ghost use Rattle.pgn_lex.specs.Tokens.{has_mark};
ghost use Rattle.pgn_games.specs.Games.{placed_games, is_closed};
ghost use Rattle.pgn_games.specs.Moving.{moved};

/// The games of a closed text and a text behind it are the games of both, where those of the second stand so many bytes and
/// lines further on as the first has. Both together are closed where the second is. The second may begin with EF BB BF
/// only where the first is empty.
pub fn closed_texts_join()
    ensures games { (a b : List ℕ) → is_closed a ≡ true → (a ≡ []) ⊎ (has_mark b ≡ false)
        → placed_games (a ++ b) ≡ placed_games a ++ map (moved (length a) (line_feeds a)) (placed_games b) }
    ensures closed { (a b : List ℕ) → is_closed a ≡ true → (a ≡ []) ⊎ (has_mark b ≡ false) → is_closed b ≡ true → is_closed (a ++ b) ≡ true }
{}
