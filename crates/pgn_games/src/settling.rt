//! The laws of settled games: they are known before the rest of their text, and end before it does.

ghost use Rattle.std.specs.Prelude.{◌≡◌, ◌<◌, ◌≤◌, ◌++◌, ℕ, List, length, take, slice_get};
ghost use Rattle.std.specs.declared.option.Option.TheVariants.{Some};
ghost use Rattle.pgn_games.specs.declared.played.PlacedGame.{PlacedGame};
ghost use Rattle.pgn_games.specs.Games.{placed_games};
ghost use Rattle.pgn_games.specs.Settling.{settled_games};

use pgn_lex::settled_tokens_are_the_first;

/// The games that are settled in a text are the first games of that text followed by any bytes.
pub fn settled_games_are_the_first()
    ensures there { (bytes rest : List ℕ) → settled_games bytes ≤ length (placed_games (bytes ++ rest)) }
    ensures same { (bytes rest : List ℕ) → take (settled_games bytes) (placed_games (bytes ++ rest)) ≡ take (settled_games bytes) (placed_games bytes) }
{
    settled_tokens_are_the_first();
}

/// A game that is settled in a text ends before the text does: a byte stands behind it. More bytes settle no fewer games.
pub fn a_settled_game_has_a_byte_behind()
    ensures behind { (bytes : List ℕ) → (n : ℕ) → (game : PlacedGame) → n < settled_games bytes → slice_get (placed_games bytes) n ≡ Some game → game.span.end < length bytes }
    ensures more { (bytes rest : List ℕ) → settled_games bytes ≤ settled_games (bytes ++ rest) }
{}
