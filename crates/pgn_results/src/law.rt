//! The laws of corrected texts: their games are the same, but for their results, and each may be written from its own bytes.

ghost use Rattle.std.specs.Prelude.{◌≡◌, ◌≤◌, ◌++◌, ◌∷◌, [], ℕ, true, false, Option, List, map, length, take, drop, slice_get, All, codes};
ghost use Rattle.std.specs.declared.option.Option.TheVariants.{Some};
ghost use Rattle.pgn_lex.specs.declared.kinds.Placed.{Placed};
ghost use Rattle.pgn_lex.specs.Tokens.{tokens};
ghost use Rattle.pgn_games.specs.declared.marks.ResultMark.{ResultMark};
ghost use Rattle.pgn_games.specs.declared.played.PlacedGame.{PlacedGame};
ghost use Rattle.pgn_games.specs.declared.token_turns.Place.TheVariants.{Before};
ghost use Rattle.pgn_games.specs.Cutting.{cut};
ghost use Rattle.pgn_games.specs.Fields.{tag_value};
ghost use Rattle.pgn_games.specs.Games.{opening, game_of, games, placed_games};
ghost use Rattle.pgn_games.specs.Settling.{settled_games};
ghost use Rattle.pgn_results.specs.Correcting.{corrected, written, piece_of, written_games, end_of};
ghost use Rattle.pgn_results.specs.Kept.{told, told_games, told_tags, begins_with_result, OnlyReadable, OnlyBegun};

/// A text whose readable games got other results has as many games, and each says what it said, but for the places of faults, and with the
/// result that it got where one ended it. The first tag pair `Result` of such a game has the same value.
pub fn corrected_games_stay_the_same()
    ensures games { (bytes : List ℕ) → (marks : List (Option ResultMark)) → OnlyReadable (cut Before (tokens bytes)) marks
        → map told (games (corrected bytes marks)) ≡ told_games (cut Before (tokens bytes)) marks }
    ensures tags { (bytes : List ℕ) → (marks : List (Option ResultMark)) → map (tag_value (codes "Result")) (cut Before (tokens (corrected bytes marks))) ≡ told_tags (cut Before (tokens bytes)) marks }
{}

/// Where each game that gets a result has a token before the one that ends it, the corrected text is what stands between these games,
/// and each of them written from its own bytes alone, with the byte behind it in the old text known.
pub fn games_are_corrected_one_by_one()
    ensures { (bytes : List ℕ) → (marks : List (Option ResultMark)) → OnlyReadable (cut Before (tokens bytes)) marks → OnlyBegun (cut Before (tokens bytes)) marks
        → corrected bytes marks ≡ written 0 bytes (placed_games bytes) marks }
{}

/// What is written of the first games of a text is the front of what is written of all of it, with the bytes behind the last of them
/// as they are where nothing else changes. Where these games are settled, more bytes change nothing of it. With one game more,
/// it is followed by what is written of that game from the end of the one before.
pub fn written_games_are_a_front()
    ensures front { (bytes : List ℕ) → (marks : List (Option ResultMark))
        → written 0 bytes (placed_games bytes) marks ≡ written_games 0 bytes (placed_games bytes) marks ++ drop (end_of 0 (take (length marks) (placed_games bytes))) bytes }
    ensures settled { (bytes rest : List ℕ) → (marks : List (Option ResultMark)) → length marks ≤ settled_games bytes
        → written_games 0 (bytes ++ rest) (placed_games (bytes ++ rest)) marks ≡ written_games 0 bytes (placed_games bytes) marks }
    ensures more { (bytes : List ℕ) → (marks : List (Option ResultMark)) → (mark : Option ResultMark) → (game : PlacedGame) → slice_get (placed_games bytes) (length marks) ≡ Some game
        → written_games 0 bytes (placed_games bytes) (marks ++ mark ∷ []) ≡ written_games 0 bytes (placed_games bytes) marks ++ piece_of (end_of 0 (take (length marks) (placed_games bytes))) bytes mark game }
{}

/// A game of a text that has no token before its result has no move, starts from the opening position, and says of no flag that it fell.
pub fn a_result_alone_has_no_move()
    ensures { (ts : List Placed) → All (λ (game : List Placed). begins_with_result game ≡ true → ((game_of game).words ≡ []) × ((game_of game).start ≡ opening) × ((game_of game).forfeit ≡ false) × ((game_of game).flag_fell ≡ false)) (cut Before ts) }
{}
