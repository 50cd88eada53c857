//! The law of the games of a text: nothing is lost, and nothing is given twice.

ghost use Rattle.std.specs.Prelude.{◌≡◌, ◌<◌, List, length, flat_map, All};
ghost use Rattle.pgn_lex.specs.declared.kinds.Placed.{Placed};
ghost use Rattle.pgn_games.specs.declared.token_turns.Place.TheVariants.{Before};
ghost use Rattle.pgn_games.specs.Cutting.{cut};

/// Each token of a text belongs to exactly one game: the tokens of the games, game behind game, are the tokens of the text,
/// and no game is without a token.
pub fn each_token_is_in_one_game()
    ensures none_lost { (ts : List Placed) → flat_map (λ (game : List Placed). game) (cut Before ts) ≡ ts }
    ensures none_empty { (ts : List Placed) → All (λ (game : List Placed). 0 < length game) (cut Before ts) }
{}
