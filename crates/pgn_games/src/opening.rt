//! The law of the opening position.

ghost use Rattle.std.specs.Prelude.{◌≡◌, codes};
ghost use Rattle.cha_fen.specs.Written.{fen_text};
ghost use Rattle.pgn_games.specs.Games.{opening};

/// The text in FEN of the position in which a game begins that tells no other (Laws of Chess, Article 2.3; PGN standard, 16.1).
pub fn games_begin_at_the_opening()
    ensures { fen_text opening ≡ codes "rnbqkbnr/pppppppp/8/8/8/8/PPPPPPPP/RNBQKBNR w KQkq -" }
{}
