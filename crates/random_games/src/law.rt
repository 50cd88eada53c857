//! The law of games that are made: they are read again as they were made.

ghost use Rattle.std.specs.Prelude.{◌≡◌, ◌≤◌, ◌⊎◌, ℕ, [], Ok, All, length, map};
ghost use Rattle.cha_moves.specs.Moves.{legal};
ghost use Rattle.cha_san.specs.Playing.{positions};
ghost use Rattle.pgn_games.specs.Games.{opening, games};
ghost use Rattle.random_games.specs.Games.{MadeGame, seeded, made_games};
ghost use Rattle.random_games.specs.Made.{made};
ghost use Rattle.random_games.specs.AsRead.{as_read};

/// The law: of each seed and each count from 1 to 1,000, the games of the text that is made are so many, and they are the games
/// that were made: each begins in the opening position, none has a fault, and each has the words, the result and the loss on
/// time that it was made with. Its words are played to exactly the positions that were made, and it ends where there is no
/// legal move or after 100 plies.
pub fn made_games_are_read()
    ensures games { (seed count : ℕ) → 1 ≤ count → count ≤ 1000 → games (made seed count) ≡ map as_read (made_games count (seeded seed)) }
    ensures count { (seed count : ℕ) → length (made_games count (seeded seed)) ≡ count }
    ensures positions { (seed count : ℕ) → All (λ (game : MadeGame). positions opening game.words ≡ Ok game.positions) (made_games count (seeded seed)) }
    ensures ends { (seed count : ℕ) → All (λ (game : MadeGame). (legal game.last ≡ []) ⊎ (length game.words ≡ 100)) (made_games count (seeded seed)) }
{}
