//! The law of places: tokens stand in their text, one behind another.

ghost use Rattle.std.specs.Prelude.{◌<◌, ℕ, List, length, All, AllPairs};
ghost use Rattle.pgn_lex.specs.declared.kinds.Placed.{Placed};
ghost use Rattle.pgn_lex.specs.Tokens.{tokens};

/// The place of each token is a place of the text, and is behind the places of the tokens before it.
pub fn tokens_stand_in_order()
    ensures inside { (bytes : List ℕ) → All (λ (t : Placed). t.offset < length bytes) (tokens bytes) }
    ensures order { (bytes : List ℕ) → AllPairs (λ (t u : Placed). t.offset < u.offset) (tokens bytes) }
{}
