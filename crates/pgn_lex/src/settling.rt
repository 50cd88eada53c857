//! The law of settled tokens: they are known before the rest of their text.

ghost use Rattle.std.specs.Prelude.{◌≡◌, ◌++◌, ℕ, List};
ghost use Rattle.pgn_lex.specs.declared.kinds.Placed.{Placed};
ghost use Rattle.pgn_lex.specs.Tokens.{tokens, settled_tokens};

/// The tokens that are settled in a text are the first tokens of that text followed by any bytes.
pub fn settled_tokens_are_the_first()
    ensures { (bytes rest : List ℕ) → (later : List Placed) × (tokens (bytes ++ rest) ≡ settled_tokens bytes ++ later) }
{}
