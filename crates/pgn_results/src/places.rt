//! Where a game tells its result.

ghost use Rattle.std.specs.Prelude.{◌≡◌, List, ℕ, false, is_some};
ghost use Rattle.pgn_games.specs.declared.marks.ResultMark.{ResultMark};
ghost use Rattle.pgn_results.specs.Places.{with_places};
ghost use Rattle.pgn_results.specs.Replacing.{is_result_tag as is_result_tag_of, is_result_at, has_result, with_mark};

use pgn_games::{deeper, mark};
use pgn_lex::{Placed, Token};

/// Where a token stands: from its first byte to behind its last one.
#[derive(Clone, Copy, Debug, PartialEq, Eq)]
pub struct Extent {
    pub start: u64,
    pub end: u64,
}

/// Where a game tells its result. Places are counted in bytes, as those of its tokens.
#[derive(Clone, Copy, Debug, PartialEq, Eq)]
pub struct ResultPlaces {
    /// The first byte of its first tag pair `Result`.
    pub tag: Option<u64>,
    /// The result that ends it.
    pub token: Option<Extent>,
}

/// Whether a token is a tag pair `Result`. The name counts with its case.
#[tactic(auto, unfolding(pgn_games::specs::Fields::value_named))]
fn is_result_tag(token: &Token) -> bool
    ensures { result ≡ is_result_tag_of token.now }
{
    match token {
        Token::Tag { name, .. } => name.items() == b"Result".as_slice(),
        _ => false,
    }
}

/// Whether a token is a result outside variations.
fn ends_game(depth: usize, token: &Token) -> bool
    ensures { result ≡ is_result_at depth token.now }
{
    depth == 0 && mark(token).is_some()
}

/// Where the game of these tokens tells its result.
#[tactic(auto, unfolding(crate::specs::Replacing::with_mark, crate::specs::Replacing::has_result, pgn_games::specs::Fields::outside))]
pub fn result_places(tokens: &[Placed]) -> ResultPlaces
    ensures places { (mark : ResultMark) → (bytes : List ℕ) → with_mark false 0 mark tokens.now bytes ≡ with_places mark result bytes }
    ensures ends { is_some result.token ≡ has_result tokens.now }
{
    let mut tag = None;
    let mut depth = 0;
    let mut rest = tokens;
    while !rest.is_empty() {
        let placed = &rest[0];
        if ends_game(depth, &placed.token) {
            let token = Some(Extent {
                start: placed.offset,
                end: placed.end,
            });
            return ResultPlaces { tag, token };
        }
        if tag.is_none() && is_result_tag(&placed.token) {
            tag = Some(placed.offset);
        }
        depth = deeper(depth, &placed.token);
        rest = rest.split_at(1).1;
    }
    ResultPlaces { tag, token: None }
}
