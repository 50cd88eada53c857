//! The moves that words name.

ghost use Rattle.std.specs.Prelude.{◌≡◌, IfOk, IfSome, Contains};
ghost use Rattle.cha_moves.specs.Moves.{legal};
ghost use Rattle.cha_san.specs.Resolving.{resolved};
ghost use Rattle.cha_san.specs.Playing.{named_move, moves_named};

use crate::resolving::resolve;
use cha_board::Position;
use cha_list::NoMemory;
use cha_moves::{Move, Moves, after};
use pgn_lex::Spelling;
use std::alloc::Global;

/// The move that a word names, or None for a word that names none.
fn move_of(position: &Position, word: &[u8]) -> Option<Move>
    ensures named { result ≡ named_move (resolved position.now word.now) }
    ensures legal { IfSome result (λ m. Contains (legal position.now) m) }
{
    match resolve(position, word) {
        Ok(m) => Some(m),
        Err(_) => None,
    }
}

/// The moves that words name one after the other from a position, up to the first word that names none. The only error is want of memory.
///
/// From the opening position `e4 e5 Ke3 Nf6` names the moves from e2 to e4 and from e7 to e5.
pub fn moves_of(alloc: Global, start: &Position, words: &[Spelling]) -> Result<Moves, NoMemory>
    ensures { IfOk result (λ moves. moves ≡ moves_named start.now words.now) }
{
    let mut moves = Moves::new(alloc);
    let mut position = *start;
    for word in words {
        match move_of(&position, word.items()) {
            Some(m) => {
                moves.push(m)?;
                position = after(&position, m);
            }
            None => return Ok(moves),
        }
    }
    Ok(moves)
}
