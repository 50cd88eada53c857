//! One game whose moves are drawn.

ghost use Rattle.std.specs.Prelude.{◌≡◌, ◌<◌, ◌%◌, ◌++◌, ◌∷◌, [], Some, length, OnOk, IfOk, IfSome, MatchOption, Contains};
ghost use Rattle.rand_pcg.specs.Pcg.{pcg32};
ghost use Rattle.cha_moves.specs.Moves.{legal as legal_moves};
ghost use Rattle.random_games.specs.Words.{move_word};
ghost use Rattle.random_games.specs.Games.{drawn, made_game};
ghost use Rattle.random_games.specs.Made.{words_text};

use crate::words::put_word;
use cha_board::Position;
use cha_list::{NoMemory, Text};
use cha_moves::{Move, after, legal};
use rand_core::utils::NextWord;
use rand_pcg::Pcg32;
use std::alloc::Global;

/// The most plies of a game.
const MOST_PLIES: u32 = 100;

/// A game that was made.
#[derive(Drop)]
pub struct Played {
    /// Its words, with a space behind each.
    pub words: Text,
    /// Its last position.
    pub last: Position,
}

/// The move with the number w mod n of n moves, where w is the next word of a generator.
fn choose(moves: &[Move], generator: &mut Pcg32) -> Move
    requires { 0 < length moves.now }
    ensures chosen { Some result ≡ drawn generator.old moves.now }
    ensures generator { generator.new ≡ (pcg32 generator.old).1 }
{
    let word = generator.next_word();
    moves[word as usize % moves.len()]
}

/// The legal move that the next word of a generator chooses, or None where there is no legal move: then no word is taken.
fn draw(alloc: Global, position: &Position, generator: &mut Pcg32) -> Result<Option<Move>, NoMemory>
    ensures chosen { IfOk result (λ found. found ≡ drawn generator.old (legal_moves position.now)) }
    ensures generator { IfOk result (λ found. MatchOption found (generator.new ≡ generator.old) (λ m. generator.new ≡ (pcg32 generator.old).1)) }
    ensures is_legal { IfOk result (λ found. IfSome found (λ m. Contains (legal_moves position.now) m)) }
{
    let moves = legal(alloc, position)?;
    if moves.is_empty() {
        return Ok(None);
    }
    Ok(Some(choose(&moves, generator)))
}

/// Appends a move as a word, and a space.
fn put_spaced(position: &Position, m: Move, text: &mut Text) -> Result<(), NoMemory>
    ensures { OnOk result (text.new ≡ text.old ++ (move_word position.now m ++ 32 ∷ [])) }
{
    put_word(position, m, text)?;
    text.append(b" ")?;
    Ok(())
}

/// Makes a game from the opening position on: it ends at mate, at stalemate or after 100 plies.
pub fn make_game(alloc: Global, generator: &mut Pcg32) -> Result<Played, NoMemory>
    ensures words { IfOk result (λ played. played.words ≡ words_text (made_game generator.old).words) }
    ensures last { IfOk result (λ played. played.last ≡ (made_game generator.old).last) }
    ensures generator { OnOk result (generator.new ≡ (made_game generator.old).generator) }
{
    let mut words = Text::new(alloc);
    let mut last = Position::start();
    for _ply in 0..MOST_PLIES {
        match draw(alloc, &last, generator)? {
            None => return Ok(Played { words, last }),
            Some(m) => {
                put_spaced(&last, m, &mut words)?;
                last = after(&last, m);
            }
        }
    }
    Ok(Played { words, last })
}
