//! The positions of a game.

ghost use Rattle.std.specs.Prelude.{◌≡◌, ◌+◌, ◌≤◌, ◌⊎◌, ◌++◌, [], ◌∷◌, Ok, Err, None, Some, slice_get, length, IfOk, IfErr, OnOk};
ghost use Rattle.cha_san.specs.declared.faults.SanFault.TheVariants.{NoMemory};
ghost use Rattle.cha_san.specs.Resolving.{resolved};
ghost use Rattle.cha_san.specs.Playing.{LacksMemory, FollowsBy, positions};

use crate::faults::{PlayFault, SanFault};
use crate::resolving::resolve;
use cha_board::Position;
use cha_moves::{Positions, after};
use pgn_games::Game;
use pgn_lex::Spelling;
use std::alloc::Global;

/// The position after the move of a word, which has this number in its game.
fn next_position(position: &Position, word: &[u8], ply: u32) -> Result<Position, PlayFault>
    ensures ok { IfOk result (λ next. FollowsBy position.now word.now next) }
    ensures err { IfErr result (λ fault. (resolved position.now word.now ≡ Err fault.fault) × (fault.ply ≡ ply)) }
{
    match resolve(position, word) {
        Ok(m) => Ok(after(position, m)),
        Err(fault) => Err(PlayFault { ply, fault }),
    }
}

/// Appends a position.
fn append(positions: &mut Positions, position: &Position) -> Result<(), PlayFault>
    ensures ok { OnOk result (positions.new ≡ positions.old ++ position.now ∷ []) }
    ensures err { IfErr result (λ fault. fault.fault ≡ NoMemory) }
{
    match positions.push(*position) {
        Ok(()) => Ok(()),
        Err(_) => Err(PlayFault {
            ply: 0,
            fault: SanFault::NoMemory,
        }),
    }
}

/// No positions, with room for so many, unless memory is refused. Where several threads judge, a list that grows often waits for them at
/// the heap.
fn no_positions(alloc: Global, most: usize) -> Positions
    ensures { result ≡ [] }
{
    match Vec::with_capacity(alloc, most) {
        Ok(room) => Positions::from_vec(room),
        Err(_) => Positions::new(alloc),
    }
}

/// A position and the one after each word, or the first word that names no move.
fn replayed(alloc: Global, start: &Position, words: &[Spelling]) -> Result<Positions, PlayFault>
    requires { length words.now ≤ 12000 }
    ensures { LacksMemory result ⊎ (result ≡ positions start.now words.now) }
{
    let mut done = no_positions(alloc, words.len() + 1);
    let mut position = *start;
    let mut ply = 0;
    for word in words {
        ply += 1;
        let next = match next_position(&position, word.items(), ply) {
            Ok(next) => next,
            Err(fault) => return Err(fault),
        };
        append(&mut done, &position)?;
        position = next;
    }
    append(&mut done, &position)?;
    Ok(done)
}

/// The positions of a game: its start, and the one after each word, so that they are one more than the words. The fault is that
/// of the first word that names no move, with its number from 1; `NoMemory` is want of memory, and then the number says
/// nothing.
///
/// The game has to be readable, and to have at most 12,000 words. The time that this takes grows as their number.
pub fn play(alloc: Global, game: &Game) -> Result<Positions, PlayFault>
    requires readable { game.now.fault ≡ None }
    requires few { length game.now.words ≤ 12000 }
    ensures value { LacksMemory result ⊎ (result ≡ positions game.now.start game.now.words) }
    ensures count { IfOk result (λ played. length played ≡ length game.now.words + 1) }
    ensures start { IfOk result (λ played. slice_get played 0 ≡ Some game.now.start) }
    ensures number { IfErr result (λ fault. (fault.fault ≡ NoMemory) ⊎ ((1 ≤ fault.ply) × (fault.ply ≤ length game.now.words))) }
{
    replayed(alloc, &game.start, game.words.items())
}
