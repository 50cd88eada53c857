//! The text of games (PGN standard, 8).

ghost use Rattle.std.specs.Prelude.{◌≡◌, ◌≤◌, ◌++◌, OnOk, IfOk};
ghost use Rattle.random_games.specs.Games.{made_game};
ghost use Rattle.random_games.specs.Made.{result_text, termination_text, tag_line, tags_text, game_text, made};

use crate::games::make_game;
use cha_board::Color;
use cha_list::{NoMemory, Text, text_of};
use cha_moves::{Standing, state};
use rand_core::SeedableRng;
use rand_pcg::Pcg32;
use std::alloc::Global;

/// The result of a game by how its last position stands, with this side to move.
fn result_of(side: Color, standing: Standing) -> &'static [u8]
    ensures { result.now ≡ result_text side standing }
{
    match standing {
        Standing::Mate(Color::White) => b"1-0",
        Standing::Mate(Color::Black) => b"0-1",
        Standing::Stalemate => b"1/2-1/2",
        Standing::Running => match side {
            Color::White => b"0-1",
            Color::Black => b"1-0",
        },
    }
}

/// How a game ended, by how its last position stands.
fn termination_of(standing: Standing) -> &'static [u8]
    ensures { result.now ≡ termination_text standing }
{
    match standing {
        Standing::Mate(_) => b"normal",
        Standing::Stalemate => b"normal",
        Standing::Running => b"time forfeit",
    }
}

/// Appends a tag pair as a line.
#[tactic(auto, unfolding(crate::specs::Made::tag_line))]
fn put_tag(name: &[u8], value: &[u8], text: &mut Text) -> Result<(), NoMemory>
    ensures { OnOk result (text.new ≡ text.old ++ tag_line name.now value.now) }
{
    text.append(b"[")?;
    text.append(name)?;
    text.append(b" \"")?;
    text.append(value)?;
    text.append(b"\"]\n")?;
    Ok(())
}

/// Appends the tag pairs of a game with this number.
#[tactic(auto, unfolding(crate::specs::Made::tags_text))]
fn put_tags(
    alloc: Global,
    number: u32,
    outcome: &[u8],
    termination: &[u8],
    text: &mut Text,
) -> Result<(), NoMemory>
    ensures { OnOk result (text.new ≡ text.old ++ tags_text number outcome.now termination.now) }
{
    let mut event = text_of(alloc, b"gen ")?;
    event.append_decimal(alloc, u64::from(number))?;
    put_tag(b"Event", event.items(), text)?;
    put_tag(b"Result", outcome, text)?;
    put_tag(b"Termination", termination, text)?;
    Ok(())
}

/// Makes a game and appends its text, under its number.
#[tactic(auto, unfolding(crate::specs::Made::game_text))]
fn put_game(
    alloc: Global,
    number: u32,
    generator: &mut Pcg32,
    text: &mut Text,
) -> Result<(), NoMemory>
    ensures text { OnOk result (text.new ≡ text.old ++ game_text number (made_game generator.old)) }
    ensures generator { OnOk result (generator.new ≡ (made_game generator.old).generator) }
{
    let played = make_game(alloc, generator)?;
    let standing = state(&played.last);
    let outcome = result_of(played.last.side(), standing);
    put_tags(alloc, number, outcome, termination_of(standing), text)?;
    text.append(b"\n")?;
    text.append(played.words.items())?;
    text.append(outcome)?;
    text.append(b"\n\n")?;
    Ok(())
}

/// The text of so many games in PGN whose moves are drawn by one `Pcg32` of a seed, from 1 to 1,000 games: the same seed and count
/// give the same text, byte for byte. The only error is want of memory.
///
/// Each game begins in the opening position. At each ply the generator gives one word w of 32 bits, and of the n legal moves,
/// by the square that they leave, then the one that they enter, then by queen, rook, bishop and knight, the one with the
/// number w mod n, from 0, is played. A game ends at mate, at stalemate or after 100 plies; where it would go on then, the side
/// to move has lost on time.
///
/// ```text
/// [Event "gen 1"]
/// [Result "0-1"]
/// [Termination "time forfeit"]
///
/// e2e4 Ng8f6 .. 0-1
///
/// ```
pub fn games_text(alloc: Global, seed: u64, count: u32) -> Result<Text, NoMemory>
    requires some { 1 ≤ count }
    requires few { count ≤ 1000 }
    ensures { IfOk result (λ text. text ≡ made seed count) }
{
    let mut text = Text::new(alloc);
    let mut generator = Pcg32::seed_from_u64(seed);
    for i in 0..count {
        put_game(alloc, i + 1, &mut generator, &mut text)?;
    }
    Ok(text)
}
