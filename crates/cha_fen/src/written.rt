//! The text of a position.

ghost use Rattle.std.specs.Prelude.{◌≡◌, ◌≤◌, ◌++◌, Ok, length, IfOk, OnOk};
ghost use Rattle.cha_board.specs.Board.{Board, IsValid};
ghost use Rattle.cha_fen.specs.Fen.{fen};
ghost use Rattle.cha_fen.specs.Written.{run_text, row_text_after, ranks_text, side_text, letter_if, rights_text, target_text, fen_text};

use cha_board::{Color, Man, Position, Rights, Square, put_square};
use cha_list::{NoMemory, Text};
use std::alloc::Global;

/// The most bytes of a text: 64 men, seven slashes, and what stands behind them.
const MOST_BYTES: usize = 81;

/// Writes the digit of a run of empty squares.
fn put_run(count: u8, text: &mut Text) -> Result<(), NoMemory>
    requires { count ≤ 8 }
    ensures { OnOk result (text.new ≡ text.old ++ run_text count) }
{
    if count != 0 {
        text.push(count + b'0')?;
    }
    Ok(())
}

/// Writes a row.
#[tactic(auto, unfolding(crate::specs::Written::row_text_after))]
fn put_row(men: &[Option<Man>], text: &mut Text) -> Result<(), NoMemory>
    requires { length men.now ≤ 8 }
    ensures { OnOk result (text.new ≡ text.old ++ row_text_after 0 men.now) }
{
    let mut empty = 0u8;
    for man in men {
        match man {
            None => empty += 1,
            Some(man) => {
                put_run(empty, text)?;
                text.push(man.letter())?;
                empty = 0;
            }
        }
    }
    put_run(empty, text)
}

/// Writes the ranks, the highest first.
fn put_ranks(men: &[Option<Man>; 64], text: &mut Text) -> Result<(), NoMemory>
    ensures { OnOk result (text.new ≡ text.old ++ ranks_text 8 men.now) }
{
    let mut rank = 8;
    while rank > 0 {
        rank -= 1;
        put_row(&men[8 * rank..8 * rank + 8], text)?;
        if rank > 0 {
            text.push(b'/')?;
        }
    }
    Ok(())
}

/// Writes the side to move.
fn put_side(side: Color, text: &mut Text) -> Result<(), NoMemory>
    ensures { OnOk result (text.new ≡ text.old ++ side_text side) }
{
    match side {
        Color::White => text.push(b'w')?,
        Color::Black => text.push(b'b')?,
    }
    Ok(())
}

/// Writes a letter where it is wanted.
fn put_if(wanted: bool, letter: u8, text: &mut Text) -> Result<(), NoMemory>
    ensures { OnOk result (text.new ≡ text.old ++ letter_if wanted letter) }
{
    if wanted {
        text.push(letter)?;
    }
    Ok(())
}

/// Writes the rights.
#[tactic(auto, unfolding(crate::specs::Written::rights_text))]
fn put_rights(rights: Rights, text: &mut Text) -> Result<(), NoMemory>
    ensures { OnOk result (text.new ≡ text.old ++ rights_text rights) }
{
    if !(rights.white_king || rights.white_queen || rights.black_king || rights.black_queen) {
        text.push(b'-')?;
        return Ok(());
    }
    put_if(rights.white_king, b'K', text)?;
    put_if(rights.white_queen, b'Q', text)?;
    put_if(rights.black_king, b'k', text)?;
    put_if(rights.black_queen, b'q', text)
}

/// Writes the target.
#[tactic(auto, unfolding(crate::specs::Written::target_text))]
fn put_target(target: Option<Square>, text: &mut Text) -> Result<(), NoMemory>
    ensures { OnOk result (text.new ≡ text.old ++ target_text target) }
{
    match target {
        None => text.push(b'-')?,
        Some(at) => put_square(at, text)?,
    }
    Ok(())
}

/// Writes the four fields of a position, with a space between them.
#[tactic(auto, unfolding(crate::specs::Written::fen_text))]
fn put_position(position: &Position, text: &mut Text) -> Result<(), NoMemory>
    ensures text { OnOk result (text.new ≡ text.old ++ fen_text position.now) }
    ensures valid { IsValid position.now }
{
    put_ranks(&position.placement().list(), text)?;
    text.push(b' ')?;
    put_side(position.side(), text)?;
    text.push(b' ')?;
    put_rights(position.rights(), text)?;
    text.push(b' ')?;
    put_target(position.target(), text)
}

/// The text of a position in FEN, of four fields with a space between them (PGN standard, 16.1; that the clocks are left
/// out: this project). It is read as the same position.
///
/// A pawn on e2 between two kings on e1 and e8, with White to move, is `4k3/8/8/8/8/8/4P3/4K3 w - -`.
#[tactic(auto, using(crate::proofs::WrittenRead::read_again))]
pub fn write(alloc: Global, position: &Position) -> Result<Text, NoMemory>
    ensures text { IfOk result (λ text. text ≡ fen_text position.now) }
    ensures read_again { IfOk result (λ text. fen text ≡ Ok position.now) }
{
    let Ok(room) = Vec::with_capacity(alloc, MOST_BYTES) else {
        return Err(NoMemory);
    };
    let mut text = Text::from_vec(room);
    put_position(position, &mut text)?;
    Ok(text)
}

/// The law of the two: what is written of a valid position is read as that position.
pub fn written_is_read()
    ensures { (q : Board) → IsValid q → fen (fen_text q) ≡ Ok q }
{}
