//! A question, which is a position and a depth, and its answer.

use crate::counting::{CountFault, count_lines};
use crate::counting_made::count_made;
use cha_board::Position;
use cha_fen::{FenFault, read};
use std::alloc::Global;

/// How lines are counted.
#[derive(Clone, Copy, Debug, PartialEq, Eq)]
pub enum Manner {
    /// The last moves are counted and not made.
    Listed,
    /// Every move of every line is made.
    Made,
}

/// The manner of counting that words name, which leave out the program's name: none, or `made`.
pub fn manner_of(words: &[String]) -> Option<Manner> {
    match words {
        [] => Some(Manner::Listed),
        [word] if word.as_str() == "made" => Some(Manner::Made),
        _ => None,
    }
}

/// Why a line has no answer.
#[derive(Clone, Copy, Debug, PartialEq, Eq)]
pub enum Unanswered {
    /// The line is not a text, a semicolon and a depth from 0 to 255.
    Form,
    /// The text is no position.
    NoPosition(FenFault),
    /// The lines were not counted.
    NotCounted(CountFault),
    /// The output failed.
    NotPrinted,
}

/// What is said of a line that has no answer.
pub fn said_of(unanswered: Unanswered) -> &'static str {
    match unanswered {
        Unanswered::Form => "no position, semicolon and depth from 0 to 255",
        Unanswered::NoPosition(FenFault::Shape) => "no FEN",
        Unanswered::NoPosition(FenFault::Kings) => "a side has not exactly one king",
        Unanswered::NoPosition(FenFault::PawnRank) => "a pawn on the first or the last rank",
        Unanswered::NoPosition(FenFault::OpponentInCheck) => "the side not to move is in check",
        Unanswered::NotCounted(CountFault::NoMemory) => "out of memory",
        Unanswered::NotCounted(CountFault::TooMany) => "a count passes 64 bits",
        Unanswered::NotPrinted => "cannot write the output",
    }
}

/// How many lines of so many moves begin in a position.
fn counted(
    alloc: Global,
    position: &Position,
    manner: Manner,
    moves: u8,
) -> Result<u64, CountFault> {
    match manner {
        Manner::Listed => count_lines(alloc, position, moves),
        Manner::Made => count_made(position, moves).ok_or(CountFault::TooMany),
    }
}

/// The position and the depth that a line gives.
fn question_of(line: &str) -> Result<(Position, u8), Unanswered> {
    let Some((fen, depth)) = line.split_once(';') else {
        return Err(Unanswered::Form);
    };
    let Ok(depth) = depth.parse::<u8>() else {
        return Err(Unanswered::Form);
    };
    match read(fen.as_bytes()) {
        Ok(position) => Ok((position, depth)),
        Err(fault) => Err(Unanswered::NoPosition(fault)),
    }
}

/// Prints the counts that a line asks for: of lines of 1, 2, .. moves up to its depth, and of those of no move where the
/// depth is 0.
pub fn answer(
    rt: &impl Print,
    alloc: Global,
    manner: Manner,
    line: &str,
) -> Result<(), Unanswered> {
    let (position, depth) = question_of(line)?;
    for moves in depth.min(1)..=depth {
        let count = match counted(alloc, &position, manner, moves) {
            Ok(count) => count,
            Err(fault) => return Err(Unanswered::NotCounted(fault)),
        };
        let end = if moves < depth { " " } else { "\n" };
        let Ok(()) = print!(rt; "{count}{end}") else {
            return Err(Unanswered::NotPrinted);
        };
    }
    Ok(())
}
