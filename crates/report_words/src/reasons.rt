//! Why a line is no position, or a game cannot be read, in words.

ghost use Rattle.std.specs.Prelude.{◌≡◌, ◌++◌, OnOk, codes, decimal};
ghost use Rattle.report_words.specs.Reasons.{fen_fault_text, game_fault_text, word_fault_text, reason_text};

use crate::counts::put_count;
use cha_fen::FenFault;
use cha_list::{NoMemory, Text};
use cha_outcome::Unreadable;
use cha_san::SanFault;
use pgn_games::GameFault;
use std::alloc::Global;

/// Appends the name of a fault of FEN.
#[tactic(auto, unfolding(crate::specs::Reasons::fen_fault_text))]
pub fn put_fen_fault(fault: FenFault, text: &mut Text) -> Result<(), NoMemory>
    ensures { OnOk result (text.new ≡ text.old ++ fen_fault_text fault) }
{
    match fault {
        FenFault::Shape => text.append(b"shape"),
        FenFault::Kings => text.append(b"kings"),
        FenFault::PawnRank => text.append(b"pawn rank"),
        FenFault::OpponentInCheck => text.append(b"opponent in check"),
    }
}

/// Appends the fault of the FEN that a game begins with.
fn put_bad_start(fault: FenFault, text: &mut Text) -> Result<(), NoMemory>
    ensures { OnOk result (text.new ≡ text.old ++ (codes "bad FEN: " ++ fen_fault_text fault)) }
{
    text.append(b"bad FEN: ")?;
    put_fen_fault(fault, text)?;
    Ok(())
}

/// Appends the name of a fault of a game.
#[tactic(auto, unfolding(crate::specs::Reasons::game_fault_text))]
fn put_game_fault(alloc: Global, fault: GameFault, text: &mut Text) -> Result<(), NoMemory>
    ensures { OnOk result (text.new ≡ text.old ++ game_fault_text fault) }
{
    match fault {
        GameFault::BadToken(place) => put_count(alloc, b"bad token at byte ", place, text),
        GameFault::Unclosed => text.append(b"unclosed comment or variation"),
        GameFault::ValueTooLong => text.append(b"tag value over 4096 bytes"),
        GameFault::Variant => text.append(b"variant not standard"),
        GameFault::BadStart(fault) => put_bad_start(fault, text),
        GameFault::TooManyPlies => text.append(b"more than 12000 moves"),
    }
}

/// Appends the name of a fault of a move word.
#[tactic(auto, unfolding(crate::specs::Reasons::word_fault_text))]
fn put_word_fault(fault: SanFault, text: &mut Text) -> Result<(), NoMemory>
    ensures { OnOk result (text.new ≡ text.old ++ word_fault_text fault) }
{
    match fault {
        SanFault::NotSan => text.append(b"not SAN"),
        SanFault::NoSuchMove => text.append(b"no such move"),
        SanFault::Ambiguous => text.append(b"ambiguous"),
        // Want of memory says nothing of a word.
        SanFault::NoMemory => Ok(()),
    }
}

/// Appends the number of a move in its game.
fn put_ply(alloc: Global, ply: u32, text: &mut Text) -> Result<(), NoMemory>
    ensures { OnOk result (text.new ≡ text.old ++ (codes "move " ++ decimal ply)) }
{
    put_count(alloc, b"move ", u64::from(ply), text)?;
    Ok(())
}

/// Appends a move word with its number and its fault.
fn put_word(
    alloc: Global,
    ply: u32,
    word: &[u8],
    fault: SanFault,
    text: &mut Text,
) -> Result<(), NoMemory>
    ensures { OnOk result (text.new ≡ text.old ++ (codes "move " ++ decimal ply ++ codes " " ++ word.now ++ codes ": " ++ word_fault_text fault)) }
{
    put_ply(alloc, ply, text)?;
    text.append(b" ")?;
    text.append(word)?;
    text.append(b": ")?;
    put_word_fault(fault, text)?;
    Ok(())
}

/// Appends why a game cannot be read.
#[tactic(auto, unfolding(crate::specs::Reasons::reason_text))]
pub fn put_reason(alloc: Global, why: &Unreadable, text: &mut Text) -> Result<(), NoMemory>
    ensures { OnOk result (text.new ≡ text.old ++ reason_text why.now) }
{
    match why {
        Unreadable::Tokens(fault) => put_game_fault(alloc, *fault, text),
        Unreadable::Moves { ply, word, fault } => {
            put_word(alloc, *ply, word.items(), *fault, text)
        }
        Unreadable::TooLong => text.append(b"longer than 16777216 bytes"),
    }
}
