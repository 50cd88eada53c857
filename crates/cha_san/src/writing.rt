//! A legal move as a word of SAN (PGN standard, 8.2.3).

ghost use Rattle.std.specs.Prelude.{◌≡◌, ◌++◌, Ok, Contains, IfOk, OnOk};
ghost use Rattle.cha_board.specs.Board.{Board};
ghost use Rattle.cha_board.specs.Squares.{file_of, rank_of};
ghost use Rattle.cha_moves.specs.Step.{Move as Step};
ghost use Rattle.cha_moves.specs.Moves.{legal};
ghost use Rattle.cha_san.specs.Resolving.{resolved};
ghost use Rattle.cha_san.specs.Writing.{kind_text, promotion_text, castling_text, named_text, named_if, capture_text, takes_man, parts_of as parts_so, is_alone as alone, marked, man_word, sign_text, san_text};

use crate::fitting::castles;
use crate::forms::{Form, Parts};
use crate::resolving::found_for;
use cha_board::{Kind, Man, Position, Square, put_square};
use cha_list::{NoMemory, Text};
use cha_moves::{Move, after, is_mate};
use std::alloc::Global;

/// What a word names of the square that a man leaves.
#[derive(Clone, Copy)]
struct Marks {
    file: bool,
    rank: bool,
}

/// Whether a move of a man of this kind takes a man.
#[tactic(auto, unfolding(crate::specs::Writing::takes_man))]
fn takes(position: &Position, kind: Kind, m: &Move) -> bool
    ensures { result ≡ takes_man position.now kind m.now }
{
    position.man(m.to).is_some() || (kind.is(Kind::Pawn) && m.from.file() != m.to.file())
}

/// A file or a rank that is named, or not.
fn named(is_named: bool, number: u8) -> Option<u8>
    ensures { result ≡ named_if is_named number }
{
    if is_named { Some(number) } else { None }
}

/// Whether one legal move alone fits the parts of a word.
#[tactic(auto, unfolding(crate::specs::Writing::is_alone))]
fn is_alone(position: &Position, kind: Kind, m: &Move, marks: Marks) -> bool
    ensures { result ≡ alone position.now (parts_so kind m.now marks.file marks.rank) }
{
    let parts = Parts {
        kind,
        file: named(marks.file, m.from.file()),
        rank: named(marks.rank, m.from.rank()),
        to: m.to,
        promotion: m.promotion,
    };
    found_for(position, &Form::Plain(parts)).only().is_ok()
}

/// What a word has to name of the square that a man of this kind leaves, so that one legal move alone fits.
#[tactic(auto, unfolding(crate::specs::Writing::marked))]
fn marks_of(position: &Position, kind: Kind, m: &Move) -> Marks
    ensures { parts_so kind m.now result.file result.rank ≡ marked position.now kind m.now }
{
    let none = Marks {
        file: false,
        rank: false,
    };
    let by_file = Marks {
        file: true,
        rank: false,
    };
    let by_rank = Marks {
        file: false,
        rank: true,
    };
    let is_pawn = kind.is(Kind::Pawn);
    if !(is_pawn && takes(position, kind, m)) && is_alone(position, kind, m, none) {
        return none;
    }
    if is_alone(position, kind, m, by_file) {
        return by_file;
    }
    if !is_pawn && is_alone(position, kind, m, by_rank) {
        return by_rank;
    }
    Marks {
        file: true,
        rank: true,
    }
}

/// Appends the letter of a kind of man: none for a pawn.
pub fn put_kind(kind: Kind, text: &mut Text) -> Result<(), NoMemory>
    ensures { OnOk result (text.new ≡ text.old ++ kind_text kind) }
{
    match kind {
        Kind::Pawn => Ok(()),
        _ => {
            text.push(kind.letter())?;
            Ok(())
        }
    }
}

/// Appends the file and the rank that are named, and an `x` where a man is taken.
fn put_marks(marks: Marks, takes: bool, from: Square, text: &mut Text) -> Result<(), NoMemory>
    ensures { OnOk result (text.new ≡ text.old ++ named_text 97 (named_if marks.file (file_of from)) ++ named_text 49 (named_if marks.rank (rank_of from)) ++ capture_text takes) }
{
    if marks.file {
        text.push(from.file_letter())?;
    }
    if marks.rank {
        text.push(from.rank_digit())?;
    }
    if takes {
        text.push(b'x')?;
    }
    Ok(())
}

/// Appends what a pawn becomes, behind an equals sign.
pub fn put_promotion(promotion: Option<Kind>, text: &mut Text) -> Result<(), NoMemory>
    ensures { OnOk result (text.new ≡ text.old ++ promotion_text promotion) }
{
    match promotion {
        None => Ok(()),
        Some(kind) => {
            text.push(b'=')?;
            text.push(kind.letter())?;
            Ok(())
        }
    }
}

/// Appends the word for castling, by the square that the king enters.
#[tactic(auto, unfolding(crate::specs::Writing::castling_text))]
pub fn put_castling(to: Square, text: &mut Text) -> Result<(), NoMemory>
    ensures { OnOk result (text.new ≡ text.old ++ castling_text to) }
{
    if to.file() == 6 {
        text.append(b"O-O")
    } else {
        text.append(b"O-O-O")
    }
}

/// Appends the word of a man that does not castle, without a sign.
fn put_man(position: &Position, man: Option<Man>, m: &Move, text: &mut Text) -> Result<(), NoMemory>
    ensures { OnOk result (text.new ≡ text.old ++ man_word position.now m.now man) }
{
    let Some(man) = man else {
        return Ok(());
    };
    put_kind(man.kind, text)?;
    let marks = marks_of(position, man.kind, m);
    put_marks(marks, takes(position, man.kind, m), m.from, text)?;
    put_square(m.to, text)?;
    put_promotion(m.promotion, text)
}

/// Appends a number sign where the side to move is checkmated, else a plus sign where it is in check.
#[tactic(auto, unfolding(crate::specs::Writing::sign_text))]
fn put_sign(position: &Position, text: &mut Text) -> Result<(), NoMemory>
    ensures { OnOk result (text.new ≡ text.old ++ sign_text position.now) }
{
    let side = position.side();
    if is_mate(position, side.other()) {
        text.append(b"#")
    } else if position.in_check(side) {
        text.append(b"+")
    } else {
        Ok(())
    }
}

/// A legal move as a word of SAN (PGN standard, 8.2.3), as `Nbd2`, `exd6`, `e8=Q+`, `O-O` or `Qh4#`: of no mark, the file, the rank and
/// both, the first with which one legal move alone fits; a pawn that takes names its file.
#[tactic(auto, unfolding(crate::specs::Writing::san_text))]
pub fn san(alloc: Global, position: &Position, m: Move) -> Result<Text, NoMemory>
    requires { Contains (legal position.now) m }
    ensures { IfOk result (λ text. text ≡ san_text position.now m) }
{
    let mut text = Text::new(alloc);
    if castles(position, &m) {
        put_castling(m.to, &mut text)?;
    } else {
        put_man(position, position.man(m.from), &m, &mut text)?;
    }
    put_sign(&after(position, m), &mut text)?;
    Ok(text)
}

/// The law: the word that is written of a legal move names this move, and no other.
pub fn written_moves_are_named()
    ensures { (q : Board) (m : Step) → Contains (legal q) m → resolved q (san_text q m) ≡ Ok m }
{}
