//! The line of a position: a word, which says what the node is, and the position in FEN.

ghost use Rattle.std.specs.Prelude.{◌≡◌, ◌++◌, OnOk, IfOk};
ghost use Rattle.cert_text.specs.Labels.{label_word, label_named, label_of};
ghost use Rattle.cert_text.specs.Spelled.{position_line};
ghost use Rattle.cert_text.specs.Texts.{position_of};

use cha_board::Position;
use cha_fen::read;
use cha_list::{Class, NoMemory, Text, run_of};
use mob_small::Reason;
use std::alloc::Global;

/// What the line of a node begins with.
#[derive(Clone, Copy, Debug, PartialEq, Eq)]
pub enum Label {
    /// An inner node.
    Inner,
    /// A leaf with mobility sets.
    Leaf,
    /// A node whose men show it alone.
    Men(Reason),
}

impl Label {
    /// Its word.
    pub fn word(self) -> &'static [u8]
        ensures { result.now ≡ label_word self }
    {
        match self {
            Label::Inner => b"inner",
            Label::Leaf => b"leaf",
            Label::Men(reason) => reason.word(),
        }
    }

    /// The label of a word.
    fn of_word(word: &[u8]) -> Option<Label>
        ensures { result ≡ label_named word.now }
    {
        if let Some(reason) = Reason::of_word(word) {
            return Some(Label::Men(reason));
        }
        if word == b"inner".as_slice() {
            Some(Label::Inner)
        } else if word == b"leaf".as_slice() {
            Some(Label::Leaf)
        } else {
            None
        }
    }

    /// The label of a line: its word stands before the first blank.
    #[tactic(auto, unfolding(crate::specs::Labels::label_of))]
    pub fn of_line(line: &[u8]) -> Option<Label>
        ensures { result ≡ label_of line.now }
    {
        let (word, _behind) = line.split_at(run_of(Class::NotBlank, line));
        Label::of_word(word)
    }
}

/// Writes the line of a position.
#[tactic(auto, unfolding(crate::specs::Spelled::position_line))]
pub fn put_position(
    alloc: Global,
    label: Label,
    position: &Position,
    text: &mut Text,
) -> Result<(), NoMemory>
    ensures { OnOk result (text.new ≡ text.old ++ position_line label position.now) }
{
    let fen = cha_fen::write(alloc, position)?;
    text.append(label.word())?;
    text.push(b' ')?;
    text.append(fen.items())
}

/// The position of a line whose label was read.
#[tactic(auto, unfolding(crate::specs::Texts::position_of))]
pub fn position_named(
    alloc: Global,
    label: Label,
    line: &[u8],
) -> Result<Option<Position>, NoMemory>
    ensures { IfOk result (λ position. position ≡ position_of label line.now) }
{
    let before = label.word().len() + 1;
    if line.len() < before {
        return Ok(None);
    }
    let (_label, fen) = line.split_at(before);
    let Ok(position) = read(fen) else {
        return Ok(None);
    };
    let mut text = Text::new(alloc);
    put_position(alloc, label, &position, &mut text)?;
    Ok(if line == text.items() {
        Some(position)
    } else {
        None
    })
}
