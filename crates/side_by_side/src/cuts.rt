//! What an input is made of.

ghost use Rattle.std.specs.Prelude.{◌≡◌, ◌≤◌, length, None, IfOk};
ghost use Rattle.cha_outcome.specs.declared.questions.Question.{Question};
ghost use Rattle.cha_outcome.specs.Outcomes.{CanBeAsked};
ghost use Rattle.side_by_side.specs.declared.cuts.ItemKind.TheVariants.{Games};
ghost use Rattle.side_by_side.specs.Cuts.{item_for, item_of_cut, kind_of_cut, IsReadable, IsAskedOf};

use cha_list::NoMemory;
use cha_outcome::{Item, item_of_game, item_of_kept_game, item_of_line, item_of_replay};
use pgn_games::PlacedGame;
use std::alloc::Global;
use text_lines::TextLine;

/// What games are cut from an input for.
#[derive(Clone, Copy, Debug, PartialEq, Eq)]
pub enum Purpose {
    /// They are judged.
    Judged,
    /// They are judged, and their results may be corrected.
    Corrected,
    /// Their moves are told.
    Told,
}

/// What an input is made of.
#[derive(Clone, Copy, Debug, PartialEq, Eq)]
pub enum ItemKind {
    /// Games.
    Games(Purpose),
    /// Lines that are not blank.
    Lines,
}

/// Something that an input is made of, as it was cut from its text.
#[derive(Drop)]
pub enum Cut {
    /// A game.
    Game(Purpose, PlacedGame),
    /// A line that is not blank.
    Line(TextLine),
}

/// The item that is read of a game. The only error is want of memory.
fn item_of(alloc: Global, purpose: Purpose, placed: &PlacedGame) -> Result<Item, NoMemory>
    requires { placed.now.game.fault ≡ None → length placed.now.game.words ≤ 12000 }
    ensures item { IfOk result (λ item. item ≡ item_for purpose placed.now) }
    ensures asked { (question : Question) → IsAskedOf (Games purpose) question → IfOk result (CanBeAsked question) }
{
    match purpose {
        Purpose::Judged => item_of_game(alloc, placed),
        Purpose::Corrected => item_of_kept_game(alloc, placed),
        Purpose::Told => item_of_replay(alloc, placed),
    }
}

impl Cut {
    /// The item that is read of it. The only error is want of memory.
    pub fn item(&self, alloc: Global) -> Result<Item, NoMemory>
        requires { IsReadable self.now }
        ensures item { IfOk result (λ item. item ≡ item_of_cut self.now) }
        ensures asked { (question : Question) → IsAskedOf (kind_of_cut self.now) question → IfOk result (CanBeAsked question) }
    {
        match self {
            Cut::Game(purpose, placed) => item_of(alloc, *purpose, placed),
            Cut::Line(line) => Ok(item_of_line(line.number, line.text.items())),
        }
    }
}
