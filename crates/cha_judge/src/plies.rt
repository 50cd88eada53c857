//! The moves of games.

use crate::judges::Judge;
use cha_outcome::{Item, Outcome, Question};
use std::alloc::Global;

/// The judge that hands on the moves of games. It decides nothing.
#[derive(Clone, Copy, Debug, PartialEq, Eq)]
pub struct PliesJudge;

impl Judge for PliesJudge {
    ghost use Rattle.std.specs.Prelude.{⊤};
    ghost use Rattle.cha_outcome.specs.declared.questions.Question.TheVariants.{Plies};

    ghost ready = { λ _. ⊤ };

    ghost worked = { λ old new. Unit {0} };

    ghost none_worked = { λ s. tt };

    ghost both_worked = { λ a b c one two. tt };

    ghost question = { λ _. Plies };

    fn question(&self) -> Question {
        Question::Plies
    }

    fn judge(&mut self, _alloc: Global, item: Item) -> Result<Outcome, Item> {
        match item {
            Item::Replayed(game) => Ok(Outcome::Replayed(game)),
            Item::Position { .. } => unreachable!(),
            Item::RefusedLine { .. } => unreachable!(),
            Item::Played(_) => unreachable!(),
            Item::UnreadableGame { .. } => unreachable!(),
        }
    }
}
