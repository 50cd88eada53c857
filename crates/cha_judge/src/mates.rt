//! The shortest mates.

use crate::judges::Judge;
use cha_board::Color;
use cha_outcome::{Item, Outcome, Question};
use helpmate_list::{Spread, least_mates};
use std::alloc::Global;

/// The judge that lists the shortest mates of a side in a position.
#[derive(Drop)]
pub struct MatesJudge<'a, H: Spread> {
    /// The side that mates.
    pub side: Color,
    /// Within how many plies mates are looked for, at most 6.
    pub depth: u8,
    /// How many workers share the root moves, at least one.
    pub workers: u32,
    /// Who does the parts of the workers.
    pub hands: &'a H,
}

impl<'a, H: Spread> Judge for MatesJudge<'a, H> {
    ghost use Rattle.std.specs.Prelude.{◌≤◌};
    ghost use Rattle.cha_outcome.specs.declared.questions.Question.TheVariants.{Mates};

    ghost ready = { λ s. H.ready s.hands.now × (s.depth ≤ 6) × (1 ≤ s.workers) };

    ghost worked = { λ old new. Unit {0} };

    ghost none_worked = { λ s. tt };

    ghost both_worked = { λ a b c one two. tt };

    ghost question = { λ s. Mates s.side s.depth };

    fn question(&self) -> Question {
        Question::Mates {
            side: self.side,
            depth: self.depth,
        }
    }

    fn judge(&mut self, alloc: Global, item: Item) -> Result<Outcome, Item> {
        match item {
            Item::Position { line, position } => {
                let depth = self.depth;
                let found = least_mates(
                    self.hands,
                    alloc,
                    &position,
                    self.side,
                    depth,
                    self.workers,
                );
                match found {
                    Ok(shortest) => Ok(Outcome::ListedMates {
                        line,
                        position,
                        depth,
                        shortest,
                    }),
                    Err(_) => Err(Item::Position { line, position }),
                }
            }
            Item::RefusedLine { line, fault } => Ok(Outcome::RefusedLine { line, fault }),
            Item::UnreadableGame { span, why } => Ok(Outcome::UnreadableGame { span, why }),
            Item::Played(_) => unreachable!(),
            Item::Replayed(_) => unreachable!(),
        }
    }
}
