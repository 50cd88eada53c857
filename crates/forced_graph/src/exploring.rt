//! The exploration.

ghost use Rattle.std.specs.Prelude.{◌<◌, List, IfOk};
ghost use Rattle.cha_board.specs.Men.{other_color};
ghost use Rattle.cha_moves.specs.Ends.{IsMated};
ghost use Rattle.cha_fact.specs.Entries.{Entry};
ghost use Rattle.mob_law.specs.Static.{IsStaticallyUnwinnable};
ghost use Rattle.forced_graph.specs.Outcomes.{IsOutcome, HasManyIfSpent};
ghost use Rattle.forced_graph.specs.Asking.{AsksEach};

use crate::explored::Explored;
use crate::known::known_mate;
use crate::region::Region;
use cha_board::{Color, Position};
use cha_fact::Facts;
use cha_list::NoMemory;
use std::alloc::Global;

/// Explores what legal moves reach from a position that is no mate for the winner and not statically unwinnable for it, in the
/// order of a guide. At most `budget` positions are expanded. A position behind a lasting move (`is_lasting`) is a leaf
/// where closed sets or the men alone (`Reason`) show the side unable to mate; a leaf is never expanded and costs
/// nothing of the budget.
///
/// A place that keeps facts is asked for each position that is expanded; a mate that it knows ends the exploration. Where
/// more than 4,294,967,295 positions are met, the error is want of memory; there is no other.
pub fn explore<F: Facts>(
    alloc: Global,
    position: &Position,
    winner: Color,
    budget: u32,
    facts: &mut F,
) -> Result<Explored, NoMemory>
    requires ready { F.ready facts.old }
    requires some { 0 < budget }
    requires running { IsMated position.now (other_color winner) → ⊥ }
    requires unshown { IsStaticallyUnwinnable position.now winner → ⊥ }
    ensures stays_ready { F.ready facts.new }
    ensures holds { IfOk result (IsOutcome position.now winner budget) }
    ensures many { IfOk result (HasManyIfSpent position.now budget) }
    ensures calls { (entries : List Entry) × F.made facts.old entries facts.new }
    ensures asks { AsksEach F.made facts.old facts.new position.now winner result }
{
    let mut region = Region::new(alloc, position, winner)?;
    while let Some(name) = region.next(alloc)? {
        if region.count == budget {
            return Ok(Explored::Spent { count: budget });
        }
        let here = region.store.position(name);
        if let Some(line) = known_mate(&here, winner, facts) {
            return Ok(Explored::Mate(region.line_by(alloc, name, line.moves())?));
        }
        if let Some(moves) = region.expand(alloc, name)? {
            return Ok(Explored::Mate(moves));
        }
    }
    Ok(Explored::Closed(region.into_cert(alloc)?))
}
