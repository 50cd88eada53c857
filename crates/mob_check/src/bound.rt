//! Mobility sets that show a position unwinnable.

ghost use Rattle.std.specs.Prelude.{◌↔◌, IsTrue};
ghost use Rattle.std.specs.Bool.{OnTrue};
ghost use Rattle.cha_moves.specs.Ends.{IsUnwinnable};
ghost use Rattle.mob_law.specs.Closed.{IsClosed};
ghost use Rattle.mob_law.specs.Threats.{HasNoMate};
ghost use Rattle.mob_sets.specs.Rows.{sets_of};

use crate::closing::closed;
use crate::mates_in_reach::no_mate;
use cha_board::{Color, Position};
use mob_sets::Sets;

/// Whether mobility sets are closed for a position and have no mate for a side (this project). Where that is so, no series of
/// legal moves from the position mates for that side. It takes no memory.
pub fn proves_unwinnable(position: &Position, winner: Color, sets: &Sets) -> bool
    ensures value { IsTrue result ↔ (IsClosed position.now (sets_of sets.now) × HasNoMate position.now (sets_of sets.now) winner) }
    ensures law { OnTrue result (IsUnwinnable position.now winner) }
{
    position.known();
    closed(position, sets) && no_mate(position, winner, sets)
}
