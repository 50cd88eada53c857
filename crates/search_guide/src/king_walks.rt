//! What king's steps reach.

ghost use Rattle.std.specs.Prelude.{◌<◌, IfSome};

use cha_board::{Square, SquareSet};

/// How many rounds of king's steps there are at most: one for each square.
const ROUNDS: u8 = 64;

/// Whether king's steps reach some square of `goals` from a square over squares of `over`.
pub fn reaches(from: Square, over: SquareSet, goals: SquareSet) -> bool {
    let mut reached = SquareSet::single(from);
    for _ in 0..ROUNDS {
        let grown = reached.king_steps().common(over).joined(reached);
        if !grown.common(goals).is_empty() {
            return true;
        }
        if grown.within(reached) {
            return false;
        }
        reached = grown;
    }
    false
}

/// How many king's steps the nearest square of a set is from one of some squares. `None` where the set has none.
pub fn steps_to_nearest(from: SquareSet, set: SquareSet) -> Option<u8>
    ensures { IfSome result (λ steps. steps < 8) }
{
    if set.is_empty() {
        return None;
    }
    let mut at = from;
    for steps in 0..8 {
        if !at.common(set).is_empty() {
            return Some(steps);
        }
        at = at.king_steps();
    }
    None
}
