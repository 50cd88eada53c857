//! Passes over all the rules.

ghost use Rattle.std.specs.Prelude.{◌≡◌, ◌<◌, ℕ, false, Some};
ghost use Rattle.cha_board.specs.declared.men.Man.{Man as AMan};
ghost use Rattle.cha_board.specs.Board.{man_at};
ghost use Rattle.mob_sets.specs.Mobility.{Sets, IsWithin};
ghost use Rattle.mob_law.specs.Closed.{IsClosed};
ghost use Rattle.mob_solve.specs.Reaching.{sets_in, Grew};
ghost use Rattle.mob_check.specs.Rules.{ManRules};

use crate::man_rules::grow_man;
use crate::reach::Reach;
use crate::reached::ground_of;
use cha_board::{Position, Square};
use mob_check::Ground;

/// Adds what all the rules ask, as far as what is fixed when the pass begins is concerned, and answers whether something
/// is new. Where nothing is, the sets are closed.
pub fn pass(position: &Position, reach: &mut Reach) -> bool
    ensures change { Grew reach.old reach.new result }
    ensures closed { result ≡ false → IsClosed position.now (sets_in reach.old) }
    ensures inside { (r : Sets) → IsClosed position.now r → IsWithin (sets_in reach.old) r → IsWithin (sets_in reach.new) r }
{
    position.known();
    let ground = ground_of(position, reach);
    grow_men(position, &ground, reach)
}

/// Adds what the rules ask for each man, and answers whether something is new.
fn grow_men(position: &Position, ground: &Ground, reach: &mut Reach) -> bool
    ensures change { Grew reach.old reach.new result }
    ensures rules { result ≡ false → (o : ℕ) (man : AMan) → o < 64 → man_at position.now.men o ≡ Some man → ManRules ground.now (sets_in reach.old) o man }
    ensures inside { (r : Sets) → ((o : ℕ) (man : AMan) → man_at position.now.men o ≡ Some man → ManRules ground.now r o man) → IsWithin (sets_in reach.old) r → IsWithin (sets_in reach.new) r }
{
    let mut grew = false;
    for index in 0..64 {
        if grow_on(position, ground, reach, Square::at(index)) {
            grew = true;
        }
    }
    grew
}

/// Adds what the rules ask for the man on a square, if one stands there, and answers whether something is new.
fn grow_on(position: &Position, ground: &Ground, reach: &mut Reach, at: Square) -> bool
    ensures change { Grew reach.old reach.new result }
    ensures rules { result ≡ false → (man : AMan) → man_at position.now.men at ≡ Some man → ManRules ground.now (sets_in reach.old) at man }
    ensures inside { (r : Sets) → ((man : AMan) → man_at position.now.men at ≡ Some man → ManRules ground.now r at man) → IsWithin (sets_in reach.old) r → IsWithin (sets_in reach.new) r }
{
    match position.man(at) {
        None => false,
        Some(man) => grow_man(ground, reach, at, man),
    }
}
