//! What the least closed sets show, and the static verdict.

ghost use Rattle.std.specs.Bool.{OnTrue, OnFalse};
ghost use Rattle.std.specs.Prelude.{IfOk, IfSome, IfNone};
ghost use Rattle.cha_moves.specs.Ends.{IsUnwinnable};
ghost use Rattle.mob_law.specs.Closed.{IsClosed};
ghost use Rattle.mob_law.specs.Threats.{HasNoMate};
ghost use Rattle.mob_law.specs.Static.{IsStaticallyUnwinnable};
ghost use Rattle.mob_sets.specs.Rows.{sets_of};
ghost use Rattle.mob_solve.specs.Least.{IsLeast};

use crate::closure::{begun, least_closed_sets};
use crate::weak::is_weak;
use cha_board::{Color, Position};
use cha_list::NoMemory;
use mob_check::no_mate;
use mob_sets::Sets;
use std::alloc::Global;

/// Whether the least closed sets of a position show that a winner cannot win, whatever legal moves may come: whether they have no
/// mate for it. Where they have one, so have all closed sets, which leaves the question open (this project). It takes no memory.
pub fn least_show(position: &Position, winner: Color, sets: &Sets) -> bool
    requires { IsLeast position.now (sets_of sets.now) }
    ensures no_mate { OnTrue result (HasNoMate position.now (sets_of sets.now) winner) }
    ensures law { OnTrue result (IsUnwinnable position.now winner) }
    ensures open { OnFalse result (IsStaticallyUnwinnable position.now winner → ⊥) }
{
    position.known();
    no_mate(position, winner, sets)
}

/// Whether sets that have only begun to grow already have a mate for a winner, so that all closed sets have one.
// For a weak side they seldom have one, and would be looked at in vain.
fn begins_with_mate(alloc: Global, position: &Position, winner: Color) -> Result<bool, NoMemory>
    ensures { IfOk result (λ found. OnTrue found (IsStaticallyUnwinnable position.now winner → ⊥)) }
{
    position.known();
    if is_weak(position, winner) {
        return Ok(false);
    }
    let sets = begun(alloc, position)?;
    Ok(!no_mate(position, winner, &sets))
}

/// Mobility sets that are closed for a position and have no mate for a winner, so that it cannot win whatever legal
/// moves may come; or None where no closed sets are without a mate for it, which leaves the question open (this project).
/// The sets are the least closed ones. `NoMemory` means that the allocator refused memory, and says nothing of the position.
// Where most men are free, one pass leaves a mate already, and the others need not be made.
pub fn static_verdict(
    alloc: Global,
    position: &Position,
    winner: Color,
) -> Result<Option<Sets>, NoMemory>
    ensures least { IfOk result (λ o. IfSome o (λ s. IsLeast position.now (sets_of s))) }
    ensures closed { IfOk result (λ o. IfSome o (λ s. IsClosed position.now (sets_of s))) }
    ensures no_mate { IfOk result (λ o. IfSome o (λ s. HasNoMate position.now (sets_of s) winner)) }
    ensures law { IfOk result (λ o. IfSome o (λ s. IsUnwinnable position.now winner)) }
    ensures none { IfOk result (λ o. IfNone o (IsStaticallyUnwinnable position.now winner → ⊥)) }
{
    if begins_with_mate(alloc, position, winner)? {
        return Ok(None);
    }
    let sets = least_closed_sets(alloc, position)?;
    if least_show(position, winner, &sets) {
        Ok(Some(sets))
    } else {
        Ok(None)
    }
}
