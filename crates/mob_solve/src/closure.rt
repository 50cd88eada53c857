//! The least closed sets.

ghost use Rattle.std.specs.Prelude.{IfOk};
ghost use Rattle.mob_law.specs.Closed.{IsClosed};
ghost use Rattle.mob_sets.specs.Mobility.{Sets as MobilitySets, IsWithin};
ghost use Rattle.mob_sets.specs.Rows.{sets_of};
ghost use Rattle.mob_solve.specs.Least.{IsLeast};
ghost use Rattle.mob_solve.specs.Reaching.{sets_in};

use crate::entering::entered_sets;
use crate::reach::Reach;
use crate::rule_passes::pass;
use cha_board::Position;
use cha_list::NoMemory;
use mob_sets::Sets;
use std::alloc::Global;

/// The least closed sets of a position: they are closed, and they lie within all closed sets (this project). `NoMemory`
/// means that the allocator refused memory, and says nothing of the position.
pub fn least_closed_sets(alloc: Global, position: &Position) -> Result<Sets, NoMemory>
    ensures { IfOk result (λ s. IsLeast position.now (sets_of s)) }
{
    let sets = entered_sets(alloc, &grown(position))?;
    Ok(sets)
}

/// Sets that lie within all closed sets: what one pass over the rules makes of none.
pub fn begun(alloc: Global, position: &Position) -> Result<Sets, NoMemory>
    ensures { IfOk result (λ s. (r : MobilitySets) → IsClosed position.now r → IsWithin (sets_of s) r) }
{
    let mut reach = Reach::empty();
    let _first = pass(position, &mut reach);
    let sets = entered_sets(alloc, &reach)?;
    Ok(sets)
}

/// The same, as they grow: a pass over the rules follows another until one adds nothing.
fn grown(position: &Position) -> Reach
    ensures { IsLeast position.now (sets_in result) }
{
    let mut reach = Reach::empty();
    let mut grew = true;
    while grew {
        grew = pass(position, &mut reach);
    }
    reach
}
