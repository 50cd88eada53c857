//! What holds of a pass at any time.

ghost use Rattle.turn_cell.specs.Histories.{IsWellKnown};
ghost use Rattle.turn_cell.specs.Passes.{start, number, seen, mine, IsOf};

use crate::cells::{Pass, TurnCell};
use crate::object::Object;

/// The law: what a pass of a cell has seen is one legal history from the cell's first value, and the entries there under its
/// number are those that it made.
pub fn a_pass_knows_one_history<V: Object>(cell: &TurnCell<V>, pass: &Pass<V>)
    requires { IsOf cell.now pass.now }
    ensures { IsWellKnown V.step (start cell.now) (number pass.now) (seen pass.now) (mine pass.now) }
{}
