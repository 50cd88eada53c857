//! Sets as they grow, entered into sets that are kept.

ghost use Rattle.std.specs.Prelude.{◌≡◌, ◌<◌, ℕ, true, IfOk, OnOk};
ghost use Rattle.cha_board.specs.declared.men.Kind.{Kind as ManKind};
ghost use Rattle.cha_board.specs.SquareSets.{has_square};
ghost use Rattle.mob_sets.specs.Mobility.{Sets as MobilitySets, IsWithin};
ghost use Rattle.mob_sets.specs.Rows.{sets_of};
ghost use Rattle.mob_solve.specs.Reaching.{sets_in};

use crate::reach::Reach;
use cha_board::{Kind, Square, SquareSet};
use cha_list::NoMemory;
use mob_sets::Sets;
use std::alloc::Global;

/// The sets that have just what has grown.
pub fn entered_sets(alloc: Global, reach: &Reach) -> Result<Sets, NoMemory>
    ensures all { IfOk result (λ s. IsWithin (sets_in reach.now) (sets_of s)) }
    ensures inside { IfOk result (λ s. IsWithin (sets_of s) (sets_in reach.now)) }
{
    // The number of a set tells that its squares are on the board.
    let _number = reach.loose.bits();
    let mut sets = Sets::new(alloc);
    for index in 0..64 {
        let origin = Square::at(index);
        enter_origin(&mut sets, reach, origin)?;
        if reach.loose.has(origin) {
            sets.loosen(origin);
        }
    }
    Ok(sets)
}

/// Enters what has grown for an origin.
fn enter_origin(sets: &mut Sets, reach: &Reach, origin: Square) -> Result<(), NoMemory>
    ensures grows { OnOk result (IsWithin (sets_of sets.old) (sets_of sets.new)) }
    ensures all { OnOk result ((k : ManKind) (u : ℕ) → (sets_in reach.now).has origin k u ≡ true → (sets_of sets.new).has origin k u ≡ true) }
    ensures inside { OnOk result (IsWithin (sets_of sets.old) (sets_in reach.now) → IsWithin (sets_of sets.new) (sets_in reach.now)) }
{
    enter_row(sets, origin, Kind::Pawn, reach.row(origin, Kind::Pawn))?;
    enter_row(sets, origin, Kind::Knight, reach.row(origin, Kind::Knight))?;
    enter_row(sets, origin, Kind::Bishop, reach.row(origin, Kind::Bishop))?;
    enter_row(sets, origin, Kind::Rook, reach.row(origin, Kind::Rook))?;
    enter_row(sets, origin, Kind::Queen, reach.row(origin, Kind::Queen))?;
    enter_row(sets, origin, Kind::King, reach.row(origin, Kind::King))?;
    Ok(())
}

/// Enters squares for an origin and a kind.
fn enter_row(
    sets: &mut Sets,
    origin: Square,
    kind: Kind,
    squares: SquareSet,
) -> Result<(), NoMemory>
    ensures grows { OnOk result (IsWithin (sets_of sets.old) (sets_of sets.new)) }
    ensures all { OnOk result ((u : ℕ) → has_square squares u ≡ true → (sets_of sets.new).has origin kind u ≡ true) }
    ensures inside { OnOk result ((r : MobilitySets) → ((u : ℕ) → has_square squares u ≡ true → r.has origin kind u ≡ true) → IsWithin (sets_of sets.old) r → IsWithin (sets_of sets.new) r) }
{
    sets.join(origin, kind, squares)?;
    Ok(())
}
