//! Where rows stand among each other, what they show, and how squares go in.

ghost use Rattle.std.specs.Prelude.{◌≡◌, ◌<◌, slice_index_or, slice_set, IfOk, IfErr, OnOk, OnErr};
ghost use Rattle.std.specs.Vec.{vec_len};
ghost use Rattle.cha_board.specs.SquareSets.{set_of};
ghost use Rattle.mob_sets.specs.Rows.{Row, has_entry, entries_joined, row_joined};
ghost use Rattle.mob_sets.specs.Tidy.{AreTidy, StandsAt, IsThere, IsMissing};

use crate::rows::{SetRow, place};
use cha_board::{Kind, Square, SquareSet};
use cha_list::NoMemory;

/// How many rows stand before a place.
fn rows_before(rows: &[SetRow], place: usize) -> usize
    requires { AreTidy rows.now }
    ensures { StandsAt rows.now result place }
{
    rows.partition_point(|row| row.place() < place)
}

/// The number of the row that has a place, or the number that such a row would have.
fn find(rows: &[SetRow], place: usize) -> Result<usize, usize>
    requires { AreTidy rows.now }
    ensures there { IfOk result (λ i. IsThere rows.now i place) }
    ensures missing { IfErr result (λ i. IsMissing rows.now i place) }
{
    let index = rows_before(rows, place);
    if index == rows.len() {
        return Err(index);
    }
    if rows[index].place() == place {
        Ok(index)
    } else {
        Err(index)
    }
}

/// The squares on which rows show that the man of an origin may stand as a kind.
pub fn row_of(rows: &[SetRow], origin: Square, kind: Kind) -> SquareSet
    requires { AreTidy rows.now }
    ensures { result ≡ set_of (has_entry rows.now origin kind) }
{
    match find(rows, place(origin, kind)) {
        Ok(index) => {
            let row = rows[index];
            row.squares
        }
        Err(_) => SquareSet::empty(),
    }
}

/// Enters squares into the row of an origin and a kind.
pub fn join(
    rows: &mut Vec<SetRow>,
    origin: Square,
    kind: Kind,
    more: SquareSet,
) -> Result<(), NoMemory>
    requires { AreTidy rows.old.items }
    ensures ok { OnOk result (has_entry rows.new.items ≡ entries_joined (has_entry rows.old.items) origin kind more) }
    ensures err { OnErr result (rows.new.items ≡ rows.old.items) }
    ensures tidy { AreTidy rows.new.items }
{
    // The number of a set tells that it has 64 truth values.
    let _number = more.bits();
    if more.is_empty() {
        return Ok(());
    }
    match find(rows.as_slice(), place(origin, kind)) {
        Ok(index) => {
            fill(rows, index, more);
            Ok(())
        }
        Err(index) => {
            let filled = SetRow {
                origin,
                kind,
                squares: more,
            };
            match rows.insert(index, filled) {
                Ok(()) => Ok(()),
                Err(_) => Err(NoMemory),
            }
        }
    }
}

/// Adds squares to a row.
fn fill(rows: &mut Vec<SetRow>, index: usize, more: SquareSet)
    requires { index < vec_len rows.old }
    ensures { (d : Row) → rows.new.items ≡ slice_set rows.old.items index (row_joined (slice_index_or rows.old.items index d) more) }
{
    let row = rows[index];
    rows[index] = row.joined(more);
}
